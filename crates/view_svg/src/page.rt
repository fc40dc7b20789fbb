//! The head and the foot of a picture.
use crate::fill::add_textures;
use aps_model::NoMemory;
use std::fmt::Write;

/// The texture of critical time.
const HATCHING: &str = "<defs>
<pattern id=\"c\" width=\"60\" height=\"60\" patternUnits=\"userSpaceOnUse\">";

const HATCHES: &str =
    "<path d=\"M0 60L60 0M-15 15L15 -15M45 75L75 45\" stroke=\"#222222\" stroke-width=\"9\" fill=\"none\"/></pattern>
";

/// What stands before the elements of a picture of this report, which is so high and shows so many partitions.
pub fn add_head(
    out: &mut String,
    report: &str,
    height: u64,
    partitions: usize,
) -> Result<(), NoMemory> {
    add_sizes(out, height)?;
    write!(out, "<title>apsim {report}</title>\n")?;
    out.push_str(HATCHING)?;
    out.push_str(HATCHES)?;
    add_textures(out, partitions)?;
    write!(
        out,
        "</defs>\n<rect width=\"14000\" height=\"{height}\" fill=\"#ffffff\"/>\n"
    )
}

fn add_sizes(out: &mut String, height: u64) -> Result<(), NoMemory> {
    let pixels = height / 10;
    write!(
        out,
        "<svg xmlns=\"http://www.w3.org/2000/svg\" width=\"1400\" height=\"{pixels}\" viewBox=\"0 0 14000 {height}\" "
    )?;
    out.push_str("font-family=\"DejaVu Sans Mono,Menlo,Consolas,monospace\" fill=\"#222222\">\n")
}

/// What stands behind the elements.
pub fn add_foot(out: &mut String) -> Result<(), NoMemory> {
    out.push_str("</svg>\n")
}
