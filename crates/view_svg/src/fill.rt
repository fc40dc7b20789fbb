//! What areas are filled with, and their edges.
ghost use Rattle.std.specs.Prelude.{◌≤◌};

use aps_model::NoMemory;
use std::fmt::Write;

/// The partitions that have a colour of their own; the ones behind them have one with a texture.
pub const COLOURED: usize = 9;

/// The first is that of `System`. Black text is legible on each, and they stay apart for colour-blind readers.
static COLOURS: [&str; COLOURED] = [
    "dddddd", "77aadd", "ee8866", "eedd88", "ffaabb", "44bb99", "99ddff", "bbcc33", "aaaa00",
];

/// What an area is filled with: white, a pale or a dark grey, the hatching of critical time, or the colour of a partition.
#[derive(Clone, Copy)]
pub enum Fill {
    White,
    Pale,
    Dark,
    Hatched,
    Partition(usize),
}

/// How an area is edged, or that it is half transparent.
#[derive(Clone, Copy)]
pub enum Edge {
    Plain,
    Boxed,
    Thin,
    Half,
}

/// The value of the attribute `fill`.
pub fn add_fill(out: &mut String, fill: Fill) -> Result<(), NoMemory> {
    match fill {
        Fill::White => out.push_str("#ffffff"),
        Fill::Pale => out.push_str("#eeeeee"),
        Fill::Dark => out.push_str("#777777"),
        Fill::Hatched => out.push_str("url(#c)"),
        Fill::Partition(p) => add_partition(out, p),
    }
}

/// The colour of a partition, or its texture.
fn add_partition(out: &mut String, p: usize) -> Result<(), NoMemory> {
    if p < COLOURED {
        out.push_str("#")?;
        out.push_str(COLOURS[p])
    } else {
        write!(out, "url(#p{p})")
    }
}

/// The attributes of an edge.
pub fn add_edge(out: &mut String, edge: Edge) -> Result<(), NoMemory> {
    match edge {
        Edge::Plain => Ok(()),
        Edge::Boxed => out.push_str(" stroke=\"#222222\" stroke-width=\"6\""),
        Edge::Thin => out.push_str(" stroke=\"#bbbbbb\" stroke-width=\"6\""),
        Edge::Half => out.push_str(" opacity=\"0.5\""),
    }
}

/// The textures of so many partitions, each with a name.
pub fn add_textures(out: &mut String, partitions: usize) -> Result<(), NoMemory> {
    for p in COLOURED..partitions {
        add_texture(out, p)?;
    }
    Ok(())
}

/// The texture of a partition that has no colour of its own.
fn add_texture(out: &mut String, p: usize) -> Result<(), NoMemory>
    requires { 9 ≤ p }
{
    let colour = COLOURS[1 + (p - 1) % 8];
    let mark = mark_of(p);
    write!(
        out,
        "<pattern id=\"p{p}\" width=\"60\" height=\"60\" patternUnits=\"userSpaceOnUse\">"
    )?;
    write!(
        out,
        "<rect width=\"60\" height=\"60\" fill=\"#{colour}\"/>{mark}</pattern>\n"
    )
}

/// The white mark of a texture: discs, then lines across, then lines down.
fn mark_of(p: usize) -> &'static str {
    if p <= 16 {
        "<circle cx=\"30\" cy=\"30\" r=\"13\" fill=\"#ffffff\"/>"
    } else if p <= 24 {
        "<path d=\"M0 30H60\" stroke=\"#ffffff\" stroke-width=\"18\"/>"
    } else {
        "<path d=\"M30 0V60\" stroke=\"#ffffff\" stroke-width=\"18\"/>"
    }
}
