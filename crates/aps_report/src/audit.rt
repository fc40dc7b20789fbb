//! The lines of the audit in a summary.
ghost use Rattle.std.specs.Prelude.{◌≡◌, ◌++◌, string_bytes, OnOk};
ghost use Rattle.aps_model.specs.Report.{worst_line, audit_lines};
ghost use Rattle.aps_model.specs.Journal.{line_of};
ghost use Rattle.std.specs.Prelude.{◌∷◌, [], codes, decimal, Some};

use aps_model::{Audit, NoMemory, Worst};
use std::fmt::Write;

/// The loaded tick, and the three worst amounts.
pub fn add_audit(out: &mut String, audit: &Audit) -> Result<(), NoMemory>
    ensures { OnOk result (string_bytes out.new ≡ string_bytes out.old ++ audit_lines audit.now) }
{
    add_loaded(out, audit.loaded_from)?;
    add_worst(out, "over", &audit.worst_over)?;
    add_worst(out, "short", &audit.worst_short)?;
    add_worst(out, "overcritical", &audit.critical_worst)
}

fn add_loaded(out: &mut String, loaded_from: u32) -> Result<(), NoMemory>
    ensures { OnOk result (string_bytes out.new ≡ string_bytes out.old ++ line_of (codes "loaded" ∷ decimal loaded_from ∷ [])) }
{
    write!(out, "loaded {loaded_from}\n")
}

fn add_worst(out: &mut String, word: &str, worst: &Option<Worst>) -> Result<(), NoMemory>
    ensures { OnOk result (string_bytes out.new ≡ string_bytes out.old ++ worst_line word.now worst.now) }
{
    match worst {
        None => write!(out, "{word} none\n"),
        Some(worst) => add_amount(out, word, worst),
    }
}

fn add_amount(out: &mut String, word: &str, worst: &Worst) -> Result<(), NoMemory>
    ensures { OnOk result (string_bytes out.new ≡ string_bytes out.old ++ worst_line word.now (Some worst.now)) }
{
    let amount = worst.amount;
    let partition = worst.partition.index();
    let window = worst.window;
    write!(
        out,
        "{word} {amount} partition {partition} window {window}\n"
    )
}
