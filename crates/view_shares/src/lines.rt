//! The lines that tell of the windows and of one partition.
ghost use Rattle.std.specs.Prelude.{◌≡◌, ◌++◌, string_bytes, OnOk};
ghost use Rattle.view_shares.specs.Text as spec;

use crate::share::{Amount, Counts, Share, Shortfall, Used};
use crate::spent::Spent;
use aps_model::{Name, Nanos, NoMemory};
use std::fmt::Write;
use view_texts::text_of;

/// How many windows there are, and the time of all processors in a tick.
pub fn add_head(out: &mut String, counts: &Counts, turn: Nanos) -> Result<(), NoMemory>
    ensures { OnOk result (string_bytes out.new ≡ string_bytes out.old ++ spec.head_lines counts.now turn) }
{
    let full = counts.full;
    let unchanged = counts.unchanged;
    let steady = counts.steady;
    write!(
        out,
        "aps shares 1\nwindows {full} unchanged {unchanged} steady {steady} tick_of_all {turn}\n"
    )
}

/// Partition `p` with this name.
pub fn add_partition(
    out: &mut String,
    p: usize,
    name: &Name,
    share: &Share,
    spent: &Option<Spent>,
) -> Result<(), NoMemory>
    ensures { OnOk result (string_bytes out.new ≡ string_bytes out.old ++ spec.partition_lines p name.now share.now spent.now) }
{
    add_title(out, p, name)?;
    add_full(out, share)?;
    add_asked(out, share)?;
    add_spent(out, spent)
}

fn add_title(out: &mut String, p: usize, name: &Name) -> Result<(), NoMemory>
    ensures { OnOk result (string_bytes out.new ≡ string_bytes out.old ++ spec.title_line p name.now) }
{
    let name = text_of(name);
    write!(out, "partition {p} {name}\n")
}

/// What is told of full and of unchanged windows.
fn add_full(out: &mut String, share: &Share) -> Result<(), NoMemory>
    ensures { OnOk result (string_bytes out.new ≡ string_bytes out.old ++ spec.full_lines share.now) }
{
    out.push_str("most ")?;
    add_used(out, &share.most)?;
    out.push_str("free ")?;
    add_amount(out, &share.free)?;
    out.push_str("critical ")?;
    add_amount(out, &share.critical)?;
    out.push_str("beyond ")?;
    add_amount(out, &share.beyond)
}

/// What is told of windows in which the partition always had work, and of those with a change.
fn add_asked(out: &mut String, share: &Share) -> Result<(), NoMemory>
    ensures { OnOk result (string_bytes out.new ≡ string_bytes out.old ++ spec.asked_lines share.now) }
{
    add_demand(out, share.demand, share.had)?;
    out.push_str("least ")?;
    add_used(out, &share.least)?;
    out.push_str("changed ")?;
    add_used(out, &share.changed)?;
    out.push_str("short ")?;
    add_shortfall(out, &share.short)
}

fn add_demand(out: &mut String, demand: u64, had: u64) -> Result<(), NoMemory>
    ensures { OnOk result (string_bytes out.new ≡ string_bytes out.old ++ spec.demand_line demand had) }
{
    write!(out, "demand {demand} had {had}\n")
}

/// What a partition used in a window, and the end of the line.
fn add_used(out: &mut String, used: &Option<Used>) -> Result<(), NoMemory>
    ensures { OnOk result (string_bytes out.new ≡ string_bytes out.old ++ spec.used_text used.now) }
{
    match used {
        None => out.push_str("none\n"),
        Some(
            Used {
                used,
                allowance,
                window,
            },
        ) => write!(out, "{used} allowance {allowance} window {window}\n"),
    }
}

/// A time in a window, and the end of the line.
fn add_amount(out: &mut String, amount: &Option<Amount>) -> Result<(), NoMemory>
    ensures { OnOk result (string_bytes out.new ≡ string_bytes out.old ++ spec.amount_text amount.now) }
{
    match amount {
        None => out.push_str("none\n"),
        Some(Amount { ns, window }) => write!(out, "{ns} window {window}\n"),
    }
}

/// By how much a partition fell short, and the end of the line.
fn add_shortfall(out: &mut String, shortfall: &Option<Shortfall>) -> Result<(), NoMemory>
    ensures { OnOk result (string_bytes out.new ≡ string_bytes out.old ++ spec.shortfall_text shortfall.now) }
{
    match shortfall {
        None => out.push_str("none\n"),
        Some(Shortfall { ns, others, window }) => {
            write!(out, "{ns} others {others} window {window}\n")
        }
    }
}

/// How often a partition overspent, and by how much.
fn add_spent(out: &mut String, spent: &Option<Spent>) -> Result<(), NoMemory>
    ensures { OnOk result (string_bytes out.new ≡ string_bytes out.old ++ spec.spent_line spent.now) }
{
    out.push_str("overspent ")?;
    match spent {
        None => out.push_str("0\n"),
        Some(
            Spent {
                count,
                first,
                worst,
                at,
            },
        ) => write!(out, "{count} first {first} worst {worst} at {at}\n"),
    }
}
