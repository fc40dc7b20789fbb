//! The text of an answer to demands.
ghost use Rattle.std.specs.Prelude.{◌≡◌, ◌++◌, ◌∷◌, [], codes, string_bytes, IfOk, OnOk};
ghost use Rattle.std.specs.Fmt.{decimal};
ghost use Rattle.std.specs.List.{flat_map};
ghost use Rattle.aps_model.specs.Journal.{line_of};
ghost use Rattle.aps_admit.specs.Text.{admission_text, allowance_words, budget_line, budget_words, grants_text, needs_line, sum_line, budgets_granted};

use crate::admission::{Admission, Granted};
use aps_model::{Name, NoMemory};
use std::alloc::Global;
use std::fmt::Write;
use std::str::from_utf8;

/// The text of an answer: a line for each budget between `admit budgets 1` and their sum, or `admit needs` and the sum
/// (docs/FORMATS.md, "Admission"). `NoMemory` comes where memory runs out.
pub fn print(alloc: Global, answer: &Admission) -> Result<String, NoMemory>
    ensures { IfOk result (λ text. string_bytes text ≡ admission_text answer.now) }
{
    let mut out = String::new(alloc);
    match answer {
        Admission::Budgets(grants) => add_grants(&mut out, grants.as_slice())?,
        Admission::Needs { sum } => add_needs(&mut out, *sum)?,
    }
    Ok(out)
}

fn add_grants(out: &mut String, grants: &[Granted]) -> Result<(), NoMemory>
    ensures { OnOk result (string_bytes out.new ≡ string_bytes out.old ++ grants_text grants.now) }
{
    add_title(out)?;
    add_budgets(out, grants)?;
    add_sum(out, sum_of(grants))
}

fn add_title(out: &mut String) -> Result<(), NoMemory>
    ensures { OnOk result (string_bytes out.new ≡ string_bytes out.old ++ codes "admit budgets 1\n") }
{
    out.push_str("admit budgets 1\n")
}

fn add_budgets(out: &mut String, grants: &[Granted]) -> Result<(), NoMemory>
    ensures { OnOk result (string_bytes out.new ≡ string_bytes out.old ++ flat_map budget_line grants.now) }
{
    for granted in grants {
        add_budget(out, granted)?;
    }
    Ok(())
}

fn add_budget(out: &mut String, granted: &Granted) -> Result<(), NoMemory>
    ensures { OnOk result (string_bytes out.new ≡ string_bytes out.old ++ budget_line granted.now) }
{
    add_owner(out, granted)?;
    add_allowance(out, granted)
}

fn add_owner(out: &mut String, granted: &Granted) -> Result<(), NoMemory>
    ensures { OnOk result (string_bytes out.new ≡ string_bytes out.old ++ budget_words granted.now) }
{
    let name = text_of(&granted.name);
    let budget = granted.budget;
    write!(out, "budget {name} {budget}")
}

fn add_allowance(out: &mut String, granted: &Granted) -> Result<(), NoMemory>
    ensures { OnOk result (string_bytes out.new ≡ string_bytes out.old ++ allowance_words granted.now) }
{
    let allowance = granted.allowance;
    let below = granted.below;
    write!(out, " allowance {allowance} below {below}\n")
}

fn add_sum(out: &mut String, sum: u128) -> Result<(), NoMemory>
    ensures { OnOk result (string_bytes out.new ≡ string_bytes out.old ++ sum_line sum) }
{
    write!(out, "sum {sum}\n")
}

fn add_needs(out: &mut String, sum: u32) -> Result<(), NoMemory>
    ensures { OnOk result (string_bytes out.new ≡ string_bytes out.old ++ needs_line sum) }
{
    write!(out, "admit needs {sum}\n")
}

/// The sum of these budgets. Any list fits, however long.
fn sum_of(grants: &[Granted]) -> u128
    ensures { result ≡ budgets_granted grants.now }
{
    let mut sum = 0;
    for granted in grants {
        sum += u128::from(granted.budget);
    }
    sum
}

/// A name as text.
fn text_of(name: &Name) -> &str
    ensures { result.now ≡ name.now }
{
    match from_utf8(name.text()) {
        Ok(text) => text,
        Err(_) => unreachable!(),
    }
}
