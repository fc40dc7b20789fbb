//! The words that stand for policies and for kinds of commands, and names as text.
ghost use Rattle.std.specs.Prelude.{◌≡◌};
ghost use Rattle.aps_scenario.specs.PrintedWords as spec;

use aps_model::{Bankruptcy, Call, Free, Name, Policy};
use std::str::from_utf8;

/// A name as text.
pub fn text_of(name: &Name) -> &str
    ensures { result.now ≡ name.now }
{
    match from_utf8(name.text()) {
        Ok(text) => text,
        Err(_) => unreachable!(),
    }
}

pub fn free_word(free: Free) -> &'static str
    ensures { result.now ≡ spec.free_word free }
{
    match free {
        Free::Priority => "priority",
        Free::Ratio => "ratio",
    }
}

pub fn bankruptcy_word(bankruptcy: Bankruptcy) -> &'static str
    ensures { result.now ≡ spec.bankruptcy_word bankruptcy }
{
    match bankruptcy {
        Bankruptcy::Basic => "basic",
        Bankruptcy::Cancel => "cancel",
        Bankruptcy::Reboot => "reboot",
    }
}

pub fn policy_word(policy: Policy) -> &'static str
    ensures { result.now ≡ spec.policy_word policy }
{
    match policy {
        Policy::Fifo => "fifo",
        Policy::Rr => "rr",
    }
}

/// What a command's `do` says.
pub fn call_word(call: &Call) -> &'static str
    ensures { result.now ≡ spec.call_word call.now }
{
    match call {
        Call::Create { .. } => "create",
        Call::Modify { .. } => "modify",
        Call::Lookup { .. } => "lookup",
        Call::QueryPartition { .. } => "query_partition",
        Call::QueryThread { .. } => "query_thread",
        Call::QueryParameters => "query_parameters",
        Call::SetParameters { .. } => "set_parameters",
        Call::Statistics { .. } => "statistics",
        Call::MarkCritical { .. } => "mark_critical",
        Call::ClearCritical { .. } => "clear_critical",
    }
}
