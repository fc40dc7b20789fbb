//! The options of each report, as clap reads them.
ghost use Rattle.std.specs.Prelude.{◌≡◌, codes, IfOk};
ghost use Rattle.clap.specs.Words.{app_of};
ghost use Rattle.aps_words.specs.Clap.{app_with};
ghost use Rattle.view_words.specs.Asked as spec;

use aps_words::options::command_with;
use clap::Command;
use std::alloc::{AllocError, Global};

/// The options of a report that has but the one that each has.
pub fn limit_options<'a>(alloc: Global) -> Result<Command<'a>, AllocError>
    ensures { IfOk result (λ c. app_of c ≡ app_with (codes "apsview") spec.limit_options) }
{
    command_with(alloc, "apsview", &["limit"])
}

/// The options of a report on ticks.
pub fn ticks_options<'a>(alloc: Global) -> Result<Command<'a>, AllocError>
    ensures { IfOk result (λ c. app_of c ≡ app_with (codes "apsview") spec.ticks_options) }
{
    command_with(alloc, "apsview", &["from", "to", "limit"])
}

/// The options of a report on a thread at a moment.
pub fn thread_options<'a>(alloc: Global) -> Result<Command<'a>, AllocError>
    ensures { IfOk result (λ c. app_of c ≡ app_with (codes "apsview") spec.thread_options) }
{
    command_with(alloc, "apsview", &["thread", "at", "limit"])
}
