//! Pictures of a history.
ghost use Rattle.std.specs.Prelude.{◌≤◌, length};
ghost use Rattle.aps_model.specs.Legal.{IsLegal};
ghost use Rattle.aps_model.specs.Limits.{most_entries};

use aps_model::{History, NoMemory, Order};
use std::alloc::Global;
use view_pictures::{Ticks, threads_text, timeline_text, usage_text};
use view_shares::all_overspent;
use view_words::Picture;

/// This picture of a history, which is legal in this order of turns, from tick to tick. `NoMemory` comes where memory runs out.
pub fn drawn(
    alloc: Global,
    history: &History,
    order: Order,
    picture: Picture,
    ticks: Ticks,
) -> Result<String, NoMemory>
    requires legal { IsLegal history.now.scenario order history.now.entries }
    requires few { length history.now.entries ≤ most_entries }
{
    match picture {
        Picture::Timeline => {
            let overspent = all_overspent(alloc, history, order)?;
            timeline_text(alloc, history, order, ticks, &overspent)
        }
        Picture::Threads => threads_text(alloc, history, order, ticks),
        Picture::Usage => usage_text(alloc, history, order, ticks),
    }
}
