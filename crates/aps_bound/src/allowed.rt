//! What each partition's budget allows in a window.
ghost use Rattle.std.specs.Prelude.{◌≡◌, ◌*◌, ◌/◌, ◌<◌, ◌≤◌, length};
ghost use Rattle.aps_model.specs.Audit.{allowance};
ghost use Rattle.aps_model.specs.Limits.{most_partitions, thousandths};
ghost use Rattle.aps_model.specs.Partition.{row_or_none};
ghost use Rattle.aps_model.specs.Shape.{IsShape};
ghost use Rattle.aps_bound.specs.Allowed.{AreAllowed};

use aps_model::limits::MOST_PARTITIONS;
use aps_model::{History, Nanos, Shape};

/// What each partition's budget allows in a window, in ns, in the place of its number: they are found once, since each
/// costs a division, and looked at in every window.
pub type Allowed = [Nanos; MOST_PARTITIONS];

/// What each partition's budget allows, by the rows and the shape that stand last.
pub fn allowed_of(history: &History) -> Allowed
    ensures { AreAllowed history.now result }
{
    let shape = history.shape();
    let rows = history.rows();
    let mut allowed = [0; MOST_PARTITIONS];
    for p in 0..rows.len() {
        allowed[p] = allowance(shape, rows[p].budget);
    }
    allowed
}

/// What the budget of one partition allows.
pub fn allowed_at(allowed: &Allowed, _history: &History, p: usize) -> Nanos
    requires p { p < length _history.now.rows }
    requires few { length _history.now.rows ≤ most_partitions }
    requires allowed { AreAllowed _history.now allowed.now }
    ensures { result ≡ allowance _history.now.shape (row_or_none _history.now.rows p).budget }
{
    allowed[p]
}

/// The time that a budget allows in a window.
fn allowance(shape: &Shape, budget: u16) -> Nanos
    requires shape { IsShape shape.now }
    requires budget { budget ≤ thousandths }
    ensures { result ≡ allowance shape.now budget }
{
    u64::from(budget) * shape.whole() / u64::from(shape.parts)
}
