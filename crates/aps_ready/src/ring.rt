//! Links between the nodes of lists.
ghost use Rattle.std.specs.Prelude.{◌≡◌, ◌≢◌, ℕ, ◌<◌, ◌≤◌, ◌&&◌, nat_lt, length, slice_set};
ghost use Rattle.aps_ready.specs.Entrant.{entrant_at};
ghost use Rattle.aps_ready.specs.Lists.{head_of, link, list_of, node_count, AreRings, IsNode, IsPlace};
ghost use Rattle.aps_model.specs.Limits.{most_threads};
ghost use Rattle.aps_levels.specs.Levels.{level_count};
ghost use Rattle.aps_ready.specs.Group.{group_count};

use crate::entrant::Entrant;
use aps_model::limits::MOST_THREADS;

/// The first head of a list: below it are the threads.
pub const HEADS: usize = MOST_THREADS;

/// How many nodes there are: 1,024 threads, and a head for each of 256 levels and 64 groups.
pub const NODES: usize = 17408;

/// The head of the list of a level and a group.
#[inline(always)]
pub fn head_of(level: usize, group: usize) -> usize
    requires level { level < level_count }
    requires group { group < group_count }
    ensures { result ≡ head_of level group }
{
    HEADS + 64 * level + group
}

/// The node behind which somebody with this stamp goes in a list: the last one with a smaller stamp, or else the head. Mostly it
/// is the last one, or the head.
#[inline(always)]
pub fn place_for(row: &[Entrant], after: &[u16], before: &[u16], head: usize, stamp: u64) -> usize
    requires rings { AreRings row.now after.now before.now }
    requires above { most_threads ≤ head }
    requires below { head < node_count }
    requires stamp { (x : ℕ) → (entrant_at row.now x).group < group_count → (entrant_at row.now x).stamp ≢ stamp }
    ensures { IsPlace row.now after.now head stamp result }
{
    if is_later(row, after[head] as usize, stamp) {
        return head;
    }
    let mut place = before[head] as usize;
    while is_later(row, place, stamp) {
        place = before[place] as usize;
    }
    place
}

/// Whether a node is a thread with a greater stamp.
#[inline(always)]
fn is_later(row: &[Entrant], node: usize, stamp: u64) -> bool
    requires { node < most_threads → node < length row.now }
    ensures { result ≡ (nat_lt node most_threads && nat_lt stamp (entrant_at row.now node).stamp) }
{
    if node < HEADS {
        stamp < row[node].stamp
    } else {
        false
    }
}

/// A thread joins a list behind this node.
#[inline(always)]
pub fn link(after: &mut Vec<u16>, before: &mut Vec<u16>, place: usize, x: usize)
    requires after_size { length after.old.items ≡ node_count }
    requires before_size { length before.old.items ≡ node_count }
    requires place { place < node_count }
    requires x { x < most_threads }
    requires next { link after.old.items place < node_count }
    ensures after { after.new.items ≡ slice_set (slice_set after.old.items place x) x (link after.old.items place) }
    ensures before { before.new.items ≡ slice_set (slice_set before.old.items (link after.old.items place) x) x place }
{
    let next = after[place];
    after[place] = x as u16;
    before[next as usize] = x as u16;
    after[x] = next;
    before[x] = place as u16;
}

/// A thread goes from the list in which it stands.
#[inline(always)]
pub fn unlink(after: &mut Vec<u16>, before: &mut Vec<u16>, x: usize)
    requires after_size { length after.old.items ≡ node_count }
    requires before_size { length before.old.items ≡ node_count }
    requires x { x < most_threads }
    requires next { link after.old.items x < node_count }
    requires last { link before.old.items x < node_count }
    ensures after { after.new.items ≡ slice_set after.old.items (link before.old.items x) (link after.old.items x) }
    ensures before { before.new.items ≡ slice_set before.old.items (link after.old.items x) (link before.old.items x) }
{
    let next = after[x];
    let last = before[x];
    after[last as usize] = next;
    before[next as usize] = last;
}
