//! What the entries tell that end at one moment.
ghost use Rattle.std.specs.Prelude.{◌≡◌, ℕ, ◌<◌, ◌||◌, length, slice_index_or, false};
ghost use Rattle.aps_model.specs.Budget.{no_part};
ghost use Rattle.aps_model.specs.Limits.{most_partitions};
ghost use Rattle.aps_core.specs.Run.{state_of_run};
ghost use Rattle.view_samples.specs.Picks.{bills, had_candidate};
ghost use Rattle.view_samples.specs.Sample.{of_each};
ghost use Rattle.view_value_changes.specs.Told as spec;

use aps_core::Core;
use aps_model::limits::MOST_PARTITIONS;
use aps_model::{CpuId, End, Entry, PartFacts, PartitionId, Pick};
use view_samples::Overspent;

/// Which partitions had a candidate at the last pick, and which of them an entry of this moment made bankrupt.
#[derive(Clone, Copy)]
pub struct Told {
    pub demand: [bool; MOST_PARTITIONS],
    pub overspent: [bool; MOST_PARTITIONS],
}

impl Told {
    /// None.
    pub fn none() -> Told
        ensures { result ≡ spec.nothing_told }
    {
        Told {
            demand: [false; MOST_PARTITIONS],
            overspent: [false; MOST_PARTITIONS],
        }
    }

    /// Notes the pick of the entry whose step the core made last, if that went on to a pick.
    pub fn note_pick(&mut self, core: &Core, e: &Entry)
        requires { 0 < length core.now.entries }
        ensures { self.new ≡ spec.pick_noted core.now e.now self.old }
    {
        if has_pick(core, e) {
            self.demand = demand(core, e.cpu);
        }
    }

    /// Notes that an entry of this moment made the partition bankrupt.
    pub fn note_overspent(&mut self, p: PartitionId)
        ensures { self.new ≡ spec.overspent_noted p self.old }
    {
        self.overspent[p.index()] = true;
    }

    /// Another moment: no entry of it made a partition bankrupt yet.
    pub fn begin_moment(&mut self)
        ensures { self.new ≡ spec.moment_begun self.old }
    {
        self.overspent = [false; MOST_PARTITIONS];
    }
}

/// Whether the entry's step went on to a pick, which the core made last: it is neither at the horizon nor did it end the run by
/// a reboot.
fn has_pick(core: &Core, e: &Entry) -> bool
    ensures { result ≡ spec.has_pick core.now e.now }
{
    let is_reboot = matches!(core.ended(), Some(End::Reboot(_)));
    e.to < core.history().shape().horizon() && !is_reboot
}

/// Which partitions had a candidate at the pick that the core made last, which was this processor's: the one that it billed, and
/// those that still have one.
fn demand(core: &Core, c: CpuId) -> [bool; 32]
    requires { 0 < length core.now.entries }
    ensures { result ≡ of_each (had_candidate (state_of_run core.now) core.now.entries c) }
{
    // proved from what each place of it has
    demand_by_place(core, c)
}

/// The same, place by place.
fn demand_by_place(core: &Core, c: CpuId) -> [bool; 32]
    requires { 0 < length core.now.entries }
    ensures places { length result ≡ most_partitions }
    ensures each { (p : ℕ) → p < most_partitions → slice_index_or result p false ≡ had_candidate (state_of_run core.now) core.now.entries c p }
{
    let count = core.history().rows().len();
    let mut parts = [no_part(); MOST_PARTITIONS];
    core.stand(&mut parts[..count]);
    let ready = core.candidates(&parts[..count]);
    with_billed(&core.cpu(c).running, &ready)
}

/// These partitions, and the one that the pick bills.
fn with_billed(pick: &Option<Pick>, ready: &[bool; 32]) -> [bool; 32]
    ensures places { length result ≡ most_partitions }
    ensures each { (p : ℕ) → p < most_partitions → slice_index_or result p false ≡ (bills pick.now p || slice_index_or ready.now p false) }
{
    let mut all = [false; MOST_PARTITIONS];
    for p in 0..MOST_PARTITIONS {
        all[p] = is_billed(pick, p) || ready[p];
    }
    all
}

/// Whether the pick bills this partition.
fn is_billed(pick: &Option<Pick>, p: usize) -> bool
    ensures { result ≡ bills pick.now p }
{
    match pick {
        Some(pick) => pick.partition.index() == p,
        None => false,
    }
}

/// What stands where no partition was read yet.
fn no_part() -> PartFacts
    ensures { result ≡ no_part }
{
    PartFacts {
        funded: false,
        standing: false,
        shut: true,
        used: 0,
        budget: 0,
    }
}
