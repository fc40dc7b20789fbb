//! The flag: which processor has to step again at once, after a pick.
ghost use Rattle.std.specs.Prelude.{◌≡◌, ◌<◌, ◌≤◌, if◌then◌else◌, length, IfSome, Some};
ghost use Rattle.aps_model.specs.Flag.{flag_for, with_flag};
ghost use Rattle.aps_model.specs.Budget.{part_at};
ghost use Rattle.aps_model.specs.Limits.{greatest_priority, most_cpus};
ghost use Rattle.aps_model.specs.Pick.{contenders, greatest, merit_among};
ghost use Rattle.aps_ready.specs.Gates.{AreGates, is_first};
ghost use Rattle.aps_core.specs.Classes.{AreClasses};
ghost use Rattle.aps_core.specs.Lowest.{CanLook, IsKey, IsLeastKey, IsLeastOf, IsNoLess, IsRank, IsFoundLowest, height_of, height_past_all, key_past_all, limit, lowest, ranked_at};
ghost use Rattle.aps_core.specs.Seats.{seats_of};

use super::Machine;
use crate::classes::Classes;
use crate::dues::Dues;
use crate::posts::Posts;
use aps_model::limits::MOST_CPUS;
use aps_model::{Contender, CpuId, CpuNow, Entry, Facts, Free, Nanos, PartFacts};
use aps_ready::{Gates, Ready};

/// Half of them.
const HALF: usize = 8;

/// Past the keys of all processors.
const PAST_ALL: u16 = 16000;

/// Of the other processors that aren't due yet the one of least rank, and how high that stands. Where there is none, the
/// processor is any, and the height is past all.
#[derive(Clone, Copy, PartialEq, Eq)]
struct Lowest {
    cpu: CpuId,
    height: u16,
}

impl Machine {
    /// The key by which the processor of this number is looked at, if it is another one and isn't due yet; else a key past
    /// all. The own one is due no later than now, and so is what stands where there is none.
    #[inline(always)]
    fn key_at(
        &self,
        entries: &[Entry],
        dues: &Dues,
        parts: &[PartFacts],
        posts: &Posts,
        classes: Classes,
        c: CpuId,
        now: Nanos,
        d: usize,
    ) -> u16
        requires look { CanLook self.now entries.now parts.now c now posts.now classes dues.now }
        requires d { d < most_cpus }
        ensures key { d < length self.now.cpus → IsKey (ranked_at self.now entries.now parts.now c now d) d result }
        ensures rank { d < length self.now.cpus → IsRank (ranked_at self.now entries.now parts.now c now d) }
        ensures past { length self.now.cpus ≤ d → key_past_all ≤ result }
    {
        let past = past_if(dues.at(d) <= now);
        posts.at(d).key + past
    }

    /// The least of this key and those of the processors from `from` to `to - 1`.
    #[inline(always)]
    fn least_among(
        &self,
        entries: &[Entry],
        dues: &Dues,
        parts: &[PartFacts],
        posts: &Posts,
        classes: Classes,
        c: CpuId,
        now: Nanos,
        least: u16,
        from: usize,
        to: usize,
    ) -> u16
        requires look { CanLook self.now entries.now parts.now c now posts.now classes dues.now }
        requires forward { from ≤ to }
        requires few { to ≤ most_cpus }
        requires so_far { IsLeastOf self.now entries.now parts.now c now from least }
        ensures { IsLeastOf self.now entries.now parts.now c now to result }
    {
        let mut least = least;
        for d in from..to {
            let key = self.key_at(entries, dues, parts, posts, classes, c, now, d);
            least = least.min(key);
        }
        least
    }

    /// The least key. The look goes over as many processors as there may be, or over half of them where these are all: a
    /// number that is known beforehand needs no branch.
    #[inline(always)]
    fn least_key(
        &self,
        entries: &[Entry],
        dues: &Dues,
        parts: &[PartFacts],
        posts: &Posts,
        classes: Classes,
        c: CpuId,
        now: Nanos,
    ) -> u16
        requires look { CanLook self.now entries.now parts.now c now posts.now classes dues.now }
        ensures least { IsLeastKey (lowest self.now entries.now parts.now c now self.now.shape.cpus) self.now.shape.cpus result }
        ensures few { self.now.shape.cpus ≤ most_cpus }
        ensures count { length self.now.cpus ≡ self.now.shape.cpus }
    {
        let near = self.least_among(
            entries, dues, parts, posts, classes, c, now, PAST_ALL, 0, HALF,
        );
        if self.cpus.len() <= HALF {
            return near;
        }
        self.least_among(
            entries, dues, parts, posts, classes, c, now, near, HALF, MOST_CPUS,
        )
    }

    /// Of the other processors that aren't due yet the one of least rank, and of equal ranks the last; where there is none, the
    /// height is past all.
    #[inline(always)]
    fn lowest(
        &self,
        entries: &[Entry],
        dues: &Dues,
        parts: &[PartFacts],
        posts: &Posts,
        classes: Classes,
        c: CpuId,
        now: Nanos,
    ) -> Lowest
        requires look { CanLook self.now entries.now parts.now c now posts.now classes dues.now }
        ensures same { IsFoundLowest (lowest self.now entries.now parts.now c now self.now.shape.cpus) result.cpu result.height }
        ensures within { result.height < height_past_all → result.cpu < length self.now.cpus }
    {
        let least = self.least_key(entries, dues, parts, posts, classes, c, now);
        Lowest {
            cpu: CpuId::at(usize::from(15 - least % 16)),
            height: least / 16,
        }
    }

    /// The processor that is flagged for the greatest candidate left after this pick. That candidate is no greater than the
    /// pick, so the queues are asked only where some processor may be flagged for the pick itself, and then for its class and
    /// priority alone.
    pub fn flag_after(
        &self,
        entries: &[Entry],
        dues: &Dues,
        parts: &[PartFacts],
        posts: &Posts,
        gates: Gates,
        classes: Classes,
        ready: &Ready,
        c: CpuId,
        now: Nanos,
        picked: &Option<Contender>,
    ) -> Option<CpuId>
        requires look { CanLook self.now entries.now parts.now c now posts.now classes dues.now }
        requires gates { AreGates parts.now gates }
        requires seats { ready.now ≡ seats_of self.now }
        requires picked { IsNoLess self.now.shape.free parts.now (contenders self.now) picked.now }
        ensures same { result
            ≡ flag_for self.now entries.now parts.now c now (greatest self.now.shape.free parts.now (contenders self.now)) }
        ensures within { IfSome result (λ d. d < length self.now.cpus) }
    {
        let Some(picked) = picked else {
            return None;
        };
        let lowest = self.lowest(entries, dues, parts, posts, classes, c, now);
        if limit_for(self.shape.free, &picked.facts, parts, classes) <= lowest.height {
            return None;
        }
        let Some(ahead) = ready.ahead_by(gates) else {
            return None;
        };
        if limit_of(self.shape.free, ahead.class == 1, ahead.priority) <= lowest.height {
            return None;
        }
        Some(lowest.cpu)
    }

    /// The processor, if there is one, is flagged at this moment.
    pub fn flag(&mut self, now: Nanos, other: &Option<CpuId>)
        requires { IfSome other.now (λ d. d < length self.old.cpus) }
        ensures { self.new ≡ with_flag self.old now other.now }
    {
        if let Some(d) = other {
            self.cpus[d.index()].flag = Some(now);
        }
    }
}

/// How much is added to a key where this holds, so that it is past all.
#[inline(always)]
fn past_if(holds: bool) -> u16
    ensures { result ≡ (if holds then key_past_all else 0) }
{
    // a product, since a branch here would be foretold wrongly often
    u16::from(holds) * PAST_ALL
}

/// Where threads of this class and priority stand: the class counts first.
#[inline(always)]
fn height_of(first: bool, priority: u8) -> u16
    ensures same { result ≡ height_of first priority }
    ensures few { priority ≤ greatest_priority }
{
    let base = if first { 257 } else { 1 };
    base + u16::from(priority)
}

/// What a processor has to stand below that is flagged for a candidate with these values.
#[inline(always)]
fn limit_for(free: Free, facts: &Facts, parts: &[PartFacts], classes: Classes) -> u16
    requires { AreClasses parts.now classes }
    ensures same { result ≡ limit free (is_first (part_at parts.now facts.now.partition) facts.now.critical) facts.now.priority }
    ensures few { facts.now.priority ≤ greatest_priority }
{
    let first = classes.is_first(facts.partition, facts.critical);
    limit_of(free, first, facts.priority)
}

/// The same for a candidate of this class and priority.
#[inline(always)]
fn limit_of(free: Free, first: bool, priority: u8) -> u16
    ensures same { result ≡ limit free first priority }
    ensures few { priority ≤ greatest_priority }
{
    match free {
        Free::Priority => height_of(first, priority),
        Free::Ratio if first => height_of(first, priority),
        Free::Ratio => 1,
    }
}
