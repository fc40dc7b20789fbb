//! What the panels say of all samples that are shown, found in one pass over them.
ghost use Rattle.std.specs.Prelude.{◌≡◌, ℕ, ◌+◌, ◌-◌, ◌*◌, ◌<◌, ◌≤◌, length, IfOk, OnOk, if◌then◌else◌, slice_index, slice_index_or, Some, None};
ghost use Rattle.aps_model.specs.Legal.{IsLegal};
ghost use Rattle.aps_model.specs.Loaded.{finished_ticks};
ghost use Rattle.view_replay.specs.Retraced.{scenario_of_run};
ghost use Rattle.view_pictures.specs.Survey.{IsSurvey, bound_of, found_with, highest_of, less, more, no_found, peak_of, thousandths_of, whole_of};
ghost use Rattle.view_pictures.specs.declared.scale.Sizes.{Sizes};
ghost use Rattle.view_samples.specs.Pass.{IsAtTickBegin};
ghost use Rattle.aps_model.specs.Limits.{last_tick, most_entries, most_partitions};

use crate::scale::{Sizes, scale_of};
use aps_model::limits::MOST_PARTITIONS;
use aps_model::{History, Nanos, NoMemory, Order, PartitionRow};
use std::alloc::Global;
use view_samples::{Sample, Samples};

/// The samples that are shown: of these ticks, from one to before another.
#[derive(Clone, Copy)]
pub struct Range {
    pub from: u64,
    pub end: u64,
    ghost some: { from < end },
    ghost few: { end ≤ last_tick },
}

impl Range {
    /// How many samples these are.
    pub fn count(&self) -> u64
        ensures same { result ≡ self.now.end - self.now.from }
        ensures some { 0 < result }
        ensures few { result ≤ last_tick }
    {
        self.end - self.from
    }
}

/// A sample in which a partition used so much (ns) of the whole, and how many parts of 1,000 that is.
#[derive(Clone, Copy)]
pub struct Peak {
    pub tick: u64,
    pub used: Nanos,
    pub whole: Nanos,
    share: u128,
}

/// Of one partition: its scale, whether it has critical time, the first of the unchanged samples in which it used the most, the
/// first of the full ones in which it used the least while it always had work, and the first of the full ones with a change in
/// which it used the most.
#[derive(Clone, Copy)]
pub struct Found {
    pub scale: usize,
    pub critical: bool,
    pub most: Option<Peak>,
    pub least: Option<Peak>,
    pub changed: Option<Peak>,
}

/// Of all samples that are shown: how many are unchanged, the last one that isn't full, what is found of each partition, and
/// the rows of the last tick.
#[derive(Drop)]
pub struct Survey {
    pub unchanged: u64,
    pub partial: Option<u64>,
    pub found: [Found; MOST_PARTITIONS],
    pub rows: Vec<PartitionRow>,
}

/// What these samples say, of a history that is legal in this order of turns. `NoMemory` comes where memory runs out.
pub fn survey_of(
    alloc: Global,
    history: &History,
    order: Order,
    sizes: Sizes,
    range: Range,
) -> Result<Survey, NoMemory>
    requires legal { IsLegal history.now.scenario order history.now.entries }
    requires few { length history.now.entries ≤ most_entries }
    requires finished { range.end ≤ finished_ticks history.now.scenario.shape history.now.entries }
    ensures { IfOk result (IsSurvey history.now.scenario history.now.entries sizes range.from (range.end - range.from)) }
{
    let mut survey = Survey::none(alloc);
    let mut samples = Samples::begin(alloc, history, order)?;
    survey.pass(history, &mut samples, sizes, range)?;
    Ok(survey)
}

impl Survey {
    /// Before the first sample.
    fn none(alloc: Global) -> Survey
        ensures unchanged { result.unchanged ≡ 0 }
        ensures partial { result.partial ≡ None }
        ensures found { (p : ℕ) → p < most_partitions → slice_index_or result.found p no_found ≡ no_found }
    {
        Survey {
            unchanged: 0,
            partial: None,
            found: [Found::nothing(); MOST_PARTITIONS],
            rows: Vec::new(alloc),
        }
    }

    /// Adds the samples that are shown, by a pass that begins.
    fn pass(
        &mut self,
        history: &History,
        samples: &mut Samples,
        sizes: Sizes,
        range: Range,
    ) -> Result<(), NoMemory>
        requires at { IsAtTickBegin history.now.entries samples.old }
        requires of { scenario_of_run samples.old.cursor.core ≡ history.now.scenario }
        requires first { samples.old.tick ≡ 0 }
        requires finished { range.end ≤ finished_ticks history.now.scenario.shape history.now.entries }
        requires none { IsSurvey history.now.scenario history.now.entries sizes range.from 0 self.old }
        ensures { OnOk result (IsSurvey history.now.scenario history.now.entries sizes range.from (range.end - range.from) self.new) }
    {
        'skip: for j in 0..range.from {
            samples.next(history);
        }
        'take: for j in range.from..range.end - 1 {
            let sample = samples.next(history);
            self.add(&sample, sizes);
        }
        self.keep_rows(samples)?;
        let sample = samples.next(history);
        self.add(&sample, sizes);
        Ok(())
    }

    /// Keeps the rows that stand now.
    fn keep_rows(&mut self, samples: &Samples) -> Result<(), NoMemory>
        ensures unchanged { self.new.unchanged ≡ self.old.unchanged }
        ensures partial { self.new.partial ≡ self.old.partial }
        ensures found { self.new.found ≡ self.old.found }
    {
        self.rows
            .extend_from_slice(samples.cursor.core.history().rows())
    }

    /// Adds a sample.
    fn add(&mut self, sample: &Sample, sizes: Sizes)
        requires { self.old.unchanged ≤ last_tick }
        ensures unchanged { self.new.unchanged
            ≡ (if sample.now.unchanged then self.old.unchanged + 1 else self.old.unchanged) }
        ensures partial { self.new.partial ≡ (if sample.now.full then self.old.partial else Some sample.now.tick) }
        ensures found { (p : ℕ) → p < most_partitions → slice_index_or self.new.found p no_found
            ≡ found_with sizes p (slice_index_or self.old.found p no_found) sample.now }
    {
        if sample.unchanged {
            self.unchanged += 1;
        }
        if !sample.full {
            self.partial = Some(sample.tick);
        }
        self.found = found_with(&self.found, sample, sizes);
    }
}

/// What is found of each partition with one sample more.
fn found_with(found: &[Found; 32], sample: &Sample, sizes: Sizes) -> [Found; 32]
    ensures { (p : ℕ) → p < most_partitions
        → slice_index_or result p no_found ≡ found_with sizes p (slice_index_or found.now p no_found) sample.now }
{
    let mut all = [Found::nothing(); MOST_PARTITIONS];
    for p in 0..MOST_PARTITIONS {
        all[p] = found[p].with(sample, sizes, p);
    }
    all
}

impl Found {
    /// Before the first sample.
    fn nothing() -> Found
        ensures { result ≡ no_found }
    {
        Found {
            scale: 0,
            critical: false,
            most: None,
            least: None,
            changed: None,
        }
    }

    /// What is found with one sample more, of the partition with this number.
    fn with(&self, sample: &Sample, sizes: Sizes, p: usize) -> Found
        requires { p < most_partitions }
        ensures { result ≡ found_with sizes p self.now sample.now }
    {
        let whole = sizes.whole(sample.window);
        let peak = peak_of(sample, whole, p);
        let highest = highest_of(sample, sizes, p);
        Found {
            scale: self.scale.max(scale_of(highest, whole)),
            critical: self.critical || sample.usage.critical[p] > 0,
            most: more(self.most, peak, sample.unchanged),
            least: less(self.least, peak, sample.demand[p]),
            changed: more(self.changed, peak, sample.is_changed()),
        }
    }
}

/// What the partition used in the sample, whose window has so much processor time.
fn peak_of(sample: &Sample, whole: Nanos, p: usize) -> Peak
    requires { p < most_partitions }
    ensures { (sizes : Sizes) → whole ≡ whole_of sizes sample.now → result ≡ peak_of sizes sample.now p }
{
    let used = sample.usage.used[p];
    Peak {
        tick: sample.tick,
        used,
        whole,
        share: share_of(used, whole),
    }
}

/// How many parts of 1,000 of the whole this is, rounded down.
fn share_of(used: Nanos, whole: Nanos) -> u128
    ensures { result ≡ thousandths_of used whole }
{
    if whole == 0 {
        return 0;
    }
    u128::from(used) * 1000 / u128::from(whole)
}

/// The greatest of what is drawn of a partition in a sample, in ns.
fn highest_of(sample: &Sample, sizes: Sizes, p: usize) -> Nanos
    requires { p < most_partitions }
    ensures { result ≡ highest_of sizes sample.now p }
{
    let drawn = sample.usage.used[p].max(sample.allowance[p]);
    if sample.unchanged {
        drawn.max(bound_of(sample, sizes, p))
    } else {
        drawn
    }
}

/// What a partition uses at most in a window without a change, in ns: what it is allowed, its critical time and its free time,
/// and a tick of each processor where it is allowed anything.
pub fn bound_of(sample: &Sample, sizes: Sizes, p: usize) -> Nanos
    requires { p < most_partitions }
    ensures { result ≡ bound_of sizes sample.now p }
{
    let allowance = sample.allowance[p];
    let slack = if allowance > 0 {
        sizes.tick_of_all()
    } else {
        0
    };
    // no sum comes near the greatest number
    allowance
        .saturating_add(sample.usage.critical[p])
        .saturating_add(sample.free[p])
        .saturating_add(slack)
}

/// The first of the greatest so far, where the peak counts.
fn more(most: Option<Peak>, peak: Peak, counts: bool) -> Option<Peak>
    ensures { result ≡ more most peak counts }
{
    match most {
        Some(first) if !counts || peak.share <= first.share => Some(first),
        _ => if counts { Some(peak) } else { None },
    }
}

/// The first of the least so far, where the peak counts.
fn less(least: Option<Peak>, peak: Peak, counts: bool) -> Option<Peak>
    ensures { result ≡ less least peak counts }
{
    match least {
        Some(first) if !counts || first.share <= peak.share => Some(first),
        _ => if counts { Some(peak) } else { None },
    }
}
