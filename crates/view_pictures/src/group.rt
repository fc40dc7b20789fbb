//! Samples in groups, each of which is drawn as one point.
ghost use Rattle.std.specs.Prelude.{◌≡◌, ℕ, ◌+◌, ◌*◌, ◌<◌, ◌≤◌, ◌&&◌, false, nat_lt, length, IfOk, slice_index, slice_index_or};
ghost use Rattle.aps_model.specs.Legal.{IsLegal};
ghost use Rattle.aps_model.specs.Loaded.{finished_ticks};
ghost use Rattle.view_replay.specs.Retraced.{scenario_of_run};
ghost use Rattle.view_pictures.specs.Group.{IsEmptyGroup, is_nearer, joined_points, nearer, no_point, point_of, unread_point};
ghost use Rattle.view_pictures.specs.Scale.{depth_of, top_of_scale};
ghost use Rattle.view_pictures.specs.Survey.{no_found, whole_of};
ghost use Rattle.view_samples.specs.Pass.{IsAtTickBegin};
ghost use Rattle.aps_model.specs.Limits.{last_tick, most_entries, most_partitions};

use crate::scale::{Sizes, depth_of, top_of};
use crate::survey::{Range, Survey, bound_of};
use aps_model::limits::MOST_PARTITIONS;
use aps_model::{History, Nanos, NoMemory, Order};
use std::alloc::Global;
use view_samples::{Sample, Samples};

/// How many points a line has at most.
const POINTS: u64 = 1000;

/// Of one partition in a group of samples: of the sample in which its usage comes nearest to its bound, what it used and what it
/// uses at most (ns), and how far below the top of its panel lie what it used, what of that wasn't critical, what it was allowed,
/// and the bound. Of all samples it has how far below the top the least usage lies, and whether some pick had no candidate.
#[derive(Clone, Copy)]
pub struct Point {
    used: Nanos,
    most: Nanos,
    pub high: u16,
    pub low: u16,
    pub plain: u16,
    pub allowance: u16,
    pub bound: u16,
    pub lacking: bool,
}

/// A group: its samples by their places among those that are shown, from one to before another, whether all are unchanged, and
/// what is drawn of each partition.
#[derive(Clone, Copy)]
pub struct Group {
    pub from: u64,
    pub end: u64,
    pub unchanged: bool,
    pub points: [Point; MOST_PARTITIONS],
}

/// All groups, how many samples each has but the last, and how far below the top each partition's line begins.
#[derive(Drop)]
pub struct Groups {
    pub size: u64,
    pub begins: [u16; MOST_PARTITIONS],
    pub groups: Vec<Group>,
}

/// The groups of these samples, of a history that is legal in this order of turns. `NoMemory` comes where memory runs out.
pub fn groups_of(
    alloc: Global,
    history: &History,
    order: Order,
    sizes: Sizes,
    range: Range,
    survey: &Survey,
) -> Result<Groups, NoMemory>
    requires legal { IsLegal history.now.scenario order history.now.entries }
    requires few { length history.now.entries ≤ most_entries }
    requires finished { range.end ≤ finished_ticks history.now.scenario.shape history.now.entries }
{
    let mut groups = Groups {
        size: range.count().div_ceil(POINTS),
        begins: [900; MOST_PARTITIONS],
        groups: Vec::new(alloc),
    };
    let tops = tops_of(survey);
    let mut samples = Samples::begin(alloc, history, order)?;
    groups.pass(history, &mut samples, sizes, range, &tops)?;
    Ok(groups)
}

/// What the top of each partition's panel stands for.
fn tops_of(survey: &Survey) -> [u64; 32]
    ensures { (p : ℕ) → p < most_partitions → slice_index_or result p 0 ≡ top_of_scale (slice_index_or survey.now.found p no_found).scale }
{
    let mut tops = [0; MOST_PARTITIONS];
    for p in 0..MOST_PARTITIONS {
        tops[p] = top_of(survey.found[p].scale);
    }
    tops
}

impl Groups {
    /// Adds the samples that are shown, by a pass that begins.
    fn pass(
        &mut self,
        history: &History,
        samples: &mut Samples,
        sizes: Sizes,
        range: Range,
        tops: &[u64; 32],
    ) -> Result<(), NoMemory>
        requires at { IsAtTickBegin history.now.entries samples.old }
        requires of { scenario_of_run samples.old.cursor.core ≡ history.now.scenario }
        requires first { samples.old.tick ≡ 0 }
        requires finished { range.end ≤ finished_ticks history.now.scenario.shape history.now.entries }
    {
        for j in 0..range.end {
            let rows = samples.cursor.core.history().rows().len();
            let sample = samples.next(history);
            if range.from <= j {
                let lacking = lacking(samples, rows, j);
                self.add(&sample, sizes, j - range.from, tops, &lacking)?;
            }
        }
        Ok(())
    }

    /// Adds the sample at this place among those that are shown.
    fn add(
        &mut self,
        sample: &Sample,
        sizes: Sizes,
        place: u64,
        tops: &[u64; 32],
        lacking: &[bool; 32],
    ) -> Result<(), NoMemory>
        requires { place ≤ last_tick }
    {
        if place == 0 && sample.tick > 0 {
            self.begins = begins_at(sample, sizes, tops);
        }
        if self.begins_group(place) {
            self.groups.push(empty_group(place))?;
        }
        if let Some(group) = self.groups.last_mut() {
            group.add(sample, sizes, tops, lacking);
            group.end = place + 1;
        }
        Ok(())
    }

    fn begins_group(&self, place: u64) -> bool {
        self.size == 0 || place % self.size == 0
    }
}

/// How far below the top each partition's line begins, where it doesn't begin at 0.
fn begins_at(sample: &Sample, sizes: Sizes, tops: &[u64; 32]) -> [u16; 32]
    ensures { (p : ℕ) → p < most_partitions → slice_index_or result p 0
        ≡ depth_of (slice_index sample.now.usage.used p) (whole_of sizes sample.now) (slice_index_or tops.now p 0) }
{
    let whole = sizes.whole(sample.window);
    let mut begins = [0; MOST_PARTITIONS];
    for p in 0..MOST_PARTITIONS {
        begins[p] = depth_of(sample.usage.used[p], whole, tops[p]);
    }
    begins
}

/// The partitions that had no candidate at some pick of tick `j`, which the pass has just left, where so many exist in it.
fn lacking(samples: &Samples, rows: usize, j: u64) -> [bool; 32]
    ensures { (p : ℕ) → p < most_partitions
        → slice_index_or result p false ≡ (nat_lt p rows && nat_lt j (slice_index samples.now.lasts.lacked p)) }
{
    let mut all = [false; MOST_PARTITIONS];
    for p in 0..MOST_PARTITIONS {
        all[p] = p < rows && samples.lasts.lacked[p] > j;
    }
    all
}

/// A group without samples.
fn empty_group(place: u64) -> Group
    ensures { IsEmptyGroup place result }
{
    Group {
        from: place,
        end: place,
        unchanged: true,
        points: [no_point(); MOST_PARTITIONS],
    }
}

/// The point of no sample.
fn no_point() -> Point
    ensures { result ≡ no_point }
{
    Point {
        used: 0,
        most: u64::MAX,
        high: 900,
        low: 0,
        plain: 900,
        allowance: 900,
        bound: 0,
        lacking: false,
    }
}

impl Group {
    /// Adds a sample.
    fn add(&mut self, sample: &Sample, sizes: Sizes, tops: &[u64; 32], lacking: &[bool; 32])
        ensures from { self.new.from ≡ self.old.from }
        ensures end { self.new.end ≡ self.old.end }
        ensures unchanged { self.new.unchanged ≡ (self.old.unchanged && sample.now.unchanged) }
        ensures points { (p : ℕ) → p < most_partitions → slice_index_or self.new.points p unread_point
            ≡ joined_points (slice_index_or self.old.points p unread_point)
            (point_of sizes p (slice_index_or tops.now p 0) (slice_index_or lacking.now p false) sample.now) }
    {
        self.points = points_with(&self.points, sample, sizes, tops, lacking);
        if !sample.unchanged {
            self.unchanged = false;
        }
    }
}

/// The point of each partition with one sample more.
fn points_with(
    points: &[Point; 32],
    sample: &Sample,
    sizes: Sizes,
    tops: &[u64; 32],
    lacking: &[bool; 32],
) -> [Point; 32]
    ensures { (p : ℕ) → p < most_partitions → slice_index_or result p unread_point
        ≡ joined_points (slice_index_or points.now p unread_point)
        (point_of sizes p (slice_index_or tops.now p 0) (slice_index_or lacking.now p false) sample.now) }
{
    let mut all = [no_point(); MOST_PARTITIONS];
    for p in 0..MOST_PARTITIONS {
        let next = point_of(sample, sizes, p, tops[p], lacking[p]);
        all[p] = joined(&points[p], &next);
    }
    all
}

/// The point of one sample.
fn point_of(sample: &Sample, sizes: Sizes, p: usize, top: u64, lacking: bool) -> Point
    requires { p < most_partitions }
    ensures { result ≡ point_of sizes p top lacking sample.now }
{
    let whole = sizes.whole(sample.window);
    let used = sample.usage.used[p];
    let most = bound_of(sample, sizes, p);
    let depth = depth_of(used, whole, top);
    Point {
        used,
        most,
        high: depth,
        low: depth,
        plain: depth_of(used.saturating_sub(sample.usage.critical[p]), whole, top),
        allowance: depth_of(sample.allowance[p], whole, top),
        bound: depth_of(most, whole, top),
        lacking,
    }
}

/// The point of a group with one sample more.
fn joined(point: &Point, next: &Point) -> Point
    ensures { result ≡ joined_points point.now next.now }
{
    let shown = nearer(point, next);
    Point {
        low: point.low.max(next.low),
        lacking: point.lacking || next.lacking,
        ..shown
    }
}

/// The one of two points that is shown: the second where it is nearer.
fn nearer(point: &Point, next: &Point) -> Point
    ensures { result ≡ nearer point.now next.now }
{
    if is_nearer(next, point) {
        *next
    } else {
        *point
    }
}

/// Whether the usage of one is nearer to its bound, or further beyond it, than that of the other; where they are equally near,
/// whether the one used more.
fn is_nearer(a: &Point, b: &Point) -> bool
    ensures { result ≡ is_nearer a.now b.now }
{
    let further = u128::from(b.used) + u128::from(a.most);
    let near = u128::from(a.used) + u128::from(b.most);
    further < near || further == near && b.used < a.used
}
