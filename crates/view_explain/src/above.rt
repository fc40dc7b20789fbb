//! Which threads and processors stand before a thread.
ghost use Rattle.std.specs.Prelude.{◌≡◌, ◌<◌, ◌≤◌, length, IfOk};
ghost use Rattle.view_explain.specs.Because as spec;
ghost use Rattle.aps_model.specs.Limits.{most_cpus, most_threads};

use crate::deciding::{Test, ahead};
use crate::scene::Scene;
use aps_model::{CpuId, Nanos, NoMemory, Pick, State, ThreadId};
use std::alloc::Global;

/// A candidate that is greater than another thread, and the first test by which it is.
#[derive(Clone, Copy, PartialEq, Eq)]
pub struct Above {
    pub thread: ThreadId,
    pub test: Test,
}

impl Scene {
    /// The candidates that are greater than the thread, by number.
    pub fn above(&self, alloc: Global, x: ThreadId) -> Result<Vec<Above>, NoMemory>
        ensures { IfOk result (λ above. above.items ≡ spec.above self.now x) }
    {
        let mut found = Vec::new(alloc);
        for y in 0..self.thread_count() {
            match self.above_at(x, ThreadId::at(y)) {
                Some(above) => found.push(above)?,
                None => {}
            }
        }
        Ok(found)
    }

    /// When the first processor steps that runs nothing greater than the thread (ns); none where each does.
    pub fn chance(&self, x: ThreadId) -> Option<Nanos>
        ensures { result ≡ spec.chance self.now x }
    {
        let mut first = None;
        for c in 0..self.cpu_count() {
            first = sooner(first, self.chance_on(x, CpuId::at(c)));
        }
        first
    }

    /// By which test what the processor runs is greater than the thread, if it is.
    pub fn ahead_on(&self, x: ThreadId, c: CpuId) -> Option<Test>
        ensures { result ≡ spec.ahead_on self.now x c }
    {
        self.ahead_of_pick(x, &self.cpu(c).running)
    }

    /// How many processors there are.
    pub fn cpu_count(&self) -> usize
        ensures same { result ≡ self.now.scenario.shape.cpus }
        ensures few { result ≤ most_cpus }
    {
        usize::from(self.scenario().shape().cpus)
    }

    /// How many threads there are.
    fn thread_count(&self) -> usize
        ensures same { result ≡ length self.now.scenario.threads }
        ensures few { result ≤ most_threads }
    {
        self.scenario().threads().len()
    }

    fn above_at(&self, x: ThreadId, y: ThreadId) -> Option<Above>
        ensures { result ≡ spec.above_at self.now x y }
    {
        if !self.is_rival(x, y) {
            return None;
        }
        match self.ahead(y, x) {
            Some(test) => Some(Above { thread: y, test }),
            None => None,
        }
    }

    /// Whether this is another thread, and a candidate.
    fn is_rival(&self, x: ThreadId, y: ThreadId) -> bool
        ensures { result ≡ spec.is_rival self.now x y }
    {
        y != x && matches!(self.thread(y).state, State::Ready) && self.is_open(y)
    }

    /// By which test thread `y` is greater than thread `x`, if it is.
    fn ahead(&self, y: ThreadId, x: ThreadId) -> Option<Test>
        ensures { result ≡ spec.ahead_in self.now y x }
    {
        ahead(&self.merit(y), &self.merit(x), self.shape().free)
    }

    fn ahead_of_pick(&self, x: ThreadId, pick: &Option<Pick>) -> Option<Test>
        ensures { result ≡ spec.ahead_of_pick self.now x pick.now }
    {
        match pick {
            Some(pick) => self.ahead(pick.thread, x),
            None => None,
        }
    }

    fn chance_on(&self, x: ThreadId, c: CpuId) -> Option<Nanos>
        requires { c < self.now.scenario.shape.cpus }
        ensures { result ≡ spec.chance_on self.now x c }
    {
        match self.ahead_on(x, c) {
            Some(_) => None,
            None => Some(self.due(c)),
        }
    }
}

/// The earlier of two moments, if there are any.
fn sooner(moment: Option<Nanos>, other: Option<Nanos>) -> Option<Nanos>
    ensures { result ≡ spec.sooner moment other }
{
    match (moment, other) {
        (Some(moment), Some(other)) => Some(moment.min(other)),
        (Some(moment), None) => Some(moment),
        (None, other) => other,
    }
}
