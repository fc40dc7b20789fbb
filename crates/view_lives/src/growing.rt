//! The lives of all threads as they grow beside a core that makes its steps again.
ghost use Rattle.std.specs.Prelude.{◌≡◌, ℕ, ◌<◌, ◌≤◌, [], length, replicate, slice_index_or, true, IfOk, OnOk};
ghost use Rattle.aps_core.specs.Run.{state_of_run};
ghost use Rattle.view_lives.specs.Doing as spec;
ghost use Rattle.view_lives.specs.Growing.{LifeGoesOnWith, keeps_on, nothing_aside, told_of};
ghost use Rattle.view_lives.specs.Life.{AreLonger};
ghost use Rattle.aps_model.specs.Limits.{most_threads};

use crate::doing::{Doing, does, doing_by};
use crate::life::{Life, Segment};
use aps_core::Core;
use aps_model::{Nanos, NoMemory, State, ThreadId};
use std::alloc::Global;
use std::marker::Model;

/// Since this moment (ns) a thread has been doing this, which its life doesn't tell yet.
#[derive(Clone, Copy, PartialEq, Eq)]
pub struct Aside {
    pub from: Nanos,
    pub doing: Doing,
}

/// The lives of all threads up to a moment, by their numbers. What each thread has been doing of late stands aside, so a
/// life is touched only where its thread does something else; contracts see the lives with it.
#[derive(Drop)]
pub struct GrowingLives {
    lives: Vec<Life>,
    aside: Vec<Aside>,
    until: Nanos,
}

impl Model for GrowingLives {
    ghost use Rattle.std.specs.Prelude.{◌≡◌, List, length};
    ghost use Rattle.view_lives.specs.declared.life.Segment.{Segment as Plain};

    ghost Value = { List (List Plain) };

    ghost use Rattle.view_lives.specs.Growing.{all_told};

    ghost view = { λ g. all_told g.until g.lives.items g.aside.items };

    ghost invariant = { λ g. length g.aside.items ≡ length g.lives.items };
}

impl GrowingLives {
    /// So many lives that have not begun. `NoMemory` comes where memory runs out.
    pub fn unborn(alloc: Global, count: usize) -> Result<GrowingLives, NoMemory>
        ensures { IfOk result (λ lives. lives ≡ replicate count []) }
    {
        let lives = unborn(alloc, count)?;
        let aside = nothing_aside(alloc, count)?;
        Ok(GrowingLives {
            lives,
            aside,
            until: 0,
        })
    }

    /// Each life goes on with what its thread does after the entries of the core, from one moment (ns) to another. Where no
    /// time passes between them nothing changes, whatever the threads do. `NoMemory` comes where memory runs out.
    pub fn lengthen(&mut self, core: &Core, from: Nanos, to: Nanos) -> Result<(), NoMemory>
        requires { length self.old ≤ most_threads }
        ensures { OnOk result (AreLonger (state_of_run core.now) from to self.old self.new) }
    {
        if from >= to {
            return Ok(());
        }
        pass(&mut self.lives, &mut self.aside, core, self.until, from)?;
        self.until = to;
        Ok(())
    }

    /// The lives. `NoMemory` comes where memory runs out.
    pub fn into_lives(self) -> Result<Vec<Life>, NoMemory>
        ensures { IfOk result (λ lives. lives.items ≡ self) }
    {
        let mut lives = self.lives;
        close(&mut lives, &self.aside, self.until)?;
        Ok(lives)
    }
}

/// So many lives that have not begun.
fn unborn(alloc: Global, count: usize) -> Result<Vec<Life>, NoMemory>
    ensures { IfOk result (λ lives. lives.items ≡ replicate count []) }
{
    let mut lives = Vec::with_capacity(alloc, count)?;
    for _ in 0..count {
        lives.push(Life::new(alloc))?;
    }
    Ok(lives)
}

/// For so many lives, that nothing stands aside.
fn nothing_aside(alloc: Global, count: usize) -> Result<Vec<Aside>, NoMemory>
    ensures { IfOk result (λ aside. aside.items ≡ replicate count nothing_aside) }
{
    let mut aside = Vec::with_capacity(alloc, count)?;
    for _ in 0..count {
        aside.push(Aside {
            from: 0,
            doing: Doing::Gone,
        })?;
    }
    Ok(aside)
}

/// Each life, told up to one moment with what stands aside, goes on from another with what its thread does after the entries
/// of the core. A thread that goes on with the same is only looked at.
fn pass(
    lives: &mut Vec<Life>,
    aside: &mut Vec<Aside>,
    core: &Core,
    until: Nanos,
    from: Nanos,
) -> Result<(), NoMemory>
    requires few { length lives.old.items ≤ most_threads }
    requires both { length aside.old.items ≡ length lives.old.items }
    ensures lives { length lives.new.items ≡ length lives.old.items }
    ensures aside { length aside.new.items ≡ length aside.old.items }
    ensures passed { OnOk result ((x : ℕ) → x < length lives.old.items
        → LifeGoesOnWith until from (spec.doing_of (state_of_run core.now) x) (slice_index_or lives.old.items x [])
        (slice_index_or aside.old.items x nothing_aside)
        (slice_index_or lives.new.items x []) (slice_index_or aside.new.items x nothing_aside)) }
{
    let mut x = next_other(aside, core, 0, until, from);
    while x < lives.len() {
        let thread = core.thread(ThreadId::at(x));
        let doing = doing_by(core, &thread.state);
        turn(&mut lives[x], &mut aside[x], doing, until, from)?;
        x = next_other(aside, core, x + 1, until, from);
    }
    Ok(())
}

/// The first thread from this one on that doesn't go on with what stands aside, or the number of threads where each does.
fn next_other(aside: &Vec<Aside>, core: &Core, start: usize, until: Nanos, from: Nanos) -> usize
    requires few { length aside.now.items ≤ most_threads }
    requires start { start ≤ length aside.now.items }
    ensures later { start ≤ result }
    ensures inside { result ≤ length aside.now.items }
    ensures kept { (x : ℕ) → start ≤ x → x < result
        → keeps_on until from (slice_index_or aside.now.items x nothing_aside) (spec.doing_of (state_of_run core.now) x) ≡ true }
{
    for x in start..aside.len() {
        let thread = core.thread(ThreadId::at(x));
        if !keeps_on(&aside[x], core, &thread.state, until, from) {
            return x;
        }
    }
    aside.len()
}

/// A life, told up to one moment with what stands aside, goes on from another with this.
fn turn(
    life: &mut Life,
    aside: &mut Aside,
    doing: Doing,
    until: Nanos,
    from: Nanos,
) -> Result<(), NoMemory>
    ensures { OnOk result (LifeGoesOnWith until from doing life.old aside.old life.new aside.new) }
{
    life.add(Segment {
        from: aside.from,
        to: until,
        doing: aside.doing,
    })?;
    *aside = Aside { from, doing };
    Ok(())
}

/// Whether a thread that is in this state goes on from a moment with what stands aside up to another.
fn keeps_on(aside: &Aside, core: &Core, state: &State, until: Nanos, from: Nanos) -> bool
    ensures { result ≡ keeps_on until from aside.now (spec.doing_by (state_of_run core.now) state.now) }
{
    until == from && aside.from <= from && does(core, state, &aside.doing)
}

/// Each life with what stands aside, up to this moment.
fn close(lives: &mut Vec<Life>, aside: &Vec<Aside>, until: Nanos) -> Result<(), NoMemory>
    requires { length aside.now.items ≡ length lives.old.items }
    ensures count { length lives.new.items ≡ length lives.old.items }
    ensures closed { OnOk result ((x : ℕ) → x < length lives.old.items
        → slice_index_or lives.new.items x [] ≡ told_of until lives.old.items aside.now.items x) }
{
    for x in 0..lives.len() {
        let Aside { from, doing } = aside[x];
        lives[x].add(Segment {
            from,
            to: until,
            doing,
        })?;
    }
    Ok(())
}
