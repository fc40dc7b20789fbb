//! What each processor runs, as far as its rank goes by it, and the key by which it is looked at, kept from step to step.
ghost use Rattle.std.specs.Prelude.{◌≡◌, ◌≢◌, ℕ, ◌+◌, ◌<◌, ◌≤◌, length, Option, None};
ghost use Rattle.aps_model.specs.Limits.{greatest_priority, most_cpus};
ghost use Rattle.aps_model.specs.declared.state.Facts.{Facts as FactsOf};
ghost use Rattle.aps_core.specs.Posts.{AreHigh, AreSmall, IsHigh, IsPost, IsPostOf, post_at};
ghost use Rattle.aps_levels.specs.Levels.{level_count};
ghost use Rattle.aps_ready.specs.Group.{group_count};

use crate::classes::{Classes, group_of};
use aps_model::limits::MOST_CPUS;
use aps_model::{CpuId, Facts};
use std::marker::Model;

/// How much higher a thread of class 1 stands than one of class 0 with its priority.
const CLASS: u16 = 256;

/// A processor's thread: its group, where it stands if that is of class 0, and how much higher if it is of class 1. An idle
/// processor stands at 0 in any case. Beside that its key by the classes at hand, which is the lesser the lower it stands, and
/// of equal ones the later it comes.
#[derive(Clone, Copy, PartialEq, Eq)]
pub struct Post {
    group: u16,
    base: u16,
    more: u16,
    pub key: u16,
}

impl Post {
    /// That of an idle processor.
    const IDLE: Post = Post {
        group: 0,
        base: 0,
        more: 0,
        key: 0,
    };

    /// That of the processor of this number, which runs a thread with these values.
    fn of(facts: &Facts, classes: Classes, d: usize) -> Post
        requires { d < most_cpus }
        ensures is { IsPostOf facts.now result }
        ensures high { IsHigh classes d result }
    {
        let post = Post {
            group: group_of(facts.partition, facts.critical) as u16,
            base: base_of(facts.priority),
            more: CLASS,
            key: 0,
        };
        post.by(classes, d)
    }

    /// The same, with its key by these classes, for the processor of this number.
    #[inline(always)]
    fn by(self, classes: Classes, d: usize) -> Post
        requires d { d < most_cpus }
        requires group { self.group < group_count }
        requires base { self.base ≤ level_count }
        requires more { self.more ≤ level_count }
        ensures high { IsHigh classes d result }
        ensures same { (o : Option FactsOf) → IsPost o self → IsPost o result }
    {
        // a product, since a branch here would be foretold wrongly often
        let first = u16::from(classes.first.has(usize::from(self.group)));
        let height = self.base + first * self.more;
        Post {
            key: height * 16 + (15 - d as u16),
            ..self
        }
    }
}

/// What each processor runs. Contracts see the row of that.
#[derive(Drop)]
pub struct Posts {
    row: [Post; MOST_CPUS],
    /// those by which all stand
    classes: Classes,
}

impl Model for Posts {
    ghost use Rattle.std.specs.Prelude.{List};
    ghost use Rattle.aps_core.specs.declared.posts.Post.{Post};

    ghost Value = { List Post };

    ghost view = { λ p. p.row };

    ghost use Rattle.std.specs.Prelude.{◌≡◌, length};
    ghost use Rattle.aps_core.specs.Posts.{AreHigh};
    ghost use Rattle.aps_model.specs.Limits.{most_cpus};

    ghost invariant = { λ p. (length p.row ≡ most_cpus) × AreHigh p.classes p.row };
}

impl Posts {
    /// Nobody runs.
    pub fn new() -> Self
        ensures { (d : ℕ) → d < most_cpus → IsPost None (post_at result d) }
    {
        let classes = Classes::none();
        Posts {
            row: stand([Post::IDLE; MOST_CPUS], classes),
            classes,
        }
    }

    /// What the processor of this number runs.
    #[inline(always)]
    pub fn at(&self, d: usize) -> Post
        requires { d < most_cpus }
        ensures { result ≡ post_at self.now d }
    {
        self.row[d]
    }

    /// The processor runs a thread with these values, or none.
    #[inline(always)]
    pub fn set(&mut self, d: CpuId, facts: Option<Facts>)
        ensures here { IsPost facts (post_at self.new d) }
        ensures others { (e : ℕ) → e ≢ d → post_at self.new e ≡ post_at self.old e }
    {
        self.row[d.index()] = match facts {
            None => Post::IDLE.by(self.classes, d.index()),
            Some(facts) => Post::of(&facts, self.classes, d.index()),
        };
    }

    /// All processors stand by these classes. Where they did before, there is nothing to do.
    #[inline(always)]
    pub fn go_by(&mut self, classes: Classes)
        ensures high { AreHigh classes self.new }
        ensures same { (d : ℕ) (o : Option FactsOf) → IsPost o (post_at self.old d) → IsPost o (post_at self.new d) }
    {
        if self.classes != classes {
            self.stand_anew(classes);
        }
    }

    /// The same, whatever they stood by.
    #[inline(never)]
    fn stand_anew(&mut self, classes: Classes)
        ensures high { AreHigh classes self.new }
        ensures same { (d : ℕ) (o : Option FactsOf) → IsPost o (post_at self.old d) → IsPost o (post_at self.new d) }
    {
        self.row = stand(self.row, classes);
        self.classes = classes;
    }
}

/// What each processor runs, with the keys by these classes.
#[inline(always)]
fn stand(posts: [Post; MOST_CPUS], classes: Classes) -> [Post; MOST_CPUS]
    requires { AreSmall posts }
    ensures count { length result ≡ most_cpus }
    ensures high { AreHigh classes result }
    ensures same { (d : ℕ) (o : Option FactsOf) → IsPost o (post_at posts d) → IsPost o (post_at result d) }
{
    let mut row = posts;
    for d in 0..MOST_CPUS {
        row[d] = row[d].by(classes, d);
    }
    row
}

/// Where a thread of class 0 and this priority stands.
#[inline(always)]
fn base_of(priority: u8) -> u16
    ensures same { result ≡ 1 + priority }
    ensures few { priority ≤ greatest_priority }
{
    1 + u16::from(priority)
}
