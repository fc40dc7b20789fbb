//! What each processor runs is kept from step to step, for the look of the flag.
ghost use Rattle.std.specs.Prelude.{◌≡◌, true, false};
ghost use Rattle.aps_core.specs.Posts.{AreOthersPosts, ArePosts, facts_now};
ghost use Rattle.aps_core.specs.Touched.{is_alone};

use super::Machine;
use super::sync::is_alone;
use crate::posts::Posts;
use aps_model::{CpuId, Done, Facts, Pick};

impl Machine {
    /// The values of the thread that a processor runs, if it runs one.
    fn facts_now(&self, running: &Option<Pick>) -> Option<Facts>
        ensures { result ≡ facts_now self.now running.now }
    {
        match running {
            None => None,
            Some(pick) => Some(self.facts_of(pick.thread)),
        }
    }

    /// What each processor runs, at the start.
    pub fn start_posts(&self) -> Posts
        ensures { ArePosts self.now result }
    {
        let mut posts = Posts::new();
        self.post_all(&mut posts);
        posts
    }

    /// What each processor runs is kept as it stands, whatever was.
    #[inline(never)]
    pub fn post_all(&self, posts: &mut Posts)
        ensures { ArePosts self.now posts.new }
    {
        for d in 0..self.cpus.len() {
            let facts = self.facts_now(&self.cpus[d].running);
            posts.set(CpuId::at(d), facts);
        }
    }

    /// What each other processor runs is kept as it stands. It was so before, unless a command was done, or an operation that
    /// may change what threads inherit.
    #[inline(always)]
    pub fn post_others(&self, posts: &mut Posts, cpu: CpuId, commanded: bool, done: &Done)
        requires { commanded ≡ false → is_alone done.now ≡ true → AreOthersPosts self.now cpu posts.old }
        ensures { AreOthersPosts self.now cpu posts.new }
    {
        if commanded || !is_alone(done) {
            self.post_all(posts);
        }
    }
}
