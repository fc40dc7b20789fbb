//! The threads that are explained: one, the server that it waits for, and so on.
ghost use Rattle.std.specs.Prelude.{◌≡◌, ◌<◌, All, IfOk, OnOk, length, nat_eq};
ghost use Rattle.std.specs.List.{list_any};
ghost use Rattle.view_explain.specs.Chain as spec;

use crate::scene::Scene;
use aps_model::limits::MOST_THREADS;
use aps_model::{NoMemory, ThreadId};
use std::alloc::Global;
use std::marker::Model;

/// The threads so far, and the next one, if there is one.
#[derive(Drop)]
struct Chain {
    told: Vec<ThreadId>,
    next: Option<ThreadId>,
}

impl Model for Chain {
    ghost use Rattle.view_explain.specs.Chain.{Chain as Plain};

    ghost Value = { Plain };

    ghost view = { λ c. record { told = c.told.items; next = c.next } };
}

impl Chain {
    /// Goes on by the next thread, if there is one and it isn't told already.
    fn go_on(&mut self, scene: &Scene) -> Result<(), NoMemory>
        requires { spec.HasKnownThreads scene.now self.old }
        ensures same { OnOk result (self.new ≡ spec.chain_gone_on scene.now self.old.told self.old.next) }
        ensures known { OnOk result (spec.HasKnownThreads scene.now self.new) }
    {
        let Some(x) = self.next else {
            return Ok(());
        };
        if has_told(self.told.as_slice(), x) {
            self.next = None;
            return Ok(());
        }
        self.told.push(x)?;
        let thread = scene.thread(x);
        self.next = scene.waits_for(&thread.state);
        Ok(())
    }

    fn into_told(self) -> Vec<ThreadId>
        ensures { result.items ≡ self.told }
    {
        self.told
    }
}

/// The thread, the server that it waits for, and so on, each once. `NoMemory` comes where memory runs out.
pub fn explained(alloc: Global, scene: &Scene, x: ThreadId) -> Result<Vec<ThreadId>, NoMemory>
    requires { x < length scene.now.scenario.threads }
    ensures same { IfOk result (λ told. told.items ≡ spec.threads_explained scene.now x) }
    ensures known { IfOk result (λ told. All (λ y. y < length scene.now.scenario.threads) told.items) }
{
    let mut chain = Chain {
        told: Vec::new(alloc),
        next: Some(x),
    };
    for _ in 0..MOST_THREADS {
        chain.go_on(scene)?;
    }
    Ok(chain.into_told())
}

fn has_told(told: &[ThreadId], x: ThreadId) -> bool
    ensures { result ≡ list_any (λ y. nat_eq y x) told.now }
{
    told.iter().any(|y| *y == x)
}
