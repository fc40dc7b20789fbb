//! The values that threads inherit, as the machine keeps them.
ghost use Rattle.std.specs.Prelude.{◌≡◌};
ghost use Rattle.aps_inherit.specs.Order.{after_in, first_of};
ghost use Rattle.aps_inherit.specs.Serving.{AreChains, servers};
ghost use Rattle.aps_model.specs.Inherit.{facts_of};

use super::Machine;
use aps_model::{Facts, ThreadId};

impl Machine {
    /// The values that the thread is scheduled and billed by. Those of a server are its client's, and so on along the
    /// chain to a thread that serves nobody, with the greatest priority of all that waits at the channels of the chain.
    #[inline(always)]
    pub fn facts_of(&self, x: ThreadId) -> Facts
        ensures { result ≡ facts_of self.now x }
    {
        self.inherit.of(x)
    }

    /// The server of the newest triple. There is none exactly where nobody serves.
    pub fn newest_server(&self) -> Option<ThreadId>
        ensures same { result ≡ first_of (servers self.now.triples) }
        ensures chains { AreChains self.now.triples }
    {
        self.inherit.newest_server()
    }

    /// The server of the next older triple than this server's. There is none where its triple is the oldest one, or
    /// where it serves nobody.
    pub fn older_server(&self, server: ThreadId) -> Option<ThreadId>
        ensures { result ≡ after_in (servers self.now.triples) server }
    {
        self.inherit.older_server(server)
    }
}
