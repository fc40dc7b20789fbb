//! The keys of the tables.
ghost use Rattle.std.specs.Prelude.{◌≡◌, ◌≤◌, length};
ghost use Rattle.aps_scenario.specs.Key.{key_text};

/// A key of a table.
#[derive(Clone, Copy)]
pub enum Key {
    Version,
    Cpus,
    Tick,
    Window,
    Ticks,
    CallNs,
    Free,
    Limit,
    Bankruptcy,
    Partition,
    Channel,
    Thread,
    Command,
    Demand,
    Name,
    Parent,
    Budget,
    Critical,
    Max,
    Priority,
    Policy,
    Program,
    Do,
    Need,
}

impl Key {
    /// The key as it is written.
    pub fn text(self) -> &'static str
        ensures is { result.now ≡ key_text self }
        ensures short { length result.now ≤ 10 }
    {
        match self {
            Key::Version => "version",
            Key::Cpus => "cpus",
            Key::Tick => "tick",
            Key::Window => "window",
            Key::Ticks => "ticks",
            Key::CallNs => "call_ns",
            Key::Free => "free",
            Key::Limit => "limit",
            Key::Bankruptcy => "bankruptcy",
            Key::Partition => "partition",
            Key::Channel => "channel",
            Key::Thread => "thread",
            Key::Command => "command",
            Key::Demand => "demand",
            Key::Name => "name",
            Key::Parent => "parent",
            Key::Budget => "budget",
            Key::Critical => "critical",
            Key::Max => "max",
            Key::Priority => "priority",
            Key::Policy => "policy",
            Key::Program => "program",
            Key::Do => "do",
            Key::Need => "need",
        }
    }
}
