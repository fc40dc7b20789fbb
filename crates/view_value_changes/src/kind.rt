//! What a dump tells of a thread's state.
ghost use Rattle.std.specs.Prelude.{◌≡◌};
ghost use Rattle.view_value_changes.specs.Kind as spec;

use aps_model::State;

/// A state, without what the thread runs on and what it waits for.
#[derive(Clone, Copy, PartialEq, Eq)]
pub enum Kind {
    Ready,
    Running,
    Sleeping,
    Sending,
    Receiving,
    Replying,
    Gone,
}

impl Kind {
    /// What is told of a state.
    pub fn of(state: State) -> Kind
        ensures { result ≡ spec.kind_of_state state }
    {
        match state {
            State::Ready => Kind::Ready,
            State::Running(_) => Kind::Running,
            State::Sleeping(_) => Kind::Sleeping,
            State::Sending(_) => Kind::Sending,
            State::Receiving(_) => Kind::Receiving,
            State::Replying(_) => Kind::Replying,
            State::Gone => Kind::Gone,
        }
    }

    /// Its word.
    pub fn word(self) -> &'static str
        ensures { result.now ≡ spec.state_kind_word self }
    {
        match self {
            Kind::Ready => "ready",
            Kind::Running => "running",
            Kind::Sleeping => "sleeping",
            Kind::Sending => "sending",
            Kind::Receiving => "receiving",
            Kind::Replying => "replying",
            Kind::Gone => "gone",
        }
    }
}
