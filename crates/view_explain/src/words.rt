//! Words and names of an explanation.
ghost use Rattle.std.specs.Prelude.{◌≡◌};
ghost use Rattle.aps_model.specs.Replies.{state_text};
ghost use Rattle.view_explain.specs.Text as spec;

use crate::deciding::Test;
use crate::scene::Scene;
use aps_model::{ChannelId, PartitionId, State, ThreadId};
use view_texts::text_of;

pub fn yes_or_no(is_so: bool) -> &'static str
    ensures { result.now ≡ spec.yes_or_no is_so }
{
    if is_so { "yes" } else { "no" }
}

pub fn state_word(state: &State) -> &'static str
    ensures { result.now ≡ state_text state.now }
{
    match state {
        State::Ready => "ready",
        State::Running(_) => "running",
        State::Sleeping(_) => "sleeping",
        State::Sending(_) => "sending",
        State::Receiving(_) => "receiving",
        State::Replying(_) => "replying",
        State::Gone => "gone",
    }
}

pub fn test_word(test: &Test) -> &'static str
    ensures { result.now ≡ spec.test_word test.now }
{
    match test {
        Test::Class => "class",
        Test::Priority => "priority",
        Test::Fraction => "fraction",
        Test::Stamp => "stamp",
    }
}

impl Scene {
    pub fn thread_name(&self, x: ThreadId) -> &str
        ensures { result.now ≡ spec.name_of_thread self.now x }
    {
        match self.scenario().threads().get(x.index()) {
            Some(row) => text_of(&row.name),
            None => "",
        }
    }

    pub fn row_name(&self, p: PartitionId) -> &str
        ensures { result.now ≡ spec.name_of_partition self.now p }
    {
        match self.rows().get(p.index()) {
            Some(row) => text_of(&row.name),
            None => "",
        }
    }

    pub fn channel_name(&self, c: ChannelId) -> &str
        ensures { result.now ≡ spec.channel_name_in self.now c }
    {
        match self.scenario().channels().get(c.index()) {
            Some(name) => text_of(name),
            None => "",
        }
    }
}
