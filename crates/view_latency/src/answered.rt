//! The answered calls to one channel.
ghost use Rattle.std.specs.Prelude.{◌≡◌, ℕ, ◌+◌, ◌<◌};
ghost use Rattle.view_lives.specs.Few.{AreFew, HasRoomForOne};
ghost use Rattle.view_latency.specs.Answered as spec;

use crate::call::Call;
use view_lives::Tally;

/// Of the answered calls to a channel: how long each took, from the end of its send to its answer; how long each of the messages
/// waited that weren't taken at once; and how long the servers ran for them all (ns).
#[derive(Clone, Copy, PartialEq, Eq)]
pub struct Answered {
    pub call: Tally,
    pub queue: Tally,
    pub served: u128,
}

impl Answered {
    /// Those of these calls that went to this channel.
    pub fn of(calls: &[Call], channel: usize) -> Answered
        ensures { result ≡ spec.answered_at channel calls.now }
    {
        let mut answered = Answered {
            call: Tally::none(),
            queue: Tally::none(),
            served: 0,
        };
        for call in calls {
            answered = answered.with(call, channel);
        }
        answered
    }

    /// With one call more, if it went to this channel.
    fn with(self, call: &Call, channel: usize) -> Answered
        requires { spec.HasRoomForAnswer self }
        ensures same { result ≡ spec.with_call channel self call.now }
        ensures few { (n : ℕ) → spec.AreFewAnswers n self → spec.AreFewAnswers (n + 1) result }
    {
        if call.asked.channel.index() == channel {
            self.with_own(call)
        } else {
            self
        }
    }

    /// With one call more.
    fn with_own(self, call: &Call) -> Answered
        requires { spec.HasRoomForAnswer self }
        ensures same { result ≡ spec.with_own_call self call.now }
        ensures few { (n : ℕ) → spec.AreFewAnswers n self → spec.AreFewAnswers (n + 1) result }
    {
        let asked = &call.asked;
        Answered {
            call: self
                .call
                .with(asked.begin, call.end.saturating_sub(asked.begin)),
            queue: with_queue(self.queue, call),
            served: self.served + u128::from(asked.served),
        }
    }
}

/// The tally of messages that waited, with that of this call, if it did.
fn with_queue(queue: Tally, call: &Call) -> Tally
    requires { HasRoomForOne queue }
    ensures same { result ≡ spec.with_queue queue call.now }
    ensures few { (n : ℕ) → AreFew n queue → AreFew (n + 1) result }
{
    let asked = &call.asked;
    if 0 < asked.queued {
        queue.with(asked.begin, asked.queued)
    } else {
        queue
    }
}
