//! What an entry tells of a thread's call.
ghost use Rattle.std.specs.Prelude.{◌≡◌, ◌≤◌, ◌-◌};
ghost use Rattle.aps_model.specs.Scenario.{op_at};
ghost use Rattle.aps_model.specs.Usage.{names};
ghost use Rattle.aps_core.specs.Run.{state_of_run};
ghost use Rattle.view_latency.specs.News as spec;
ghost use Rattle.view_latency.specs.Seen.{news_by};

use crate::seen::Seen;
use aps_core::Core;
use aps_model::{ChannelId, Done, Entry, Nanos, Op, Scenario, State, ThreadId};

/// What an entry tells of a thread's call: nothing; a send ended, to this channel; a server took the message; the server ran for
/// so long (ns) while it held the thread; it did so, and then its reply or its exit freed the thread.
#[derive(Clone, Copy, PartialEq, Eq)]
pub enum News {
    Nothing,
    Sent(ChannelId),
    Taken,
    Served(Nanos),
    Answered(Nanos),
}

/// What the next entry tells of this thread's call, where the core has made the steps before it.
pub fn news_of(core: &Core, scenario: &Scenario, x: ThreadId, e: &Entry) -> News
    ensures same { result ≡ spec.news_of scenario.now (state_of_run core.now) x e.now }
    ensures short { spec.time_of result ≤ e.now.to - e.now.from }
{
    let thread = core.thread(x);
    news_in(scenario, x, thread.place, &thread.state, e)
}

/// What an entry tells of the call of a thread that is at this place of its program and in this state.
fn news_in(scenario: &Scenario, x: ThreadId, place: u16, state: &State, e: &Entry) -> News
    ensures same { result ≡ spec.news_in scenario.now x place state.now e.now }
    ensures short { spec.time_of result ≤ e.now.to - e.now.from }
{
    match state {
        State::Running(_) => news_of_own(scenario, x, place, e),
        State::Sending(_) => news_of_taking(x, &e.done),
        State::Replying(server) => news_of_server(*server, e),
        _ => News::Nothing,
    }
}

/// What an entry tells of a thread's call, where this was seen of the thread before.
pub fn news_by(scenario: &Scenario, x: ThreadId, seen: &Seen, e: &Entry) -> News
    ensures same { result ≡ news_by scenario.now x seen.now e.now }
    ensures short { spec.time_of result ≤ e.now.to - e.now.from }
{
    match seen {
        Seen::Runs { place } => news_of_own(scenario, x, *place, e),
        Seen::Sends => news_of_taking(x, &e.done),
        Seen::Waits { server } => news_of_server(*server, e),
        Seen::Other => News::Nothing,
    }
}

/// What an entry tells of the call of a thread that runs, and is at this place of its program.
fn news_of_own(scenario: &Scenario, x: ThreadId, place: u16, e: &Entry) -> News
    ensures same { result ≡ spec.news_of_own scenario.now x place e.now }
    ensures none { spec.time_of result ≡ 0 }
{
    if names(e.ran, x) && is_send(&e.done) {
        sent_by(&op_at(scenario, x, place))
    } else {
        News::Nothing
    }
}

/// Whether a send ended.
fn is_send(done: &Done) -> bool
    ensures { result ≡ spec.is_send done.now }
{
    matches!(done, Done::SendBlocked | Done::SendTo(_))
}

/// What the end of this operation tells, if it is a send.
fn sent_by(op: &Op) -> News
    ensures same { result ≡ spec.sent_by op.now }
    ensures none { spec.time_of result ≡ 0 }
{
    match op {
        Op::Send(channel) => News::Sent(*channel),
        _ => News::Nothing,
    }
}

/// What this tells of the call of a thread whose message waits.
fn news_of_taking(x: ThreadId, done: &Done) -> News
    ensures same { result ≡ spec.news_of_taking x done.now }
    ensures none { spec.time_of result ≡ 0 }
{
    match done {
        Done::ReceiveGot(sender) => taken_if(*sender == x),
        _ => News::Nothing,
    }
}

fn taken_if(is_taken: bool) -> News
    ensures same { result ≡ spec.taken_if is_taken }
    ensures none { spec.time_of result ≡ 0 }
{
    if is_taken { News::Taken } else { News::Nothing }
}

/// What an entry tells of the call of a thread that waits for the reply of this server.
fn news_of_server(server: ThreadId, e: &Entry) -> News
    ensures same { result ≡ spec.news_of_server server e.now }
    ensures short { spec.time_of result ≤ e.now.to - e.now.from }
{
    if names(e.ran, server) {
        served(&e.done, e.to.saturating_sub(e.from))
    } else {
        News::Nothing
    }
}

/// What the server did that ran for so long.
fn served(done: &Done, ns: Nanos) -> News
    ensures same { result ≡ spec.served done.now ns }
    ensures time { spec.time_of result ≡ ns }
{
    match done {
        Done::ReplyFreed(_) | Done::Exit => News::Answered(ns),
        _ => News::Served(ns),
    }
}

/// Whether this is the thread, if there is one.
fn names(thread: Option<ThreadId>, x: ThreadId) -> bool
    ensures { result ≡ names thread x }
{
    match thread {
        Some(y) => y == x,
        None => false,
    }
}

/// The operation at a place of the thread's program; past its end that is `Exit`.
fn op_at(scenario: &Scenario, x: ThreadId, place: u16) -> Op
    ensures { result ≡ op_at scenario.now x place }
{
    let Some(row) = scenario.threads().get(x.index()) else {
        return Op::Exit;
    };
    match row.program.ops().get(usize::from(place)) {
        Some(op) => *op,
        None => Op::Exit,
    }
}
