//! What a thread does, as its life shows it.
ghost use Rattle.std.specs.Prelude.{◌≡◌};
ghost use Rattle.aps_model.specs.SchedulerState.{cpu_at};
ghost use Rattle.aps_core.specs.Run.{state_of_run};
ghost use Rattle.view_lives.specs.Doing as spec;

use aps_core::Core;
use aps_model::{ChannelId, CpuId, CpuNow, PartitionId, State, ThreadId};

/// What a thread does. `Running` has the partition that is billed and the mark, as the pick fixed them; `Sleeping` has no
/// moment; all else is as in `State`.
#[derive(Clone, Copy, PartialEq, Eq)]
pub enum Doing {
    Ready,
    Running {
        cpu: CpuId,
        partition: PartitionId,
        critical: bool,
    },
    Sleeping,
    Sending(ChannelId),
    Receiving(ChannelId),
    Replying(ThreadId),
    Gone,
}

/// What a thread does that is in this state.
pub fn doing_by(core: &Core, state: &State) -> Doing
    ensures { result ≡ spec.doing_by (state_of_run core.now) state.now }
{
    match state {
        State::Ready => Doing::Ready,
        State::Running(c) => running_by(*c, &core.cpu(*c)),
        State::Sleeping(_) => Doing::Sleeping,
        State::Sending(c) => Doing::Sending(*c),
        State::Receiving(c) => Doing::Receiving(*c),
        State::Replying(y) => Doing::Replying(*y),
        State::Gone => Doing::Gone,
    }
}

/// What a thread does that runs on this processor, which keeps its pick.
fn running_by(c: CpuId, cpu: &CpuNow) -> Doing
    ensures { result ≡ spec.running_by c cpu.now.running }
{
    match cpu.running {
        Some(pick) => Doing::Running {
            cpu: c,
            partition: pick.partition,
            critical: pick.critical,
        },
        None => Doing::Running {
            cpu: c,
            partition: PartitionId::at(0),
            critical: false,
        },
    }
}

/// Whether a thread that is in this state does this.
pub fn does(core: &Core, state: &State, doing: &Doing) -> bool
    ensures { result ≡ spec.is_same_doing doing.now (spec.doing_by (state_of_run core.now) state.now) }
{
    match state {
        State::Ready => matches!(doing, Doing::Ready),
        State::Running(_) => is_same(doing, &doing_by(core, state)),
        State::Sleeping(_) => matches!(doing, Doing::Sleeping),
        State::Sending(c) => matches!(doing, Doing::Sending(d) if d == c),
        State::Receiving(c) => matches!(doing, Doing::Receiving(d) if d == c),
        State::Replying(y) => matches!(doing, Doing::Replying(z) if z == y),
        State::Gone => matches!(doing, Doing::Gone),
    }
}

/// Whether both are the same.
pub fn is_same(doing: &Doing, other: &Doing) -> bool
    ensures { result ≡ spec.is_same_doing doing.now other.now }
{
    doing == other
}
