//! Whose turn it may be. Threads read this advice without a ticket: no clause rests on it, and where it is wrong it costs
//! time alone.
use crate::bell::Bell;
use crate::cpu_set::CpuSet;
use crate::turns::{Turns, last_cpu};
use aps_core::Core;
use aps_model::limits::MOST_CPUS;
use aps_model::{CpuId, NoMemory};
use crossbeam_utils::CachePadded;
use std::alloc::Global;
use std::sync::Wait;
use std::sync::atomic::Ordering::SeqCst;
use std::sync::atomic::{AtomicBool, AtomicU64};
use std::{hint, thread};

/// So many processors of the machine the drivers are taken to have until they are told.
const USUAL_CORES: u64 = 4;

/// So often a driver looks for its turn before it sleeps: for some 50 microseconds, in which dozens of turns of others
/// come and go where each driver has a processor of the machine.
const MOST_LOOKS: u32 = 4_000;

/// Where fewer turns were taken meanwhile, those who take them want for a processor of the machine.
const FEW_TURNS: u32 = 8;

/// For so many turns nobody looks after that, at first.
const SHORT_PAUSE: u64 = 32;

/// The most turns for which nobody looks.
const LONG_PAUSE: u64 = 256;

/// What the drivers look at.
#[derive(Drop)]
struct Board {
    /// Who steps next, and who soon.
    turns: AtomicU64,
    /// For how many turns more nobody is to look.
    pause: AtomicU64,
    /// For how many the next time. It doubles each time, and goes down by one with each turn at which some may look.
    next_pause: AtomicU64,
    /// How many drivers are to be awake at most: one for each processor of the machine.
    cores: AtomicU64,
    /// Whose driver takes a long row of turns in vain: one more than the number of its processor, or 0 where none does.
    in_vain: AtomicU64,
    /// How many processors are simulated.
    cpus: u64,
}

/// Where the driver of a processor waits.
#[derive(Drop)]
struct Door {
    /// Whether a driver of the processor waits here, or takes a turn.
    is_at_hand: AtomicBool,
    bell: Bell,
}

/// How the board names this processor as the one whose driver takes turns in vain.
fn in_vain_of(cpu: CpuId) -> u64 {
    cpu.index() as u64 + 1
}

impl Door {
    /// The door of a processor that has no driver yet.
    fn new() -> Door {
        Door {
            is_at_hand: AtomicBool::new(false),
            bell: Bell::new(),
        }
    }
}

/// The processors that may have the turn, and the drivers that wait for it.
#[derive(Drop)]
pub(crate) struct Hint {
    board: CachePadded<Board>,
    doors: Vec<CachePadded<Door>>,
}

impl Hint {
    /// At the turns that come next in this core, with no driver at hand. `NoMemory` comes where there is no room for 16
    /// doors.
    pub(crate) fn begin(alloc: Global, core: &Core) -> Result<Hint, NoMemory> {
        let mut doors = Vec::with_capacity(alloc, MOST_CPUS)?;
        for _ in 0..MOST_CPUS {
            doors.push(CachePadded::new(Door::new()))?;
        }
        let turns = Turns::after(core, USUAL_CORES);
        let board = CachePadded::new(Board {
            turns: AtomicU64::new(turns.bits()),
            pause: AtomicU64::new(0),
            next_pause: AtomicU64::new(SHORT_PAUSE),
            cores: AtomicU64::new(USUAL_CORES),
            in_vain: AtomicU64::new(0),
            cpus: last_cpu(core).index() as u64 + 1,
        });
        Ok(Hint { board, doors })
    }

    /// The drivers run on so many processors of the machine; 0 counts as 1, since whoever has the turn is to be awake.
    pub(crate) fn set_cores(&self, cores: u64) {
        self.board.cores.store(cores.max(1), SeqCst);
    }

    /// Whether the machine has fewer processors than are simulated.
    pub(crate) fn is_crowded(&self) -> bool {
        let board: &Board = &self.board;
        board.cores.load(SeqCst) < board.cpus
    }

    /// The turns after what the core has done. Whoever calls it has the core in hand.
    pub(crate) fn turns_after(&self, core: &Core) -> Turns {
        Turns::after(core, self.most_awake())
    }

    /// How many drivers are to be awake for the next turns: the one that has it, and those who look for theirs.
    fn most_awake(&self) -> u64 {
        let board: &Board = &self.board;
        let pause = board.pause.load(SeqCst);
        if pause > 0 {
            board.pause.store(pause - 1, SeqCst);
            return 1;
        }
        let next_pause = board.next_pause.load(SeqCst);
        if next_pause > SHORT_PAUSE {
            board.next_pause.store(next_pause - 1, SeqCst);
        }
        board.cores.load(SeqCst)
    }

    /// Tells these turns, and wakes the drivers that come soon. Where one that has the turn isn't at hand it wakes all, so
    /// that they find by turns of their own whether the run goes on. The core is home again by then: where a later turn
    /// was told sooner, what is told now is of processors that have taken theirs, and one of them mends it by a turn in vain.
    /// Where it was told already, who told it wakes them.
    pub(crate) fn tell(&self, turns: Turns) {
        let bits = turns.bits();
        if self.board.turns.swap(bits, SeqCst) != bits {
            self.wake(turns);
        }
    }

    /// Who steps next and who soon, as was told last.
    fn turns(&self) -> Turns {
        Turns::of_bits(self.board.turns.load(SeqCst))
    }

    /// Wakes the drivers that come soon; all, where one that has the turn isn't at hand.
    fn wake(&self, turns: Turns) {
        let mut left = turns.soon;
        for c in 0..MOST_CPUS {
            let cpu = CpuId::at(c);
            if left.is_empty() {
                return;
            }
            if left.has(cpu) {
                if turns.next.has(cpu) && !self.is_at_hand(cpu) {
                    return self.wake_all();
                }
                self.ring(cpu);
                left = left.without(CpuSet::of(cpu));
            }
        }
    }

    /// Wakes the driver of the processor.
    fn ring(&self, cpu: CpuId) {
        if let Some(door) = self.doors.get(cpu.index()) {
            door.bell.ring();
        }
    }

    /// Wakes all drivers.
    fn wake_all(&self) {
        for door in self.doors.as_slice() {
            door.bell.ring_all();
        }
    }

    /// Whether a driver of the processor waits for its turn or takes it.
    fn is_at_hand(&self, cpu: CpuId) -> bool {
        match self.doors.get(cpu.index()) {
            Some(door) => door.is_at_hand.load(SeqCst),
            None => false,
        }
    }

    /// Notes for each of these processors whether a driver waits for its turn or takes it. Where none does any more, and one
    /// of them may have the turn, it wakes the others, who would wait for it.
    pub(crate) fn set_at_hand(&self, cpus: CpuSet, is_at_hand: bool) {
        self.note_at_hand(cpus, is_at_hand);
        if !is_at_hand && self.may_turn(cpus) {
            self.wake_all();
        }
    }

    /// Notes it at the door of each of these processors.
    fn note_at_hand(&self, cpus: CpuSet, is_at_hand: bool) {
        for c in 0..MOST_CPUS {
            if cpus.has(CpuId::at(c)) {
                if let Some(door) = self.doors.get(c) {
                    door.is_at_hand.store(is_at_hand, SeqCst);
                }
            }
        }
    }

    /// The driver of these processors is gone. Where they may have the turn, or it was the one that took turns in vain, it
    /// wakes the others, who would wait for it.
    pub(crate) fn leave(&self, cpus: CpuSet) {
        self.note_at_hand(cpus, false);
        if self.gives_way(cpus) || self.may_turn(cpus) {
            self.wake_all();
        }
    }

    /// Another driver may take turns in vain, if that of one of these processors did. The answer says whether it did.
    fn gives_way(&self, cpus: CpuSet) -> bool {
        for c in 0..MOST_CPUS {
            if cpus.has(CpuId::at(c)) && self.is_in_vain(CpuId::at(c)) {
                self.board.in_vain.store(0, SeqCst);
                return true;
            }
        }
        false
    }

    /// Whether it is the driver of this processor that takes turns in vain.
    fn is_in_vain(&self, cpu: CpuId) -> bool {
        self.board.in_vain.load(SeqCst) == in_vain_of(cpu)
    }

    /// Whether the driver of this processor is the one that takes turns in vain, now that it asks for that.
    fn goes_in_vain(&self, cpu: CpuId) -> bool {
        let mine = in_vain_of(cpu);
        match self.board.in_vain.compare_exchange(0, mine, SeqCst, SeqCst) {
            Ok(_) => true,
            Err(other) => other == mine,
        }
    }

    /// Sleeps while the driver of another processor takes turns in vain, unless the processor may have the turn: of drivers
    /// that can only give up one goes at a time, since all of them would wait for one another at the lock. It comes back
    /// sooner where nobody rings for long.
    pub(crate) fn await_vain<R: Wait>(&self, rt: &R, cpu: CpuId) {
        let Some(door) = self.doors.get(cpu.index()) else {
            return;
        };
        for _ in rt.forever() {
            let sleeper = door.bell.announce();
            if self.turns().next.has(cpu) || self.goes_in_vain(cpu) || !sleeper.sleep(rt) {
                return;
            }
        }
    }

    /// Whether each processor that may have the turn has a driver at hand.
    fn has_drivers(&self) -> bool {
        let next = self.turns().next;
        for c in 0..MOST_CPUS {
            let cpu = CpuId::at(c);
            if next.has(cpu) && !self.is_at_hand(cpu) {
                return false;
            }
        }
        true
    }

    /// Whether one of these processors may have the turn.
    pub(crate) fn may_turn(&self, cpus: CpuSet) -> bool {
        self.turns().next.meets(cpus)
    }

    /// Waits until the processor may have the turn: it looks for a while where its turn comes soon, and else sleeps. It
    /// comes back sooner where a processor that may have the turn has no driver at hand, and where nobody rings for long.
    pub(crate) fn await_turn<R: Wait>(&self, rt: &R, cpu: CpuId) {
        for _ in rt.forever() {
            if self.is_seen(cpu) {
                return;
            }
            if !self.has_drivers() {
                thread::yield_now();
                return;
            }
            if !self.sleep(rt, cpu) {
                return;
            }
        }
    }

    /// Looks whether the processor may have the turn, for as long as it comes soon, but no longer than a while.
    fn is_seen(&self, cpu: CpuId) -> bool {
        let mut last = self.turns();
        let mut came = 0u32;
        for _ in 0..MOST_LOOKS {
            let turns = self.turns();
            if turns.next.has(cpu) {
                return true;
            }
            if !turns.soon.has(cpu) {
                return false;
            }
            if turns != last {
                came = came.saturating_add(1);
                last = turns;
            }
            hint::spin_loop();
        }
        self.look_less(came);
        false
    }

    /// A driver has looked in vain while so many turns came. Where these are few, nobody looks for a while.
    fn look_less(&self, came: u32) {
        let board: &Board = &self.board;
        if came < FEW_TURNS && board.pause.load(SeqCst) == 0 {
            let pause = board.next_pause.load(SeqCst);
            board.pause.store(pause, SeqCst);
            let doubled = pause.saturating_mul(2).min(LONG_PAUSE);
            board.next_pause.store(doubled, SeqCst);
        }
    }

    /// Sleeps until somebody rings, unless the processor may have the turn by now. The answer is no where nobody rang for
    /// long.
    fn sleep<R: Wait>(&self, rt: &R, cpu: CpuId) -> bool {
        let Some(door) = self.doors.get(cpu.index()) else {
            return false;
        };
        let sleeper = door.bell.announce();
        self.turns().next.has(cpu) || !self.has_drivers() || sleeper.sleep(rt)
    }
}
