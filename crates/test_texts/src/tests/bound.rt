//! Audits of small histories, with amounts that were worked out by hand.
ghost use Rattle.std.specs.Prelude.{◌≡◌, ◌≤◌, [], length};

use super::histories::{add_all, begun};
use aps_bound::audit;
use aps_model::{
    Audit, Change, ChangeKind, CpuId, Done, Entry, History, Name, Nanos, PartitionId, PartitionRow,
    Worst,
};
use std::alloc::Global;
use std::process::Abort;

const TICK: Nanos = 100_000;

/// One processor, with a tick of 100,000 ns, a window of 8 ticks, and all parts in `System`.
const SYSTEM_ALONE: &str = r#"version = 1
cpus = 1
tick = 100000
window = 8
ticks = 100
"#;

/// Nothing is known of this.
const NOTHING: Audit = Audit {
    loaded_from: 0,
    worst_over: None,
    worst_short: None,
    critical_worst: None,
};

fn row(name: Name, budget: u16, critical: Nanos) -> PartitionRow
    ensures { result ≡ record { name = name; parent = 0; budget = budget; critical = critical; max = 100 } }
{
    PartitionRow {
        name,
        parent: PartitionId::at(0),
        budget,
        critical,
        max: 100,
    }
}

/// An entry of processor 0 that bills this partition.
fn entry(from: Nanos, to: Nanos, billed: usize, critical: bool) -> Entry
    requires { billed ≤ 31 }
{
    Entry {
        from,
        to,
        done: Done::Nothing,
        ran: None,
        picked: None,
        billed: Some(PartitionId::at(billed)),
        starved: None,
        flagged: None,
        cpu: CpuId::at(0),
        critical,
    }
}

/// An entry of processor 0 that bills this partition for a whole tick.
fn whole_tick(tick: u64, billed: usize, critical: bool) -> Entry
    requires tick { tick ≤ 100 }
    requires billed { billed ≤ 31 }
{
    entry(tick * TICK, tick * TICK + TICK, billed, critical)
}

/// The same of processor 1, billed to `System`.
fn beside(tick: u64) -> Entry
    requires { tick ≤ 100 }
{
    let mut system = whole_tick(tick, 0, false);
    system.cpu = CpuId::at(1);
    system
}

fn worst(amount: Nanos, partition: usize, window: u32) -> Option<Worst>
    requires { partition ≤ 31 }
{
    Some(Worst {
        amount,
        partition: PartitionId::at(partition),
        window,
    })
}

/// The history of one processor, where `System` has all parts but no budget.
fn unfunded(rt: &impl Abort, alloc: Global) -> History
    ensures { result.room.entries ≡ 5000 }
{
    let mut history = begun(rt, alloc, SYSTEM_ALONE);
    let system = Name::new(b"System").expect(rt, "a name");
    history.set_row(PartitionId::at(0), row(system, 0, 0));
    history
}

/// 70 parts for `System`, 30 for `A`, which has 100,000 ns of critical time.
fn share(history: &mut History)
    requires { length history.old.rows ≡ 1 }
    ensures { history.new ≡ record history.old { rows = history.new.rows } }
{
    let system = Name::new(b"System").unwrap();
    history.set_row(PartitionId::at(0), row(system, 70, 0));
    let a = Name::new(b"A").unwrap();
    history.set_row(PartitionId::at(1), row(a, 30, 100_000));
}

/// The history of one processor that they share.
fn shared(rt: &impl Abort, alloc: Global) -> History
    ensures changes { result.changes ≡ [] }
    ensures room { result.room ≡ record { entries = 5000; replies = 32; changes = 8 } }
{
    let mut history = begun(rt, alloc, SYSTEM_ALONE);
    assert!(rt; history.rows().len() == 1);
    share(&mut history);
    history
}

/// The same of two processors.
fn shared_by_two(rt: &impl Abort, alloc: Global) -> History
    ensures { result.room.entries ≡ 5000 }
{
    let mut history = shared(rt, alloc);
    let mut shape = *history.shape();
    shape.cpus = 2;
    history.set_shape(shape);
    history
}

/// What is found of a history.
fn found(history: &History) -> Audit {
    audit(history)
}

/// What is found of it with these entries.
fn found_with(rt: &impl Abort, mut history: History, entries: &[Entry]) -> Audit
    requires { history.room.entries ≡ 5000 }
{
    add_all(rt, &mut history, entries);
    found(&history)
}

#[test]
fn nothing_is_loaded_at_the_start(rt: HostRuntime) {
    let history = begun(&rt, rt.alloc(), SYSTEM_ALONE);
    assert_eq!(rt; found(&history), NOTHING);
}

#[test]
fn an_entry_counts_in_each_tick_that_it_crosses(rt: HostRuntime) {
    let entries = [entry(0, 0, 0, false), entry(0, 950_000, 0, false)];
    let all_used = Audit {
        loaded_from: 0,
        worst_over: worst(800_000, 0, 0),
        worst_short: worst(0, 0, 0),
        critical_worst: worst(0, 0, 0),
    };
    let audit = found_with(&rt, unfunded(&rt, rt.alloc()), &entries);
    assert_eq!(rt; audit, all_used);
}

#[test]
fn usage_is_measured_by_the_last_rows(rt: HostRuntime) {
    let entries = [
        entry(0, 300_000, 1, true),
        entry(300_000, 900_000, 0, false),
    ];
    let shared_out = Audit {
        loaded_from: 0,
        worst_over: worst(60_000, 1, 0),
        worst_short: worst(60_000, 0, 0),
        critical_worst: worst(200_000, 1, 0),
    };
    let audit = found_with(&rt, shared(&rt, rt.alloc()), &entries);
    assert_eq!(rt; audit, shared_out);
}

/// The history in which `A` was starved at a pick.
fn starved(rt: &impl Abort, alloc: Global) -> History
    ensures changes { result.changes ≡ [] }
    ensures room { result.room ≡ record { entries = 5000; replies = 32; changes = 8 } }
{
    let mut first = entry(0, 1_000_000, 1, true);
    first.starved = Some(PartitionId::at(1));
    let second = entry(1_000_000, 2_000_000, 0, false);
    let mut history = shared(rt, alloc);
    add_all(rt, &mut history, &[first, second]);
    history
}

#[test]
fn windows_are_loaded_after_starved_picks_and_changes(rt: HostRuntime) {
    let mut history = starved(&rt, rt.alloc());
    let after_the_pick = Audit {
        loaded_from: 11,
        worst_over: worst(240_000, 0, 11),
        worst_short: worst(240_000, 1, 11),
        critical_worst: worst(0, 0, 11),
    };
    assert_eq!(rt; found(&history), after_the_pick);
    history.add_change(Change {
        tick: 12,
        kind: ChangeKind::Cancelled(PartitionId::at(1)),
    });
    let after_the_change = Audit {
        loaded_from: 13,
        ..NOTHING
    };
    assert_eq!(rt; found(&history), after_the_change);
}

/// Whom each tick of processor 0 bills, and whether the time is critical; processor 1 bills `System`.
const BESIDE_SYSTEM: [(usize, bool); 12] = [
    (0, false),
    (0, false),
    (1, false),
    (1, false),
    (1, false),
    (1, false),
    (1, false),
    (1, true),
    (1, true),
    (1, false),
    (0, false),
    (0, false),
];

#[test]
fn each_tick_enters_once_and_leaves_once(rt: HostRuntime) {
    let mut entries = [beside(0); 24];
    for i in 0..12 {
        let (billed, critical) = BESIDE_SYSTEM[i];
        entries[2 * i] = whole_tick(i as u64, billed.min(1), critical);
        entries[2 * i + 1] = beside(i as u64);
    }
    let system_allowed = 70 * 16 * TICK / 100;
    let a_allowed = 30 * 16 * TICK / 100;
    let slid = Audit {
        loaded_from: 0,
        worst_over: worst(8 * TICK - a_allowed, 1, 2),
        worst_short: worst(system_allowed - 8 * TICK, 0, 2),
        critical_worst: worst(2 * TICK - 100_000, 1, 1),
    };
    let audit = found_with(&rt, shared_by_two(&rt, rt.alloc()), &entries);
    assert_eq!(rt; audit, slid);
}

/// Ticks in the order in which their entries stand, each with whom it bills.
const OUT_OF_ORDER: [(u64, usize); 9] = [
    (1, 0),
    (2, 0),
    (3, 0),
    (0, 1),
    (4, 0),
    (5, 0),
    (6, 1),
    (7, 1),
    (8, 1),
];

#[test]
fn entries_count_in_their_ticks_in_whatever_order_they_stand(rt: HostRuntime) {
    let mut entries = [beside(0); 9];
    for i in 0..9 {
        let (tick, billed) = OUT_OF_ORDER[i];
        entries[i] = whole_tick(tick.min(8), billed.min(1), false);
    }
    let system_allowed = 70 * 8 * TICK / 100;
    let a_allowed = 30 * 8 * TICK / 100;
    let recounted = Audit {
        loaded_from: 0,
        worst_over: worst(3 * TICK - a_allowed, 1, 0),
        worst_short: worst(system_allowed - 5 * TICK, 0, 0),
        critical_worst: worst(0, 0, 0),
    };
    let audit = found_with(&rt, shared(&rt, rt.alloc()), &entries);
    assert_eq!(rt; audit, recounted);
}
