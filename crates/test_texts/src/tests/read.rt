//! Texts that are read.
use super::scenarios::TWO_EQUAL_PARTITIONS;
use aps_model::{
    Bankruptcy, Call, CommandRow, Free, Name, Op, PartitionId, PartitionRow, Policy, Scenario,
    Shape, ThreadId, ThreadRow,
};
use aps_scenario::{print, scenario_of, upgrade};
use std::alloc::Global;
use std::process::Abort;

const OTHER_THAN_THE_DEFAULTS: &str = r#"version = 2
cpus = 16
tick = 2000000
ticks = 10
call_ns = 500
free = "ratio"
limit = true
bankruptcy = "cancel"
partition = [
  {name = "A", budget = 300, max = 450},
  {name = "B", parent = "A", budget = 125, critical = 64000000000, max = 200},
]
channel = [{name = "c1"}, {name = "c2"}]
thread = [
  {name = "s", partition = "System", priority = 1, policy = "rr", program = ["send c2", "join N", "repeat"]},
  {name = "b", partition = "B", priority = 255, critical = true, program = ["run 7", "critical off", "sleep 10000000000000", "priority 255", "exit"]},
]
command = [
  {tick = 9, do = "create", name = "N", budget = 5},
  {tick = 0, do = "modify", partition = "B", max = 30},
  {tick = 3, do = "mark_critical", thread = "b"},
  {tick = 3, do = "set_parameters", limit = false},
]
"#;

/// The shape of the two equal partitions, where nothing else is given.
const SHAPE: Shape = Shape {
    parts: 100,
    cpus: 1,
    tick: 1_000_000,
    window: 10,
    ticks: 20,
    call_ns: 1000,
    free: Free::Priority,
    limit: false,
    bankruptcy: Bankruptcy::Basic,
};

fn read(rt: &impl Abort, alloc: Global, text: &str) -> Scenario {
    scenario_of(alloc, text.as_bytes()).expect(rt, "a scenario")
}

fn name(rt: &impl Abort, text: &[u8]) -> Name {
    Name::new(text).expect(rt, "a name")
}

/// A child of `System`, or `System` itself, without critical time.
fn row(rt: &impl Abort, text: &[u8], budget: u16, max: u16) -> PartitionRow {
    PartitionRow {
        name: name(rt, text),
        parent: PartitionId::at(0),
        budget,
        critical: 0,
        max,
    }
}

/// Whether a thread is this one, its program apart.
fn is_thread(row: &ThreadRow, name: &[u8], partition: usize, facts: (u8, Policy, bool)) -> bool {
    row.name.text() == name
        && row.partition.index() == partition
        && (row.priority, row.policy, row.critical) == facts
}

#[test]
fn defaults_stand_where_nothing_is_given(rt: HostRuntime) {
    let scenario = read(&rt, rt.alloc(), TWO_EQUAL_PARTITIONS);
    assert!(rt; *scenario.shape() == SHAPE);
    let rows = [row(&rt, b"System", 50, 100), row(&rt, b"A", 50, 100)];
    assert!(rt; scenario.partitions() == rows.as_slice());
    assert!(rt; scenario.channels().is_empty());
    assert!(rt; scenario.commands().is_empty());
}

#[test]
fn threads_have_their_defaults(rt: HostRuntime) {
    let scenario = read(&rt, rt.alloc(), TWO_EQUAL_PARTITIONS);
    let [s, a] = scenario.threads() else {
        panic!(rt; "two threads");
    };
    let facts = (10, Policy::Fifo, false);
    assert!(rt; is_thread(s, b"s", 0, facts));
    assert!(rt; is_thread(a, b"a", 1, facts));
    assert!(rt; a.program.ops() == [Op::Forever].as_slice());
}

#[test]
fn what_is_given_replaces_the_defaults(rt: HostRuntime) {
    let scenario = read(&rt, rt.alloc(), OTHER_THAN_THE_DEFAULTS);
    let shape = Shape {
        parts: 1000,
        cpus: 16,
        tick: 2_000_000,
        window: 100,
        ticks: 10,
        call_ns: 500,
        free: Free::Ratio,
        limit: true,
        bankruptcy: Bankruptcy::Cancel,
    };
    assert!(rt; *scenario.shape() == shape);
    let b = PartitionRow {
        parent: PartitionId::at(1),
        critical: 64_000_000_000,
        ..row(&rt, b"B", 125, 200)
    };
    let rows = [row(&rt, b"System", 700, 1000), row(&rt, b"A", 175, 450), b];
    assert!(rt; scenario.partitions() == rows.as_slice());
}

#[test]
fn threads_are_read(rt: HostRuntime) {
    let scenario = read(&rt, rt.alloc(), OTHER_THAN_THE_DEFAULTS);
    let [s, b] = scenario.threads() else {
        panic!(rt; "two threads");
    };
    assert!(rt; is_thread(s, b"s", 0, (1, Policy::Rr, false)));
    assert!(rt; is_thread(b, b"b", 2, (255, Policy::Fifo, true)));
}

/// What is read again of the text as which a scenario is printed.
fn read_again(rt: &impl Abort, alloc: Global, scenario: &Scenario) -> Scenario {
    let printed = print(alloc, scenario).expect(rt, "memory");
    read(rt, alloc, printed.as_str())
}

#[test]
fn an_upgrade_counts_in_thousandths(rt: HostRuntime) {
    let scenario = upgrade(read(&rt, rt.alloc(), TWO_EQUAL_PARTITIONS));
    let shape = Shape {
        parts: 1000,
        ..SHAPE
    };
    assert!(rt; *scenario.shape() == shape);
    let rows = [row(&rt, b"System", 500, 1000), row(&rt, b"A", 500, 1000)];
    assert!(rt; scenario.partitions() == rows.as_slice());
    let again = read_again(&rt, rt.alloc(), &scenario);
    assert!(rt; again.shape() == scenario.shape());
    assert!(rt; again.partitions() == scenario.partitions());
}

/// Whether these are the operations of the first thread: it sends to the second channel, joins the partition that a command creates, and starts again.
fn is_first_program(ops: &[Op]) -> bool {
    match ops {
        [Op::Send(channel), Op::Join(name), Op::Repeat] => {
            channel.index() == 1 && name.text() == b"N".as_slice()
        }
        _ => false,
    }
}

#[test]
fn programs_are_read(rt: HostRuntime) {
    let scenario = read(&rt, rt.alloc(), OTHER_THAN_THE_DEFAULTS);
    let [first, second] = scenario.threads() else {
        panic!(rt; "two threads");
    };
    assert!(rt; is_first_program(first.program.ops()));
    let ops = [
        Op::Run(7),
        Op::CriticalOff,
        Op::Sleep(10_000_000_000_000),
        Op::Priority(255),
        Op::Exit,
    ];
    assert!(rt; second.program.ops() == ops.as_slice());
}

/// The commands of the text, each at its tick.
fn commands(rt: &impl Abort) -> [CommandRow; 4] {
    let created = Call::Create {
        name: name(rt, b"N"),
        parent: name(rt, b"System"),
        budget: 5,
        critical: 0,
        max: 1000,
    };
    let modified = Call::Modify {
        partition: name(rt, b"B"),
        budget: None,
        critical: None,
        max: Some(30),
    };
    let marked = Call::MarkCritical {
        thread: ThreadId::at(1),
    };
    let set = Call::SetParameters {
        window: None,
        free: None,
        limit: Some(false),
        bankruptcy: None,
    };
    [at(9, created), at(0, modified), at(3, marked), at(3, set)]
}

fn at(tick: u32, call: Call) -> CommandRow {
    CommandRow { tick, call }
}

#[test]
fn commands_are_read(rt: HostRuntime) {
    let scenario = read(&rt, rt.alloc(), OTHER_THAN_THE_DEFAULTS);
    assert!(rt; scenario.commands() == commands(&rt).as_slice());
}
