//! Texts that are printed.
use aps_model::{Scenario, ThreadRow};
use aps_scenario::{print, scenario_of};
use std::alloc::Global;
use std::process::Abort;

const CHAIN_OF_SERVERS: &str = r#"version = 1
cpus = 1
window = 10
ticks = 1
partition = [
  {name = "A", budget = 25}, {name = "B", budget = 25}, {name = "C", budget = 25},
]
channel = [{name = "c1"}, {name = "c2"}, {name = "c3"}]
thread = [
  {name = "x", priority = 40, program = ["receive c1", "send c2", "reply", "repeat"]},
  {name = "y", partition = "B", priority = 30, program = ["receive c2", "join System", "send c3", "reply", "repeat"]},
  {name = "z", partition = "C", priority = 20, program = ["receive c3", "run 10000", "reply", "repeat"]},
  {name = "k", partition = "A", program = ["send c1", "exit"]},
]
"#;

const COMMANDS_ON_THE_TREE: &str = r#"version = 1
cpus = 1
window = 10
ticks = 6
partition = [{name = "A", budget = 40}]
thread = [
  {name = "s", program = ["run forever"]},
  {name = "a", partition = "A", program = ["run forever"]},
]
command = [
  {tick = 1, do = "create", name = "B", parent = "A", budget = 15},
  {tick = 2, do = "create", name = "C", parent = "A", budget = 26},
  {tick = 3, do = "query_partition", partition = "A"},
  {tick = 3, do = "modify", partition = "B", budget = 41},
  {tick = 4, do = "lookup", partition = "B"},
]
"#;

const PARTS_OF_A_THOUSAND: &str = r#"version = 2
cpus = 2
ticks = 9
free = "ratio"
limit = true
bankruptcy = "reboot"
partition = [
  {name = "A", budget = 400},
  {name = "B", parent = "A", budget = 150, critical = 64000000000, max = 900},
  {name = "C", parent = "B", budget = 25},
]
thread = [{name = "s", partition = "C", policy = "rr", critical = true, program = ["sleep 1", "join N", "priority 255", "critical off", "exit"]}]
command = [
  {tick = 0, do = "set_parameters", window = 8, limit = false},
  {tick = 8, do = "create", name = "N", budget = 1000},
  {tick = 8, do = "mark_critical", thread = "s"},
]
"#;

const SMALL: &str = r#"version = 2
cpus = 2
ticks = 9
free = "ratio"
bankruptcy = "reboot"
partition = [
  {name = "A", budget = 400, max = 500},
  {name = "B", parent = "A", budget = 150, critical = 7, max = 900},
]
thread = [
  {name = "s", priority = 3, program = ["run 10", "exit"]},
  {name = "b", partition = "B", priority = 9, policy = "rr", critical = true, program = ["exit"]},
]
command = [{tick = 8, do = "modify", partition = "B", budget = 20}]
"#;

const TEXT_OF_SMALL: &str = r#"bankruptcy = "reboot"
call_ns = 1000
channel = []
cpus = 2
free = "ratio"
limit = false
tick = 1000000
ticks = 9
version = 2
window = 100

[[command]]
budget = 20
do = "modify"
partition = "B"
tick = 8

[[partition]]
budget = 400
critical = 0
max = 500
name = "A"
parent = "System"

[[partition]]
budget = 150
critical = 7
max = 900
name = "B"
parent = "A"

[[thread]]
critical = false
name = "s"
partition = "System"
policy = "fifo"
priority = 3
program = [
    "run 10",
    "exit",
]

[[thread]]
critical = true
name = "b"
partition = "B"
policy = "rr"
priority = 9
program = ["exit"]
"#;

fn is_same_thread(a: &ThreadRow, b: &ThreadRow) -> bool {
    a.name == b.name
        && a.partition == b.partition
        && a.priority == b.priority
        && a.policy == b.policy
        && a.critical == b.critical
        && a.program.ops() == b.program.ops()
}

fn are_same_threads(a: &[ThreadRow], b: &[ThreadRow]) -> bool {
    if a.len() != b.len() {
        return false;
    }
    for i in 0..a.len() {
        if !is_same_thread(&a[i], &b[i]) {
            return false;
        }
    }
    true
}

fn is_same(a: &Scenario, b: &Scenario) -> bool {
    a.shape() == b.shape()
        && a.partitions() == b.partitions()
        && a.channels() == b.channels()
        && are_same_threads(a.threads(), b.threads())
        && a.commands() == b.commands()
}

fn read(rt: &impl Abort, alloc: Global, text: &str) -> Scenario {
    scenario_of(alloc, text.as_bytes()).expect(rt, "a scenario")
}

/// The text as which the scenario that this text is is printed.
fn printed(rt: &impl Abort, alloc: Global, text: &str) -> String {
    print(alloc, &read(rt, alloc, text)).expect(rt, "memory")
}

#[test]
fn what_is_printed_is_read_again(rt: HostRuntime) {
    for text in [CHAIN_OF_SERVERS, COMMANDS_ON_THE_TREE, PARTS_OF_A_THOUSAND] {
        let scenario = read(&rt, rt.alloc(), text);
        let printed = printed(&rt, rt.alloc(), text);
        let again = read(&rt, rt.alloc(), printed.as_str());
        assert!(rt; is_same(&scenario, &again));
    }
}

/// A partition's budget in a text is what it has before its children take theirs.
#[test]
fn budgets_are_printed_as_a_text_gives_them(rt: HostRuntime) {
    let printed = printed(&rt, rt.alloc(), PARTS_OF_A_THOUSAND);
    for line in [
        "version = 2\n",
        "budget = 400\n",
        "budget = 150\n",
        "budget = 25\n",
    ] {
        assert!(rt; printed.contains(line), "{line}");
    }
}

/// The text is written out by hand, from the form that a scenario's text has.
#[test]
fn a_scenario_is_printed_as_its_text(rt: HostRuntime) {
    let printed = printed(&rt, rt.alloc(), SMALL);
    assert_eq!(rt; printed.as_str(), TEXT_OF_SMALL);
}
