//! The replies of upgraded scenarios.
use aps_core::Core;
use aps_model::{Answer, CtlRefusal, Order, PartitionId, Reply, Scenario};
use aps_scenario::{scenario_of, upgrade};
use laws_upgrade::upgraded_reply;
use std::alloc::Global;
use std::process::Abort;

const TREE_COMMANDS: &str = r#"version = 1
cpus = 1
window = 10
ticks = 6
partition = [{name = "A", budget = 40}]
thread = [
  {name = "s", program = ["run forever"]},
  {name = "a", partition = "A", program = ["run forever"]},
]
command = [
  {tick = 1, do = "create", name = "B", parent = "A", budget = 15},
  {tick = 2, do = "create", name = "C", parent = "A", budget = 26},
  {tick = 3, do = "query_partition", partition = "A"},
  {tick = 3, do = "modify", partition = "B", budget = 41},
  {tick = 4, do = "lookup", partition = "B"},
]
"#;

const MAXIMUM_BELOW_THE_BUDGET: &str = r#"version = 1
cpus = 1
window = 10
ticks = 3
partition = [{name = "A", budget = 40}]
thread = [{name = "s", program = ["run forever"]}]
command = [
  {tick = 1, do = "modify", partition = "A", max = 30},
  {tick = 2, do = "query_parameters"},
]
"#;

fn read(rt: &impl Abort, alloc: Global, text: &str) -> Scenario {
    scenario_of(alloc, text.as_bytes()).expect(rt, "a scenario")
}

/// The replies of the whole run of a scenario.
fn replies_of(rt: &impl Abort, alloc: Global, scenario: Scenario) -> Vec<Reply> {
    let mut core = Core::boot(alloc, scenario, Order::Fixed, 1000).expect(rt, "memory");
    let _end = core.finish();
    core.history().replies().to_vec(alloc).expect(rt, "memory")
}

/// The replies of the run of the upgraded scenario.
fn upgraded_replies(rt: &impl Abort, alloc: Global, text: &str) -> Vec<Reply> {
    replies_of(rt, alloc, upgrade(read(rt, alloc, text)))
}

/// Whether each reply of the upgraded run is the upgraded one of the reply of the run.
fn are_upgraded(before: &[Reply], after: &[Reply]) -> bool {
    if before.len() != after.len() {
        return false;
    }
    for i in 0..before.len() {
        if upgraded_reply(&before[i]) != Some(after[i]) {
            return false;
        }
    }
    true
}

#[test]
fn an_upgraded_run_gives_the_upgraded_replies(rt: HostRuntime) {
    for (text, count) in [(TREE_COMMANDS, 5), (MAXIMUM_BELOW_THE_BUDGET, 2)] {
        let before = replies_of(&rt, rt.alloc(), read(&rt, rt.alloc(), text));
        let after = upgraded_replies(&rt, rt.alloc(), text);
        assert_eq!(rt; after.len(), count);
        assert!(rt; are_upgraded(&before, &after));
    }
}

#[test]
fn the_least_maximum_is_told_in_thousandths(rt: HostRuntime) {
    let replies = upgraded_replies(&rt, rt.alloc(), MAXIMUM_BELOW_THE_BUDGET);
    let why = CtlRefusal::BadMax {
        partition: PartitionId::at(1),
        least: 400,
    };
    let refused = Reply {
        command: 0,
        answer: Answer::Refused(why),
    };
    assert!(rt; replies.first() == Some(&refused));
}
