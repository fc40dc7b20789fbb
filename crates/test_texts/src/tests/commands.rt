//! The timed commands of a scenario, as they come.
use aps_ctl::Ctl;
use aps_model::{Call, Name};
use aps_scenario::scenario_of;
use std::alloc::Global;
use std::process::Abort;

const THREE_COMMANDS: &str = r#"version = 1
cpus = 1
ticks = 4
command = [
  {tick = 3, do = "query_parameters"},
  {tick = 1, do = "lookup", partition = "System"},
  {tick = 3, do = "set_parameters", limit = true},
]
"#;

fn commands_of(rt: &impl Abort, alloc: Global, text: &str) -> Ctl {
    let scenario = scenario_of(alloc, text.as_bytes()).expect(rt, "a scenario");
    Ctl::new(alloc, &scenario).expect(rt, "memory")
}

/// The next command of the tick, with its place in the scenario.
fn next(commands: &mut Ctl, tick: u32) -> Option<(u16, Call)> {
    commands.next_at(tick)
}

#[test]
fn commands_come_by_tick_and_then_by_place(rt: HostRuntime) {
    let lookup = Call::Lookup {
        partition: Name::new(b"System").expect(&rt, "a name"),
    };
    let set = Call::SetParameters {
        window: None,
        free: None,
        limit: Some(true),
        bankruptcy: None,
    };
    let mut commands = commands_of(&rt, rt.alloc(), THREE_COMMANDS);
    assert!(rt; next(&mut commands, 3) == Some((0, Call::QueryParameters)));
    assert!(rt; next(&mut commands, 1) == Some((1, lookup)));
    assert!(rt; next(&mut commands, 3) == Some((2, set)));
    assert!(rt; next(&mut commands, 3) == None);
    assert!(rt; next(&mut commands, 1) == None);
}
