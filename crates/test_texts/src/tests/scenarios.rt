//! Texts of scenarios that several tests read, and the answer to a text as one line.
use aps_scenario::{Kind, PathText, ScenarioRefusal, scenario_of};
use std::alloc::Global;
use std::process::Abort;
use std::str::from_utf8;

pub const TWO_EQUAL_PARTITIONS: &str = r#"version = 1
cpus = 1
window = 10
ticks = 20
partition = [{name = "A", budget = 50}]
thread = [
  {name = "s", program = ["run forever"]},
  {name = "a", partition = "A", program = ["run forever"]},
]
"#;

pub const TWO_PROCESSORS: &str = r#"version = 1
cpus = 2
window = 10
ticks = 10
partition = [{name = "A", budget = 50}]
thread = [
  {name = "s0", priority = 20, program = ["run forever"]},
  {name = "s1", priority = 20, program = ["run forever"]},
  {name = "a0", partition = "A", program = ["run forever"]},
  {name = "a1", partition = "A", program = ["run forever"]},
]
"#;

/// The kind and the path of a refusal.
pub fn refusal(rt: &impl Abort, refused: ScenarioRefusal) -> (Kind, PathText) {
    match refused {
        ScenarioRefusal::Refused { kind, path } => (kind, path),
        ScenarioRefusal::NoMemory => panic!(rt; "out of memory"),
    }
}

fn path_of(path: &PathText) -> &str {
    from_utf8(path.text()).unwrap_or("no text")
}

/// An answer as one line: `read`, or the refusal's kind and path.
pub fn line_of(rt: &impl Abort, alloc: Global, refused: Option<ScenarioRefusal>) -> String {
    let Some(refused) = refused else {
        return String::from_str(alloc, "read").expect(rt, "memory");
    };
    let (kind, path) = refusal(rt, refused);
    format!(in alloc; "{} {}", kind, path_of(&path)).expect(rt, "memory")
}

/// A text is answered so as a scenario.
pub fn check(rt: &impl Abort, alloc: Global, text: &[u8], answer: &str) {
    let line = line_of(rt, alloc, scenario_of(alloc, text).err());
    assert_eq!(rt; line.as_str(), answer);
}
