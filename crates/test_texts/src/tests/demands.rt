//! Texts of demands: those that are read, and those that are refused, as one table.
use super::scenarios::line_of;
use aps_model::{Bankruptcy, Demand, Free, Name, Shape};
use aps_scenario::{Demands, demands_of};
use std::alloc::Global;
use std::process::Abort;

const TWO_DEMANDS: &str = r#"version = 1
cpus = 2
demand = [{name = "A", need = 30000000}, {name = "B", need = 64000000000}]
"#;

const OTHER_THAN_THE_DEFAULTS: &str = r#"version = 2
cpus = 16
tick = 2000000
window = 8
"#;

const REFUSED: [(&str, &str); 18] = [
    ("", "missing version"),
    ("version = 1", "missing cpus"),
    ("version 1", "not-toml -"),
    ("version = 3\ncpus = 17", "out-of-range version"),
    ("version = 1\ncpus = 1\nticks = 5", "unknown-key ticks"),
    ("version = 1\ncpus = 1\nwindow = 401", "out-of-range window"),
    ("version = 1\ncpus = 1\ndemand = 1", "wrong-kind demand"),
    (
        "version = 1\ncpus = 1\ndemand = [1]",
        "wrong-kind demand[0]",
    ),
    (
        "version = 1\ncpus = 1\ndemand = [{}]",
        "missing demand[0].name",
    ),
    (
        "version = 1\ncpus = 1\ndemand = [{name = \"A\"}]",
        "missing demand[0].need",
    ),
    (
        "version = 1\ncpus = 1\ndemand = [{name = \"A\", need = 1, budget = 1}]",
        "unknown-key demand[0].budget",
    ),
    (
        "version = 1\ncpus = 1\ndemand = [{name = \"A b\", need = true}]",
        "bad-name demand[0].name",
    ),
    (
        "version = 1\ncpus = 1\ndemand = [{name = \"A\", need = \"1\"}]",
        "wrong-kind demand[0].need",
    ),
    (
        "version = 1\ncpus = 1\ndemand = [{name = \"A\", need = -1}]",
        "out-of-range demand[0].need",
    ),
    (
        "version = 1\ncpus = 1\ndemand = [{name = \"A\", need = 64000000001}]",
        "out-of-range demand[0].need",
    ),
    (
        "version = 1\ncpus = 1\ndemand = [{name = \"System\", need = 1}]",
        "duplicate demand[0].name",
    ),
    (
        "version = 1\ncpus = 1\ndemand = [{name = \"A\", need = 0}, {name = \"A\", need = 0}]",
        "duplicate demand[1].name",
    ),
    (
        "version = 1\ncpus = 1\ndemand = [1,1,1,1,1,1,1,1,1,1,1,1,1,1,1,1,1,1,1,1,1,1,1,1,1,1,1,1,1,1,1,1]",
        "out-of-range demand",
    ),
];

/// A text is answered so as demands.
fn check(rt: &impl Abort, alloc: Global, text: &str, answer: &str) {
    let line = line_of(rt, alloc, demands_of(alloc, text.as_bytes()).err());
    assert_eq!(rt; line.as_str(), answer);
}

fn read(rt: &impl Abort, alloc: Global, text: &str) -> Demands {
    demands_of(alloc, text.as_bytes()).expect(rt, "demands")
}

fn demand(rt: &impl Abort, name: &[u8], need: u64) -> Demand {
    Demand {
        name: Name::new(name).expect(rt, "a name"),
        need,
    }
}

/// The shape of two processors, where nothing else is given.
const SHAPE: Shape = Shape {
    parts: 100,
    cpus: 2,
    tick: 1_000_000,
    window: 100,
    ticks: 1,
    call_ns: 1000,
    free: Free::Priority,
    limit: false,
    bankruptcy: Bankruptcy::Basic,
};

#[test]
fn demands_are_read(rt: HostRuntime) {
    let read = read(&rt, rt.alloc(), TWO_DEMANDS);
    assert!(rt; *read.shape() == SHAPE);
    let demands = [
        demand(&rt, b"A", 30_000_000),
        demand(&rt, b"B", 64_000_000_000),
    ];
    assert!(rt; read.as_slice() == demands.as_slice());
}

#[test]
fn sizes_are_read(rt: HostRuntime) {
    let read = read(&rt, rt.alloc(), OTHER_THAN_THE_DEFAULTS);
    let shape = Shape {
        parts: 1000,
        cpus: 16,
        tick: 2_000_000,
        window: 8,
        ..SHAPE
    };
    assert!(rt; *read.shape() == shape);
    assert_eq!(rt; read.as_slice().len(), 0);
}

// The table is passed on, so that what is proved of the loop is free of its texts.
fn check_all(rt: &impl Abort, alloc: Global, cases: &[(&str, &str)]) {
    for (text, answer) in cases {
        check(rt, alloc, text, answer);
    }
}

#[test]
fn other_texts_are_refused(rt: HostRuntime) {
    check_all(&rt, rt.alloc(), &REFUSED);
}
