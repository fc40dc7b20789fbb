//! What is told of refused texts and words: one worked line for each kind of refusal.
use super::scenarios::refusal;
use super::words::owned;
use aps_hints::{Document, Line, Usage, scenario_hint, usage_meant, words_hint};
use aps_scenario::{demands_of, scenario_of};
use std::alloc::Global;
use std::process::Abort;

const HEAD: &str = "version = 1\ncpus = 1\nticks = 20\nchannel = [{name = \"c\"}]\n\
    partition = [{name = \"A\", budget = 60}]\n";

/// Texts that stand behind the head, each with what is told of the whole.
const HINTS: [(&str, &str); 20] = [
    (
        "thread = [{name = \"t\", program = [\"run 80us\", \"exit\"]}]",
        "thread[0].program[0] (thread t, line 6, column 35): \"run 80us\" can't stand here; run takes a number of ns from 1 to 10000000000000, or forever",
    ),
    (
        "thread = [{name = \"t\", program = [\"exit\", \"exit\"]}]",
        "thread[0].program[0] (thread t, line 6, column 35): \"exit\" can't stand here; the last operation, and no other, is run forever, repeat or exit",
    ),
    (
        "thread = [{name = \"t\", program = [\"send d\", \"exit\"]}]",
        "thread[0].program[0] (thread t, line 6, column 35): \"send d\" names nothing; known are \"c\"",
    ),
    (
        "thread = [{name = \"t\", program = [\"join Zed\", \"exit\"]}]",
        "thread[0].program[0] (thread t, line 6, column 35): \"join Zed\" names nothing; known are System, what commands create, \"A\"",
    ),
    (
        "thread = [{name = \"t\", program = [7, \"exit\"]}]",
        "thread[0].program[0] (thread t, line 6, column 35): 7 is of another kind; wanted is a text",
    ),
    (
        "thread = [{name = \"t\", program = []}]",
        "thread[0].program (thread t, line 6, column 24): an array of length 0 is out of range; wanted is an array of 1 to 256 texts",
    ),
    (
        "thread = [{name = \"t\", partition = \"B\", program = [\"exit\"]}]",
        "thread[0].partition (thread t, line 6, column 24): \"B\" names nothing; known are System, \"A\"",
    ),
    (
        "thread = [{name = \"t\", color = 1, program = [\"exit\"]}]",
        "thread[0].color (thread t, line 6, column 24): this key doesn't belong here; the keys are name, partition, priority, policy, critical and program",
    ),
    (
        "thread = [{name = \"a b\", program = [\"exit\"]}]",
        "thread[0].name (line 6, column 12): \"a b\" is no name; wanted is a name of 1 to 15 ASCII letters, digits, _ and -",
    ),
    (
        "thread = [{name = \"t\", priority = 256, program = [\"exit\"]}]",
        "thread[0].priority (thread t, line 6, column 24): 256 is out of range; wanted is a number from 1 to 255",
    ),
    (
        "thread = [{name = \"t\"}]",
        "thread[0].program: this key is missing; it takes an array of 1 to 256 texts",
    ),
    (
        "thread = [true]",
        "thread[0] (line 6, column 11): true is of another kind; wanted is a table",
    ),
    (
        "window = 7",
        "window (line 6, column 1): 7 is out of range; wanted is a number of ticks from 8 to 400",
    ),
    (
        "command = [{tick = 1, do = \"modify\", partition = \"A\"}]",
        "command[0].budget: this key is missing; it takes a number of parts, unless critical or max stands there",
    ),
    (
        "command = [{tick = 1, do = \"lookup\", partition = \"A\", max = 1}]",
        "command[0].max (line 6, column 55): this key doesn't belong here; the keys are tick, do and partition",
    ),
    (
        "command = [{tick = 1, do = \"query_thread\", thread = \"x\"}]",
        "command[0].thread (line 6, column 44): \"x\" names nothing; known are no threads",
    ),
    (
        "command = [{tick = 1, do = \"modfy\", partition = \"A\"}]",
        "command[0].do (line 6, column 23): \"modfy\" is out of range; wanted is create, modify, lookup, query_partition, query_thread, query_parameters, set_parameters, statistics, mark_critical or clear_critical",
    ),
    (
        "command = [{tick = 1, do = 7, budget = 1}]",
        "command[0].do (line 6, column 23): 7 is of another kind; wanted is create, modify, lookup, query_partition, query_thread, query_parameters, set_parameters, statistics, mark_critical or clear_critical",
    ),
    (
        "command = [{tick = 1, doo = \"modify\"}]",
        "command[0].doo (line 6, column 23): this key doesn't belong here; the keys are tick and do, as long as do names no command",
    ),
    (
        "free = \"ratio\\u001b[2J\"",
        "free (line 6, column 1): \"ratio?[2J\" is out of range; wanted is \"priority\" or \"ratio\"",
    ),
];

/// What is told of a text that is no scenario.
fn told(rt: &impl Abort, alloc: Global, text: &[u8]) -> Line {
    let refused = scenario_of(alloc, text).err().expect(rt, "a refusal");
    let (kind, path) = refusal(rt, refused);
    scenario_hint(alloc, text, Document::Scenario, kind, &path).expect(rt, "memory")
}

/// This is told of a text.
fn check(rt: &impl Abort, alloc: Global, text: &[u8], hint: &str) {
    let line = told(rt, alloc, text);
    assert_eq!(rt; line.as_bytes(), hint.as_bytes());
}

/// The text that these texts are, one after the other.
fn joined(rt: &impl Abort, alloc: Global, texts: &[&str]) -> Vec<u8> {
    let mut text = Vec::new(alloc);
    for part in texts {
        push(rt, &mut text, part.as_bytes());
    }
    text
}

fn push(rt: &impl Abort, text: &mut Vec<u8>, piece: &[u8]) {
    text.extend_from_slice(piece).expect(rt, "memory");
}

/// This is told of the text that these texts are, one after the other.
fn check_joined(rt: &impl Abort, alloc: Global, texts: &[&str], hint: &str) {
    let text = joined(rt, alloc, texts);
    check(rt, alloc, &text, hint);
}

// The table is passed on, so that what is proved of the loop is free of its texts.
fn check_all(rt: &impl Abort, alloc: Global, head: &str, cases: &[(&str, &str)]) {
    for (end, hint) in cases {
        check_joined(rt, alloc, &[head, end], hint);
    }
}

#[test]
fn a_refused_scenario_is_told(rt: HostRuntime) {
    check_all(&rt, rt.alloc(), HEAD, &HINTS);
}

/// A text with tables by heads, comments, keys between quotes and a text of several lines, up to a second thread.
const HEADED: &str =
    "\u{feff}# [[thread]] = \"1\nversion = 1\ncpus = 1\nticks = 20 # ]\nfree = '''ratio'''\n\
    \"window\" = 8\n[[ \"thread\" ]]\n'name' = 't'\nprogram = [\n  \"yield\", # \"exit\"]\n\t\"\"\"exit\"\"\"]\n\
    [[thread]]\n";

/// Texts that stand behind it, from line 13 on, each with what is told of the whole.
const PLACES: [(&str, &str); 6] = [
    (
        "name = \"u\"\npriority = 0\nprogram = [\"exit\"]",
        "thread[1].priority (thread u, line 14, column 1): 0 is out of range; wanted is a number from 1 to 255",
    ),
    (
        "name = \"u\"\nprogram = [\"yield\", \"send \\\"]c\", \"exit\"]",
        "thread[1].program[1] (thread u, line 14, column 21): \"send \"]c\" can't stand here; send takes the name of a channel",
    ),
    (
        "  name.x = 1",
        "thread[1].name (line 13, column 3): a table is of another kind; wanted is a name of 1 to 15 ASCII letters, digits, _ and -",
    ),
    (
        "name = \"u\"\nprogram = [\"exit\"]\n[limit]\n",
        "limit (line 15, column 1): a table is of another kind; wanted is true or false",
    ),
    (
        "name = \"u\"\ncolor = {a = [1, 2], b = \"}\"}\nprogram = [\"exit\"]",
        "thread[1].color (thread u, line 14, column 1): this key doesn't belong here; the keys are name, partition, priority, policy, critical and program",
    ),
    (
        "name = \"u\"\n[thread.program]\nx = 1",
        "thread[1].program: a table is of another kind; wanted is an array of 1 to 256 texts",
    ),
];

#[test]
fn the_place_of_a_refused_part_is_told(rt: HostRuntime) {
    check_all(&rt, rt.alloc(), HEADED, &PLACES);
    let hint = "version (line 1, column 4): 3 is out of range; wanted is 1 or 2";
    check(&rt, rt.alloc(), b"\xef\xbb\xbfversion = 3\n", hint);
}

#[test]
fn the_place_where_a_text_stops_being_toml_is_told(rt: HostRuntime) {
    let text = joined(&rt, rt.alloc(), &[HEAD, "window = ["]);
    let line = told(&rt, rt.alloc(), &text);
    let place = b"-: this is no TOML document; it stops being one at line 6, column 11: ";
    assert!(rt; line.as_bytes().starts_with(place.as_slice()));
}

#[test]
fn partitions_are_told(rt: HostRuntime) {
    let head = "version = 1\ncpus = 1\nticks = 20\npartition = [{name = \"A\", budget = 60}, ";
    let hints = [
        (
            "{name = \"B\", budget = 41}]",
            "partition[1].budget (line 4, column 54): 41 is more than the parent has left; that is 40",
        ),
        (
            "{name = \"A\", budget = 1}]",
            "partition[1].name (line 4, column 42): \"A\" is taken; each partition has a name of its own, and System is one",
        ),
        (
            "{name = \"B\", budget = 1, parent = \"B\"}]",
            "partition[1].parent (line 4, column 66): \"B\" names nothing; known are System, \"A\"",
        ),
    ];
    check_all(&rt, rt.alloc(), head, &hints);
}

#[test]
fn bytes_that_are_no_text_are_told(rt: HostRuntime) {
    let hint = "-: this is no TOML document; it stops being one at line 2, column 3: no UTF-8";
    check(&rt, rt.alloc(), b"version = 1\n# \xff\n", hint);
}

/// So many letters between two texts.
fn between(rt: &impl Abort, alloc: Global, before: &str, count: usize, after: &str) -> Vec<u8> {
    let mut text = Vec::new(alloc);
    push(rt, &mut text, before.as_bytes());
    for _ in 0..count {
        push(rt, &mut text, b"x");
    }
    push(rt, &mut text, after.as_bytes());
    text
}

#[test]
fn a_long_value_is_cut(rt: HostRuntime) {
    let text = between(&rt, rt.alloc(), "version = 1\ncpus = \"", 2000, "\"\n");
    let line = told(&rt, rt.alloc(), &text);
    let end = "..\" is of another kind; wanted is a number from 1 to 16";
    let hint = between(&rt, rt.alloc(), "cpus (line 2, column 1): \"", 80, end);
    assert_eq!(rt; line.as_bytes(), hint.as_slice());
}

#[test]
fn refused_demands_are_told(rt: HostRuntime) {
    let text = b"version = 1\ncpus = 1\nticks = 20\n";
    let refused = demands_of(rt.alloc(), text).err().expect(&rt, "a refusal");
    let (kind, path) = refusal(&rt, refused);
    let hint = scenario_hint(rt.alloc(), text, Document::Demands, kind, &path);
    let line = hint.expect(&rt, "memory");
    assert_eq!(rt;
        line.as_bytes(),
        b"ticks (line 3, column 1): this key doesn't belong here; the keys are version, cpus, tick, window and demand".as_slice()
    );
}

#[test]
fn the_usage_of_the_command_is_told(rt: HostRuntime) {
    let none = Vec::new(rt.alloc());
    assert!(rt; usage_meant(&none) == Usage::All);
    let words = owned(&rt, rt.alloc(), &["admit", "--limit"]);
    assert!(rt; usage_meant(&words) == Usage::Admit);
    assert!(rt; words_hint(&words) == "usage: apsim admit < DEMANDS.toml\n");
}
