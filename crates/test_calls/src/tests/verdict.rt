//! Verdicts on the journal of a small generated load, and on other short ones. Spoiled journals are judged beside these, as calls of
//! the whole program (`worked`).
ghost use Rattle.std.specs.Prelude.{◌≤◌};
ghost use Rattle.aps_model.specs.Limits.{IsIn, most_entries};

use aps_check::text::print_verdict;
use aps_check::{Rule, Verdict, check, check_text};
use aps_core::Core;
use aps_gen::generate;
use aps_model::{CpuId, Done, End, Entry, Order, PartitionId, Scenario};
use aps_text::{JournalRefusal, print_journal};
use std::alloc::Global;
use std::process::Abort;

const LIMIT: u32 = 1000;

/// A load of two processors and two partitions, for three ticks.
fn load(rt: &impl Abort, alloc: Global) -> Scenario {
    generate(alloc, 7, 2, 2, 3).expect(rt, "memory")
}

/// The journal of its run in fixed order.
fn journal(rt: &impl Abort, alloc: Global) -> Vec<Entry> {
    let mut core = Core::boot(alloc, load(rt, alloc), Order::Fixed, LIMIT).expect(rt, "memory");
    let _end = core.finish();
    core.history().entries().to_vec(alloc).expect(rt, "memory")
}

/// What is said of a journal of the load, in this order and up to this limit, and of its text.
fn judge(rt: &impl Abort, alloc: Global, order: Order, limit: u32, journal: &[Entry]) -> Verdict
    requires { IsIn 1 most_entries limit }
{
    let load = load(rt, alloc);
    let verdict = check(alloc, &load, order, limit, journal).expect(rt, "memory");
    let text = print_journal(alloc, journal).expect(rt, "memory");
    assert!(rt; text.len() < 10_000);
    let told = check_text(alloc, &load, order, limit, text.as_bytes()).expect(rt, "a journal");
    assert_eq!(rt; told, verdict);
    verdict
}

fn breaks(entry: u32, rule: Rule, expected: Option<Entry>) -> Verdict {
    Verdict::Breaks {
        entry,
        rule,
        expected,
    }
}

/// An entry that no step has: at its first turn a processor picks or is starved.
fn blank(cpu: usize) -> Entry
    requires { cpu ≤ 15 }
{
    Entry {
        from: 0,
        to: 0,
        done: Done::Nothing,
        ran: None,
        picked: None,
        billed: None,
        starved: None,
        flagged: None,
        cpu: CpuId::at(cpu),
        critical: false,
    }
}

#[test]
fn the_journal_of_a_run_is_legal(rt: HostRuntime) {
    let entries = journal(&rt, rt.alloc());
    let legal = Verdict::Legal {
        end: Some(End::Horizon),
    };
    for order in [Order::Fixed, Order::Free] {
        let verdict = judge(&rt, rt.alloc(), order, LIMIT, &entries);
        assert_eq!(rt; verdict, legal);
    }
}

#[test]
fn an_end_bars_further_entries(rt: HostRuntime) {
    let entries = journal(&rt, rt.alloc());
    let [first, second, third, ..] = entries.as_slice() else {
        panic!(rt; "no third entry");
    };
    let longer = [*first, *second, *third, *third];
    let limited = Verdict::Legal {
        end: Some(End::Limit),
    };
    let verdict = judge(&rt, rt.alloc(), Order::Fixed, 3, &longer[..3]);
    assert_eq!(rt; verdict, limited);
    let verdict = judge(&rt, rt.alloc(), Order::Fixed, 3, &longer);
    assert_eq!(rt; verdict, breaks(3, Rule::After, None));
}

/// The first entry of processor 1, as it is told where another one stands.
fn first_of_one(rt: &impl Abort, alloc: Global) -> Entry {
    let verdict = judge(rt, alloc, Order::Free, LIMIT, &[blank(1)]);
    match verdict {
        Verdict::Breaks {
            expected: Some(step),
            ..
        } => step,
        _ => panic!(rt; "processor 1 has no turn"),
    }
}

#[test]
fn turns_are_taken_in_their_order(rt: HostRuntime) {
    let open = Verdict::Legal { end: None };
    let out_of_turn = breaks(0, Rule::Turn, None);
    let first = [first_of_one(&rt, rt.alloc())];
    let other = [blank(2)];
    assert_eq!(rt; judge(&rt, rt.alloc(), Order::Fixed, LIMIT, &[]), open);
    assert_eq!(rt; judge(&rt, rt.alloc(), Order::Free, LIMIT, &first), open);
    let fixed = judge(&rt, rt.alloc(), Order::Fixed, LIMIT, &first);
    assert_eq!(rt; fixed, out_of_turn);
    let free = judge(&rt, rt.alloc(), Order::Free, LIMIT, &other);
    assert_eq!(rt; free, out_of_turn);
}

#[test]
fn a_bad_line_is_told_whatever_breaks_before_it(rt: HostRuntime) {
    let text = "2 0 0 - - - - - - -\n0 0 0 - - - - - - x\n";
    let load = load(&rt, rt.alloc());
    match check_text(rt.alloc(), &load, Order::Fixed, LIMIT, text.as_bytes()) {
        Err(JournalRefusal::BadLine { line, column }) => assert_eq!(rt; (line, column), (2, 19)),
        _ => panic!(rt; "not refused"),
    }
}

#[test]
fn verdicts_have_their_texts(rt: HostRuntime) {
    let rebooted = Some(End::Reboot(PartitionId::at(31)));
    let texts = [
        (Verdict::Legal { end: rebooted }, "check legal reboot 31\n"),
        (Verdict::Legal { end: None }, "check legal open\n"),
        (
            breaks(4_000_000, Rule::After, None),
            "check breaks 4000000 after\n",
        ),
    ];
    for (verdict, text) in texts {
        let printed = print_verdict(rt.alloc(), &verdict).expect(&rt, "memory");
        assert_eq!(rt; printed.as_str(), text);
    }
}
