//! Two runs call by call, and the histories that they leave.
use super::calls::{EQUALS, LOWER_FIRST, OneProcessor, Told, Who, at, took};
use aps_live::{LiveEvent, LiveTurn};
use aps_model::ThreadId;

/// Of the 8,000,000 ns of `System` only 3,000,000 lie in ticks 5 to 14, so at 14,500,000 it is in budget, and `A`, which ran
/// 6,500,000, isn't.
#[test]
fn a_long_interval_is_billed_where_it_lies(rt: HostRuntime) {
    let mut run = OneProcessor::open(&rt, rt.alloc(), LOWER_FIRST, 4);
    let calls = [
        at(
            0,
            Told::Wake(Who::S),
            took(0, 0, None, Some(Who::S), Some(Who::A)),
        ),
        at(
            8_000_000,
            Told::Block,
            took(0, 8_000_000, Some(Who::S), None, Some(Who::S)),
        ),
        at(
            8_000_000,
            Told::Wake(Who::A),
            took(8_000_000, 8_000_000, None, Some(Who::A), Some(Who::S)),
        ),
        at(
            7_999_999,
            Told::Stay,
            LiveTurn::Back {
                now_seen: 8_000_000,
            },
        ),
        at(
            14_500_000,
            Told::Wake(Who::S),
            took(8_000_000, 14_500_000, Some(Who::A), Some(Who::S), None),
        ),
        at(14_500_000, Told::Stay, LiveTurn::Full),
    ];
    run.check(&rt, &calls);
    let events = [
        LiveEvent::Wake(ThreadId::at(0)),
        LiveEvent::Block,
        LiveEvent::Wake(ThreadId::at(1)),
        LiveEvent::Wake(ThreadId::at(0)),
    ];
    let history = run.close();
    assert!(rt; history.entries().len() == 4);
    assert!(rt; history.events() == events.as_slice());
}

/// At 2,500,000 `A` is picked because it has used nothing: both threads have one priority, and `System` has used 2,500,000 ns.
/// `A` ran 6,500,000 ns of ticks 0 to 9, more than its 5,000,000, since nobody asked in between.
#[test]
fn nobody_is_stopped_between_two_calls(rt: HostRuntime) {
    let mut run = OneProcessor::open(&rt, rt.alloc(), EQUALS, 10);
    let calls = [
        at(
            0,
            Told::Wake(Who::S),
            took(0, 0, None, Some(Who::S), Some(Who::A)),
        ),
        at(
            2_500_000,
            Told::Wake(Who::A),
            took(0, 2_500_000, Some(Who::S), Some(Who::A), None),
        ),
        at(
            9_000_000,
            Told::Block,
            took(
                2_500_000,
                9_000_000,
                Some(Who::A),
                Some(Who::S),
                Some(Who::A),
            ),
        ),
    ];
    run.check(&rt, &calls);
}
