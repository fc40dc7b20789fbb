//! Moments: before the one seen, at the limit, on the boundaries of ticks, and far apart.
use super::calls::{LOWER_FIRST, OneProcessor, Told, Who, at, took};
use aps_live::LiveTurn;

/// A moment before the one seen changes nothing: neither the history, nor who waits. A's wake is told again.
#[test]
fn a_moment_gone_by_changes_nothing(rt: HostRuntime) {
    let mut run = OneProcessor::open(&rt, rt.alloc(), LOWER_FIRST, 10);
    let calls = [
        at(
            1_000_000,
            Told::Wake(Who::S),
            took(0, 1_000_000, None, Some(Who::S), Some(Who::A)),
        ),
        at(
            999_999,
            Told::Wake(Who::A),
            LiveTurn::Back {
                now_seen: 1_000_000,
            },
        ),
        at(
            0,
            Told::Block,
            LiveTurn::Back {
                now_seen: 1_000_000,
            },
        ),
        at(
            1_000_000,
            Told::Stay,
            took(
                1_000_000,
                1_000_000,
                Some(Who::S),
                Some(Who::S),
                Some(Who::A),
            ),
        ),
    ];
    run.check(&rt, &calls);
    assert_eq!(rt; run.seen_len(), 2);
}

/// At the limit a moment before the one seen is told first.
#[test]
fn a_full_history_tells_moments_gone_by_first(rt: HostRuntime) {
    let mut run = OneProcessor::open(&rt, rt.alloc(), LOWER_FIRST, 1);
    let calls = [
        at(
            5,
            Told::Wake(Who::A),
            took(0, 5, None, Some(Who::A), Some(Who::S)),
        ),
        at(4, Told::Stay, LiveTurn::Back { now_seen: 5 }),
        at(5, Told::Stay, LiveTurn::Full),
        at(6, Told::Block, LiveTurn::Full),
        at(4, Told::Stay, LiveTurn::Back { now_seen: 5 }),
    ];
    run.check(&rt, &calls);
    assert_eq!(rt; run.seen_len(), 1);
}

/// `A` has used 4,999,999 ns, and is in budget; then 5,000,000, and isn't. At 9,999,999 ticks 0 to 9 count, with all that `A`
/// used. At 10,000,000 it is ticks 1 to 10, with 4,000,000 of it; and `System` has used 5,000,000.
#[test]
fn a_tick_is_left_behind_at_its_boundary(rt: HostRuntime) {
    let mut run = OneProcessor::open(&rt, rt.alloc(), LOWER_FIRST, 10);
    let calls = [
        at(
            0,
            Told::Wake(Who::A),
            took(0, 0, None, Some(Who::A), Some(Who::S)),
        ),
        at(
            4_999_999,
            Told::Wake(Who::S),
            took(0, 4_999_999, Some(Who::A), Some(Who::A), None),
        ),
        at(
            5_000_000,
            Told::Stay,
            took(4_999_999, 5_000_000, Some(Who::A), Some(Who::S), None),
        ),
        at(
            9_999_999,
            Told::Stay,
            took(5_000_000, 9_999_999, Some(Who::S), Some(Who::S), None),
        ),
        at(
            10_000_000,
            Told::Stay,
            took(9_999_999, 10_000_000, Some(Who::S), Some(Who::A), None),
        ),
    ];
    run.check(&rt, &calls);
}

/// Of the 25 ticks that `A` ran ticks 16 to 24 count at 25,000,000, and 4,000,000 ns of it at 30,000,000, when `System` has
/// used 5,000,000.
#[test]
fn an_interval_outlasts_the_window(rt: HostRuntime) {
    let mut run = OneProcessor::open(&rt, rt.alloc(), LOWER_FIRST, 10);
    let calls = [
        at(
            0,
            Told::Wake(Who::A),
            took(0, 0, None, Some(Who::A), Some(Who::S)),
        ),
        at(
            25_000_000,
            Told::Wake(Who::S),
            took(0, 25_000_000, Some(Who::A), Some(Who::S), None),
        ),
        at(
            29_999_999,
            Told::Stay,
            took(25_000_000, 29_999_999, Some(Who::S), Some(Who::S), None),
        ),
        at(
            30_000_000,
            Told::Stay,
            took(29_999_999, 30_000_000, Some(Who::S), Some(Who::A), None),
        ),
    ];
    run.check(&rt, &calls);
}

/// The last moment that may be told, after an interval of 10,000,000 ticks, 9 of which count.
#[test]
fn the_last_moment_is_taken(rt: HostRuntime) {
    let mut run = OneProcessor::open(&rt, rt.alloc(), LOWER_FIRST, 10);
    let calls = [
        at(
            0,
            Told::Wake(Who::A),
            took(0, 0, None, Some(Who::A), Some(Who::S)),
        ),
        at(
            10_000_000_000_000,
            Told::Wake(Who::S),
            took(0, 10_000_000_000_000, Some(Who::A), Some(Who::S), None),
        ),
        at(
            9_999_999_999_999,
            Told::Stay,
            LiveTurn::Back {
                now_seen: 10_000_000_000_000,
            },
        ),
    ];
    run.check(&rt, &calls);
}
