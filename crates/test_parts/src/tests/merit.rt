//! Pairs of threads, compared as by hand.
ghost use Rattle.std.specs.Prelude.{◌≡◌};

use aps_merit::{is_below, is_candidate, is_critical_pick, is_greater, merit_of};
use aps_model::{Facts, Free, PartFacts, PartitionId};

fn part(funded: bool, used: u64, budget: u16) -> PartFacts
    ensures used { result.used ≡ used }
    ensures budget { result.budget ≡ budget }
{
    PartFacts {
        funded,
        standing: true,
        shut: !funded,
        used,
        budget,
    }
}

fn facts(priority: u8, critical: bool) -> Facts {
    Facts {
        partition: PartitionId::at(0),
        priority,
        critical,
    }
}

#[test]
fn close_fractions_are_not_cut(rt: HostRuntime) {
    let free = Free::Priority;
    let system = merit_of(facts(10, false), 0, &part(true, 103, 34));
    let other = merit_of(facts(10, false), 1, &part(true, 100, 33));
    assert!(rt; is_greater(&system, &other, free));
    assert!(rt; !is_greater(&other, &system, free));
    assert!(rt; !is_below(&system, &other, free));
}

#[test]
fn a_critical_thread_runs_past_its_maximum(rt: HostRuntime) {
    let spent = part(false, 300, 30);
    assert!(rt; is_critical_pick(facts(10, true), &spent));
    assert!(rt; is_candidate(facts(10, true), &spent));
    assert!(rt; !is_candidate(facts(10, false), &spent));
}

#[test]
fn class_comes_before_priority(rt: HostRuntime) {
    let low = merit_of(facts(1, false), 1, &part(true, 9, 10));
    let high = merit_of(facts(255, false), 0, &part(false, 0, 10));
    for free in [Free::Priority, Free::Ratio] {
        assert!(rt; is_greater(&low, &high, free));
        assert!(rt; !is_greater(&high, &low, free));
        assert!(rt; is_below(&high, &low, free));
    }
}

#[test]
fn free_time_by_ratio_goes_to_the_smaller_fraction(rt: HostRuntime) {
    let low = merit_of(facts(1, false), 1, &part(false, 30, 30));
    let high = merit_of(facts(9, false), 0, &part(false, 21, 20));
    assert!(rt; is_greater(&low, &high, Free::Ratio));
    assert!(rt; is_greater(&high, &low, Free::Priority));
    assert!(rt; !is_below(&low, &high, Free::Ratio));
    assert!(rt; is_below(&low, &high, Free::Priority));
}

#[test]
fn a_budget_of_nothing_is_the_greatest_fraction(rt: HostRuntime) {
    let none = merit_of(facts(10, false), 0, &part(false, 0, 0));
    let over = merit_of(facts(10, false), 2, &part(false, 900, 1));
    let other = merit_of(facts(10, false), 1, &part(false, 7, 0));
    assert!(rt; is_greater(&over, &none, Free::Ratio));
    assert!(rt; is_greater(&none, &other, Free::Ratio));
    assert!(rt; !is_greater(&other, &none, Free::Ratio));
}
