//! How ready threads compare: merits, which of two is greater, who is a candidate, and which picks are critical. Of these the
//! core takes which picks are critical, and who is a candidate where all partitions are asked for; its queues find the
//! greatest candidate by the same definitions. `docs/DEFINITIONS.md` has the rules in words.
//!
//! Used times are ns of the partition in the window, budgets are parts of all processor time, 100 or 1,000 in all.
#![tactic(auto)]

ghost use Rattle.std.specs.Prelude.{◌≡◌, ◌≤◌};
ghost use Rattle.aps_model.specs.Limits.{most_used, thousandths};
ghost use Rattle.aps_model.specs.Merit.{merit_of, is_critical_pick, is_candidate, is_greater, is_below};

use aps_model::{Facts, Free, Merit, PartFacts, less_fraction};

/// The merit of a thread with these values, in a partition that stands so. Its class is 1 where the partition is in
/// budget, or where the thread is critical and the partition has critical budget left; else 0.
pub fn merit_of(facts: Facts, stamp: u64, part: &PartFacts) -> Merit
    ensures { result ≡ merit_of facts stamp part.now }
{
    Merit {
        class: if part.funded || (facts.critical && part.standing) {
            1
        } else {
            0
        },
        priority: facts.priority,
        used: part.used,
        budget: part.budget,
        stamp,
    }
}

/// Whether the pick of the thread would be critical: the thread is, and its partition is out of budget and has critical
/// budget left.
pub fn is_critical_pick(facts: Facts, part: &PartFacts) -> bool
    ensures { result ≡ is_critical_pick facts part.now }
{
    !part.funded && facts.critical && part.standing
}

/// Whether a ready thread is a candidate: its partition isn't shut, or its pick would be critical.
pub fn is_candidate(facts: Facts, part: &PartFacts) -> bool
    ensures { result ≡ is_candidate facts part.now }
{
    !part.shut || is_critical_pick(facts, part)
}

/// Whether `a` is greater than `b` under this policy of free time: the higher class is, then the higher priority, then
/// the smaller fraction of the budget that is used, then the smaller stamp. Between two of class 0 the fraction comes
/// before the priority where free time goes by ratio. A budget of 0 counts as a larger fraction than any other. Of two
/// merits with different stamps exactly one is greater.
///
/// Used times are at most 100,000,000,000,000 ns and budgets at most 1,000 parts, so that no product overflows.
pub fn is_greater(a: &Merit, b: &Merit, free: Free) -> bool
    requires used_a { a.now.used ≤ most_used }
    requires budget_a { a.now.budget ≤ thousandths }
    requires used_b { b.now.used ≤ most_used }
    requires budget_b { b.now.budget ≤ thousandths }
    ensures { result ≡ is_greater free a.now b.now }
{
    let a_smaller = less_fraction(a.used, a.budget, b.used, b.budget);
    let b_smaller = less_fraction(b.used, b.budget, a.used, a.budget);
    if free == Free::Ratio && a.class == 0 && b.class == 0 {
        if a_smaller || b_smaller {
            a_smaller
        } else if a.priority != b.priority {
            a.priority > b.priority
        } else {
            a.stamp < b.stamp
        }
    } else if a.class != b.class {
        a.class > b.class
    } else if a.priority != b.priority {
        a.priority > b.priority
    } else if a_smaller || b_smaller {
        a_smaller
    } else {
        a.stamp < b.stamp
    }
}

/// Whether a running thread is below the greatest candidate that is left: it has a lower class, or the same class and a
/// lower priority. Between two of class 0 it never is where free time goes by ratio.
pub fn is_below(running: &Merit, left: &Merit, free: Free) -> bool
    ensures { result ≡ is_below free running.now left.now }
{
    if running.class != left.class {
        return running.class < left.class;
    }
    let is_by_ratio = free == Free::Ratio && running.class == 0 && left.class == 0;
    !is_by_ratio && running.priority < left.priority
}
