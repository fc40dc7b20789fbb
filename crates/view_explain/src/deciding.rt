//! By which test one merit is greater than another.
ghost use Rattle.std.specs.Prelude.{◌≡◌, ◌≤◌};
ghost use Rattle.aps_model.specs.Limits.{most_used, thousandths};
ghost use Rattle.view_explain.specs.Ahead as spec;

use aps_model::{Free, Merit, less_fraction};

/// What two threads are compared by, in the order of the tests: the class, the priority, the fraction of the budget that is used,
/// and the stamp. Between two of class 0 the fraction comes before the priority where free time goes by ratio.
#[derive(Clone, Copy, PartialEq, Eq)]
pub enum Test {
    Class,
    Priority,
    Fraction,
    Stamp,
}

/// The first test that decides between two merits, where `a` is the greater one by it; none where `a` isn't greater than `b`.
///
/// Used times are at most 100,000,000,000,000 ns and budgets at most 1,000 parts, so that no product overflows.
pub fn ahead(a: &Merit, b: &Merit, free: Free) -> Option<Test>
    requires used_a { a.now.used ≤ most_used }
    requires budget_a { a.now.budget ≤ thousandths }
    requires used_b { b.now.used ≤ most_used }
    requires budget_b { b.now.budget ≤ thousandths }
    ensures { result ≡ spec.ahead free a.now b.now }
{
    let by_stamp = by_stamp(a, b);
    if free == Free::Ratio && a.class == 0 && b.class == 0 {
        by_fraction(a, b, by_priority(a, b, by_stamp))
    } else {
        by_class(a, b, by_priority(a, b, by_fraction(a, b, by_stamp)))
    }
}

fn by_class(a: &Merit, b: &Merit, rest: Option<Test>) -> Option<Test>
    ensures { result ≡ spec.by_class a.now b.now rest }
{
    decided(Test::Class, a.class > b.class, a.class < b.class, rest)
}

fn by_priority(a: &Merit, b: &Merit, rest: Option<Test>) -> Option<Test>
    ensures { result ≡ spec.by_priority a.now b.now rest }
{
    decided(
        Test::Priority,
        a.priority > b.priority,
        a.priority < b.priority,
        rest,
    )
}

fn by_fraction(a: &Merit, b: &Merit, rest: Option<Test>) -> Option<Test>
    requires used_a { a.now.used ≤ most_used }
    requires budget_a { a.now.budget ≤ thousandths }
    requires used_b { b.now.used ≤ most_used }
    requires budget_b { b.now.budget ≤ thousandths }
    ensures { result ≡ spec.by_fraction a.now b.now rest }
{
    let greater = less_fraction(a.used, a.budget, b.used, b.budget);
    let less = less_fraction(b.used, b.budget, a.used, a.budget);
    decided(Test::Fraction, greater, less, rest)
}

fn by_stamp(a: &Merit, b: &Merit) -> Option<Test>
    ensures { result ≡ spec.by_stamp a.now b.now }
{
    if a.stamp < b.stamp {
        Some(Test::Stamp)
    } else {
        None
    }
}

/// The test decides where one is greater by it, or less. Else the rest does.
fn decided(test: Test, greater: bool, less: bool, rest: Option<Test>) -> Option<Test>
    ensures { result ≡ spec.decided test greater less rest }
{
    if greater {
        Some(test)
    } else if less {
        None
    } else {
        rest
    }
}
