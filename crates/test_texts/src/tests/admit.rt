//! Worked demands: the text that each gives.
ghost use Rattle.std.specs.Prelude.{◌≡◌, ◌≤◌, All, length};
ghost use Rattle.aps_model.specs.Shape.{IsShape};
ghost use Rattle.aps_admit.specs.Admission.{IsNeed};

use aps_admit::{Granted, Grants, admit, print};
use aps_model::{Bankruptcy, Demand, Free, Name, Shape};
use std::alloc::Global;
use std::process::Abort;

/// The greatest need.
const MOST: u64 = 64_000_000_000;

const SHAPE: Shape = Shape {
    parts: 100,
    cpus: 2,
    tick: 1_000_000,
    window: 100,
    ticks: 1,
    call_ns: 1000,
    free: Free::Priority,
    limit: false,
    bankruptcy: Bankruptcy::Basic,
};

/// `A` for the first demand, and `B` for each other.
fn name_of(place: usize) -> Name {
    if place == 0 {
        Name::new(b"A").unwrap()
    } else {
        Name::new(b"B").unwrap()
    }
}

/// Demands of these needs.
fn demands_of(rt: &impl Abort, alloc: Global, needs: &[u64]) -> Vec<Demand>
    requires { length needs.now ≤ 31 }
    ensures few { length result.items ≤ 31 }
    ensures needs { All IsNeed result.items }
{
    let mut demands = Vec::new(alloc);
    for i in 0..needs.len() {
        let need = needs[i].min(MOST);
        let demand = Demand {
            name: name_of(i),
            need,
        };
        demands.push(demand).expect(rt, "memory");
    }
    demands
}

/// This text is answered to demands of these needs.
fn check(rt: &impl Abort, alloc: Global, shape: &Shape, needs: &[u64], text: &str)
    requires shape { IsShape shape.now }
    requires few { length needs.now ≤ 31 }
{
    let demands = demands_of(rt, alloc, needs);
    let answer = admit(alloc, shape, &demands).expect(rt, "memory");
    let printed = print(alloc, &answer).expect(rt, "memory");
    assert_eq!(rt; printed.as_str(), text);
}

#[test]
fn two_processors(rt: HostRuntime) {
    let text =
        "admit budgets 1\nbudget A 17 allowance 34000000 below 32000000\nbudget B 27 allowance 54000000 below 52000000\nsum 44\n";
    check(&rt, rt.alloc(), &SHAPE, &[30_000_000, 50_000_000], text);
}

#[test]
fn thousandths(rt: HostRuntime) {
    let shape = Shape {
        parts: 1000,
        ..SHAPE
    };
    let text =
        "admit budgets 1\nbudget A 170 allowance 34000000 below 33800000\nbudget B 270 allowance 54000000 below 53800000\nsum 440\n";
    check(&rt, rt.alloc(), &shape, &[30_000_000, 50_000_000], text);
}

#[test]
fn one_more_takes_a_part_more(rt: HostRuntime) {
    let text =
        "admit budgets 1\nbudget A 18 allowance 36000000 below 34000000\nbudget B 27 allowance 54000000 below 52000000\nsum 45\n";
    check(&rt, rt.alloc(), &SHAPE, &[30_000_001, 50_000_000], text);
}

#[test]
fn two_wholes_are_too_much(rt: HostRuntime) {
    let needs = [100_000_000, 100_000_000];
    check(&rt, rt.alloc(), &SHAPE, &needs, "admit needs 104\n");
}

#[test]
fn nobody_asks(rt: HostRuntime) {
    check(&rt, rt.alloc(), &SHAPE, &[], "admit budgets 1\nsum 0\n");
}

#[test]
fn need_of_nothing_takes_the_slack(rt: HostRuntime) {
    let text = "admit budgets 1\nbudget A 1 allowance 2000000 below 0\nsum 1\n";
    check(&rt, rt.alloc(), &SHAPE, &[0], text);
}

/// Each takes the slack of all, which is 31 parts of 100.
#[test]
fn thirty_one_ask_nothing(rt: HostRuntime) {
    check(&rt, rt.alloc(), &SHAPE, &[0; 31], "admit needs 961\n");
}

#[test]
fn grants_give_their_list_back(rt: HostRuntime) {
    let granted = Granted {
        name: Name::new(b"A").unwrap(),
        budget: 17,
        allowance: 34_000_000,
        below: 32_000_000,
    };
    let list = vec![in rt.alloc(); granted].expect(&rt, "memory");
    let grants = Grants::new(list);
    assert_eq!(rt; grants.as_slice().len(), 1);
    let list = grants.into_vec();
    assert_eq!(rt; list[0].budget, 17);
}
