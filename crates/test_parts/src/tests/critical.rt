//! Usage at the critical budget and above it, and the three policies.
ghost use Rattle.std.specs.Prelude.{◌≡◌};

use aps_critical::{Bill, Effect, after_bill, apply, standing};
use aps_model::{Bankruptcy, Nanos, PartitionId};
use aps_tree::Tree;
use aps_window::Window;
use std::alloc::Global;
use std::process::Abort;

fn system() -> PartitionId
    ensures { result ≡ 0 }
{
    PartitionId::at(0)
}

/// A window in which `System` used 1,500,000 ns of critical time.
fn window(rt: &impl Abort, alloc: Global) -> Window {
    let mut window = Window::new(alloc, 8).expect(rt, "memory");
    window.bill(system(), 0, 1_500_000, true);
    window
}

#[test]
fn bankrupt_one_above(rt: HostRuntime) {
    let window = window(&rt, rt.alloc());
    let bankrupt = Bill::Bankrupt {
        used: 1_500_000,
        budget: 1_499_999,
    };
    assert!(rt; after_bill(&window, system(), 1_500_000) == Bill::Fine);
    assert!(rt; after_bill(&window, system(), 1_499_999) == bankrupt);
    assert!(rt; after_bill(&window, PartitionId::at(1), 0) == Bill::Fine);
    assert!(rt; !standing(&window, system(), 1_500_000));
    assert!(rt; standing(&window, system(), 1_500_001));
}

/// A tree in which `System` has a critical budget of 5 ns.
fn tree(rt: &impl Abort, alloc: Global) -> Tree {
    let mut tree = Tree::new(alloc, 100).expect(rt, "memory");
    assert!(rt; tree.modify(system(), None, Some(5), None) == Ok(()));
    tree
}

/// What the policy does where `System` is bankrupt, and the critical budget that it has then.
fn applied(rt: &impl Abort, tree: &mut Tree, policy: Bankruptcy) -> (Effect, Nanos) {
    assert!(rt; tree.count() > 0);
    let effect = apply(policy, tree, system());
    (effect, tree.row(system()).expect(rt, "a row").critical)
}

#[test]
fn policies_differ(rt: HostRuntime) {
    let mut tree = tree(&rt, rt.alloc());
    let policies = [
        (Bankruptcy::Basic, (Effect::Keep, 5)),
        (Bankruptcy::Reboot, (Effect::Reboot, 5)),
        (Bankruptcy::Cancel, (Effect::Cancelled, 0)),
    ];
    for (policy, wanted) in policies {
        assert!(rt; applied(&rt, &mut tree, policy) == wanted);
    }
}
