//! Critical time: whether a partition has standing, whether a bill makes it bankrupt, and what the policy does then.
#![tactic(auto)]

ghost use Rattle.std.specs.Prelude.{◌≡◌, ℕ, ◌+◌, ◌-◌, ◌<◌, List, length};
ghost use Rattle.aps_model.specs.Budget.{has_standing};
ghost use Rattle.aps_window.specs.Bills.{Bill as WindowBill, bills_critical};
ghost use Rattle.aps_window.specs.StandsFor.{StandsFor};
ghost use Rattle.aps_window.specs.Window.{total_of};
ghost use Rattle.aps_tree.specs.Tree.{IsBudgetTree};
ghost use Rattle.aps_critical.specs.Critical.{effect_of, rows_after, verdict};

use aps_model::{Bankruptcy, PartitionId};
use aps_tree::Tree;
use aps_window::Window;

/// The verdict on a partition's critical usage, in ns.
#[derive(Clone, Copy, PartialEq, Eq)]
pub enum Bill {
    /// The usage is within the critical budget.
    Fine,
    /// The usage exceeds it.
    Bankrupt { used: u64, budget: u64 },
}

/// What a bankruptcy did.
#[derive(Clone, Copy, PartialEq, Eq)]
pub enum Effect {
    /// Nothing: standing is lost while the usage isn't below the critical budget.
    Keep,
    /// The critical budget is 0 from now on.
    Cancelled,
    /// The run ends.
    Reboot,
}

/// Whether the partition has critical budget left: its critical usage in the window is below this critical budget, in
/// ns.
pub fn standing(window: &Window, p: PartitionId, budget: u64) -> bool
    ensures same { result ≡ has_standing (total_of window.now p).critical budget }
    ensures stands { (bills : List WindowBill) → StandsFor window.now bills
        → result ≡ has_standing (bills_critical bills p (window.now.tick + 1 - window.now.span) (window.now.tick + 1)) budget }
{
    window.critical_used(p) < budget
}

/// The test after a bill of critical time: `Bankrupt`, with the usage and the budget, exactly where the partition's
/// critical usage in the window, that bill included, exceeds this critical budget, in ns.
pub fn after_bill(window: &Window, p: PartitionId, budget: u64) -> Bill
    ensures same { result ≡ verdict (total_of window.now p).critical budget }
    ensures stands { (bills : List WindowBill) → StandsFor window.now bills
        → result ≡ verdict (bills_critical bills p (window.now.tick + 1 - window.now.span) (window.now.tick + 1)) budget }
{
    let used = window.critical_used(p);
    if used > budget {
        Bill::Bankrupt { used, budget }
    } else {
        Bill::Fine
    }
}

/// What the policy does to a partition that went bankrupt, whose id must be used: `cancel` takes its critical budget
/// away, and the other two change nothing.
pub fn apply(policy: Bankruptcy, tree: &mut Tree, p: PartitionId) -> Effect
    requires { p < length tree.old.rows }
    ensures answer { result ≡ effect_of policy }
    ensures rows { tree.new.rows ≡ rows_after policy tree.old.rows p }
    ensures parts { tree.new.parts ≡ tree.old.parts }
{
    match policy {
        Bankruptcy::Basic => Effect::Keep,
        Bankruptcy::Cancel => {
            tree.cancel(p);
            Effect::Cancelled
        }
        Bankruptcy::Reboot => Effect::Reboot,
    }
}
