//! What least budgets are. Each function states a law, and does nothing.
ghost use Rattle.std.specs.Prelude.{◌≡◌, ℕ, ◌<◌, ◌≤◌, ◌-◌};
ghost use Rattle.aps_model.specs.declared.shape.Shape.{Shape};
ghost use Rattle.aps_model.specs.Shape.{IsShape};
ghost use Rattle.aps_admit.specs.Least.{IsLeastBudget, allowance, least_budget};

/// The computed budget is the least that gives the time, there is one such at most, and it is told by its allowance
/// and by that of one part less.
pub fn least_budgets_compute()
    ensures least { (shape : Shape) (time : ℕ) → IsShape shape → IsLeastBudget shape time (least_budget shape time) }
    ensures one { (shape : Shape) (time a b : ℕ) → IsLeastBudget shape time a → IsLeastBudget shape time b → a ≡ b }
    ensures told { (shape : Shape) (time budget : ℕ) → IsShape shape
        → time ≤ allowance shape budget → allowance shape (budget - 1) < time
        → IsLeastBudget shape time budget }
{}
