//! The arithmetic of windows, over processors that stand somewhere and entries that move them on.
ghost use Rattle.std.specs.Prelude.{◌≡◌, ℕ, ◌+◌, ◌-◌, ◌*◌, ◌≤◌, ◌<◌, Bool, List, length};
ghost use Rattle.std.specs.List.{sum_by, All};
ghost use Rattle.laws_runs.specs.Window.{Kept, Lane, Wide, Walks, Tiles};
ghost use Rattle.laws_bounds.specs.Sums.{sum_below};
ghost use Rattle.laws_bounds.specs.Lanes.{lanes_at, is_critical, is_ordinary, paid, paid_of};
ghost use Rattle.laws_bounds.specs.Debts.{debt, Resets, Never};
ghost use Rattle.laws_bounds.specs.Pasts.{past, Filled};

/// What counts in the window stays within the limit of the picks and one tick for each processor.
pub fn bound_from_picks()
    ensures { (counts : Kept → Bool) (tick a b scale limit : ℕ) (lanes : List Lane) (entries : List Wide)
        → 0 < tick
        → sum_by (debt counts tick a b) lanes ≡ 0
        → Walks tick lanes entries
        → Resets counts tick a b scale limit 0 entries
        → scale * (sum_by (paid counts tick a b) entries + sum_by (debt counts tick a b) (lanes_at lanes entries))
        ≤ limit + scale * (length lanes * tick) }
{}

/// The upper line: the limit of the picks, one tick for each processor, and critical time.
pub fn upper_line()
    ensures { (tick a b p scale limit : ℕ) (lanes : List Lane) (entries : List Wide)
        → 0 < tick
        → sum_by (debt (is_ordinary p) tick a b) lanes ≡ 0
        → Walks tick lanes entries
        → Resets (is_ordinary p) tick a b scale limit 0 entries
        → scale * paid_of tick a b entries p ≤ limit + scale * (length lanes * tick + sum_by (paid (is_critical p) tick a b) entries) }
{}

/// The upper line of a partition that no ordinary pick in the window is of.
pub fn upper_line_none()
    ensures { (tick a b p : ℕ) (lanes : List Lane) (entries : List Wide)
        → 0 < tick
        → sum_by (debt (is_ordinary p) tick a b) lanes ≡ 0
        → Walks tick lanes entries
        → Never (is_ordinary p) tick a b entries
        → paid_of tick a b entries p ≡ sum_by (paid (is_critical p) tick a b) entries }
{}

/// What is billed of a window that isn't over is less than the whole of it.
pub fn billed_below_whole()
    ensures { (tick a w j now n : ℕ) (lanes : List Lane) (entries : List Wide)
        → 0 < tick
        → 0 < w
        → 0 < length lanes
        → now < (j + 1) * tick
        → a ≡ (j + 1) - w
        → Tiles lanes entries
        → All (λ (l : Lane). l.last ≤ now) (lanes_at lanes entries)
        → sum_below n (paid_of tick a (j + 1) entries) < length lanes * (w * tick) }
{}

/// Where less than the whole is used, some partition is in budget.
pub fn some_partition_in_budget()
    ensures { (n parts whole : ℕ) (uses budgets : ℕ → ℕ)
        → 0 < parts
        → sum_below n budgets ≡ parts
        → sum_below n uses < whole
        → (p : ℕ) × (p < n) × (parts * uses p < whole * budgets p) }
{}

/// With nobody idle, the usages of a window that everybody has billed are the whole.
pub fn all_usages()
    ensures { (tick a w n : ℕ) (lanes : List Lane) (entries : List Wide)
        → sum_by (past tick a (a + w)) lanes ≡ 0
        → Tiles lanes entries
        → Filled tick a (a + w) n entries
        → All (λ (l : Lane). (a + w) * tick ≤ l.last) (lanes_at lanes entries)
        → sum_below n (paid_of tick a (a + w) entries) ≡ length lanes * (w * tick) }
{}

/// The lower line of the bound, from the upper lines of the others.
pub fn lower_line()
    ensures { (n parts whole i : ℕ) (uses budgets slack : ℕ → ℕ)
        → i < n
        → sum_below n budgets ≡ parts
        → sum_below n uses ≡ whole
        → ((q : ℕ) → q < n → parts * uses q ≤ whole * budgets q + parts * slack q)
        → whole * budgets i ≤ parts * uses i + parts * (sum_below n slack - slack i) }
{}
