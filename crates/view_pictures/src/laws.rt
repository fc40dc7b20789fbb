//! Laws of what is drawn. Each function states one, and does nothing.
ghost use Rattle.std.specs.Prelude.{ℕ, ◌≤◌, List, All, Bool};
ghost use Rattle.view_pictures.specs.declared.scale.Sizes.{Sizes};
ghost use Rattle.view_pictures.specs.Group.{IsBounded, column_of};
ghost use Rattle.view_samples.specs.declared.sample.Sample.{Sample};

/// A column of `usage`, which is drawn for several samples, shows usage above the bound that it shows only where some of its samples
/// has usage above its own: else the bound lies no further below the top than the usage.
pub fn columns_keep_bounds()
    ensures { (sizes : Sizes) (p top : ℕ) (samples : List (Sample × Bool))
        → All (IsBounded sizes p) samples
        → (column_of sizes p top samples).bound ≤ (column_of sizes p top samples).high }
{}
