//! Lists of zeros.
ghost use Rattle.std.specs.Prelude.{◌≡◌, IfOk, replicate};

use aps_model::NoMemory;
use std::alloc::Global;

/// So many sums of nothing.
pub fn zeros(alloc: Global, count: usize) -> Result<Vec<u128>, NoMemory>
    ensures { IfOk result (λ v. v.items ≡ replicate count 0) }
{
    vec![in alloc; 0; count]
}
