//! The greatest amounts over windows and partitions.
ghost use Rattle.std.specs.Prelude.{◌≡◌, ◌+◌, ◌≤◌, ◌<◌, ◌*◌, ◌/◌, length, if◌then◌else◌, Some, true};
ghost use Rattle.aps_model.specs.declared.audit.Worst.{Worst as WorstOf};
ghost use Rattle.aps_model.specs.Audit.{critical_over_from, over_from, short_from, worse};
ghost use Rattle.aps_model.specs.Limits.{last_tick};
ghost use Rattle.aps_model.specs.Sums.{IsUsage};
ghost use Rattle.aps_bound.specs.Allowed.{AreAllowed};
ghost use Rattle.aps_bound.specs.Limits.{AreLimits};
ghost use Rattle.aps_bound.specs.Worst.{with_partition, with_window};

use crate::allowed::{Allowed, allowed_at};
use crate::limits::{Limits, is_within, limits_of};
use aps_model::{Audit, History, Nanos, PartitionId, Usage, Worst};

/// The audit goes on with all partitions' usage of the window from tick `a` on, and so do the limits.
pub fn with_partitions(
    history: &History,
    allowed: &Allowed,
    usage: &Usage,
    audit: &mut Audit,
    limits: &mut Limits,
    a: u64,
)
    requires allowed { AreAllowed history.now allowed.now }
    requires limits { AreLimits history.now audit.old limits.old }
    requires usage { IsUsage history.now.shape.tick a (a + history.now.shape.window) history.now.entries usage.now }
    requires a { a ≤ last_tick }
    ensures audit { audit.new ≡ with_window history.now audit.old a }
    ensures limits { AreLimits history.now audit.new limits.new }
{
    if is_no_worse(history, limits, usage, audit, a) {
        return;
    }
    for p in 0..history.rows().len() {
        with_partition(history, allowed, usage, audit, a, p);
    }
    *limits = limits_of(history, allowed, audit);
}

/// Whether in the window from tick `a` on no amount is greater than the worst so far: so it is in most windows, and is seen
/// sooner than which amount stands where.
#[inline(always)]
fn is_no_worse(history: &History, limits: &Limits, usage: &Usage, _audit: &Audit, _a: u64) -> bool
    requires limits { AreLimits history.now _audit.now limits.now }
    requires usage { IsUsage history.now.shape.tick _a (_a + history.now.shape.window) history.now.entries usage.now }
    ensures { result ≡ true → with_window history.now _audit.now _a ≡ _audit.now }
{
    for p in 0..history.rows().len() {
        if !is_within(&limits[p], usage.used[p], usage.critical[p]) {
            return false;
        }
    }
    true
}

/// The audit goes on with one partition's usage of the window from tick `a` on.
#[inline(always)]
fn with_partition(
    history: &History,
    allowed: &Allowed,
    usage: &Usage,
    audit: &mut Audit,
    a: u64,
    p: usize,
)
    requires p { p < length history.now.rows }
    requires allowed { AreAllowed history.now allowed.now }
    requires usage { IsUsage history.now.shape.tick a (a + history.now.shape.window) history.now.entries usage.now }
    requires a { a ≤ last_tick }
    ensures { audit.new ≡ with_partition history.now audit.old a p }
{
    let row = &history.rows()[p];
    let allowed = allowed_at(allowed, history, p);
    let spent = usage.used[p];
    let over = spent.saturating_sub(allowed);
    let short = allowed.saturating_sub(spent);
    let critical = usage.critical[p].saturating_sub(row.critical);
    let partition = PartitionId::at(p);
    let window = a as u32;
    raise(&mut audit.worst_over, over, partition, window);
    raise(&mut audit.worst_short, short, partition, window);
    raise(&mut audit.critical_worst, critical, partition, window);
}

/// The worst stays unless this amount is greater.
#[inline(always)]
fn raise(worst: &mut Option<Worst>, amount: Nanos, partition: PartitionId, window: u32)
    ensures { worst.new ≡ worse worst.old (record { amount = amount; partition = partition; window = window }) }
{
    if !is_worse(worst, amount) {
        return;
    }
    *worst = Some(Worst {
        amount,
        partition,
        window,
    });
}

/// Whether this amount is greater than the worst so far, if there is one.
#[inline(always)]
fn is_worse(worst: &Option<Worst>, amount: Nanos) -> bool
    ensures { (one : WorstOf) → one.amount ≡ amount → worse worst.now one ≡ (if result then Some one else worst.now) }
{
    match worst {
        Some(worst) => worst.amount < amount,
        None => true,
    }
}
