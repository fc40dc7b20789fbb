//! How much each partition may use in a window without the audit being any worse for it.
ghost use Rattle.std.specs.Prelude.{◌≡◌, ◌<◌, ◌≤◌, length, true};
ghost use Rattle.aps_model.specs.declared.audit.Audit.{Audit as AuditOf};
ghost use Rattle.aps_model.specs.History.{History as HistoryOf};
ghost use Rattle.aps_model.specs.Limits.{most_partitions};
ghost use Rattle.aps_bound.specs.Allowed.{AreAllowed};
ghost use Rattle.aps_bound.specs.Limits.{AreLimits, HasLimit, IsWithin};

use crate::allowed::{Allowed, allowed_at};
use aps_model::limits::MOST_PARTITIONS;
use aps_model::{Audit, History, Nanos};

/// How much a partition may use in a window, and how much of that may be critical.
#[derive(Clone, Copy)]
pub struct Limit {
    pub least: Nanos,
    /// it may use less than this
    pub end: Nanos,
    pub critical: Nanos,
}

/// The limit of each partition, in the place of its number: they are found anew where an amount was greater, and looked at in
/// every window.
pub type Limits = [Limit; MOST_PARTITIONS];

/// Limits that no partition keeps, whatever it used.
pub fn no_limits() -> Limits
    ensures count { length result ≡ most_partitions }
    ensures limits { (h : HistoryOf) (audit : AuditOf) → AreLimits h audit result }
{
    let none = Limit {
        least: 0,
        end: 0,
        critical: 0,
    };
    [none; MOST_PARTITIONS]
}

/// The limits by the worst amounts so far.
pub fn limits_of(history: &History, allowed: &Allowed, audit: &Audit) -> Limits
    requires few { length history.now.rows ≤ most_partitions }
    requires allowed { AreAllowed history.now allowed.now }
    ensures { AreLimits history.now audit.now result }
{
    let mut limits = no_limits();
    let Some(over) = audit.worst_over else {
        return limits;
    };
    let Some(short) = audit.worst_short else {
        return limits;
    };
    let Some(critical) = audit.critical_worst else {
        return limits;
    };
    let (over, short, critical) = (over.amount, short.amount, critical.amount);
    for p in 0..history.rows().len() {
        limits[p] = limit_of(history, allowed, over, short, critical, p);
    }
    limits
}

/// The limit of a partition, where these are the worst amounts so far.
fn limit_of(
    history: &History,
    allowed: &Allowed,
    over: Nanos,
    short: Nanos,
    critical: Nanos,
    p: usize,
) -> Limit
    requires p { p < length history.now.rows }
    requires few { length history.now.rows ≤ most_partitions }
    requires allowed { AreAllowed history.now allowed.now }
    ensures { HasLimit history.now over short critical p result }
{
    let allowed = allowed_at(allowed, history, p);
    let row = &history.rows()[p];
    Limit {
        least: allowed.saturating_sub(short),
        end: allowed.saturating_add(over).saturating_add(1),
        critical: row.critical.saturating_add(critical),
    }
}

/// Whether a partition that used so much keeps within the limit.
#[inline(always)]
pub fn is_within(limit: &Limit, used: Nanos, critical: Nanos) -> bool
    ensures { result ≡ true → IsWithin limit.now used critical }
{
    limit.least <= used && used < limit.end && critical <= limit.critical
}
