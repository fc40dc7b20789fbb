//! A reply as the upgraded scenario's run gives it.
ghost use Rattle.std.specs.Prelude.{◌≡◌, IfSome, IsSome};
ghost use Rattle.aps_model.specs.Upgrade.{row_times_ten, times_ten};
ghost use Rattle.laws_upgrade.specs.TimesTen as spec;
ghost use Rattle.laws_upgrade.specs.Fits.{HasFewParts, FitAnswer, FitRefusal, FitRow};

use aps_model::{Answer, CtlRefusal, PartitionRow, Reply, Shape};

/// The reply that stands in the place of this one in a run of the upgraded scenario: with ten times the parts in budgets,
/// in maxima, in what a refusal tells of them, and in a shape. None exactly where one of these would be above 65,535.
pub fn upgraded_reply(reply: &Reply) -> Option<Reply>
    ensures same { IfSome result (λ upgraded. upgraded ≡ spec.reply_times_ten reply.now) }
    ensures some { FitAnswer reply.now.answer → IsSome result }
    ensures none { IfSome result (λ upgraded. FitAnswer reply.now.answer) }
{
    let answer = upgraded_answer(&reply.answer)?;
    Some(Reply {
        command: reply.command,
        answer,
    })
}

fn upgraded_answer(answer: &Answer) -> Option<Answer>
    ensures same { IfSome result (λ upgraded. upgraded ≡ spec.answer_times_ten answer.now) }
    ensures some { FitAnswer answer.now → IsSome result }
    ensures none { IfSome result (λ upgraded. FitAnswer answer.now) }
{
    match answer {
        Answer::Partition {
            id,
            row,
            used,
            critical_used,
        } => Some(Answer::Partition {
            id: *id,
            row: upgraded_row(row)?,
            used: *used,
            critical_used: *critical_used,
        }),
        Answer::Parameters(shape) => Some(Answer::Parameters(upgraded_shape(shape)?)),
        Answer::Refused(why) => Some(Answer::Refused(upgraded_refusal(why)?)),
        answer => Some(*answer),
    }
}

fn upgraded_row(row: &PartitionRow) -> Option<PartitionRow>
    ensures same { IfSome result (λ upgraded. upgraded ≡ row_times_ten row.now) }
    ensures some { FitRow row.now → IsSome result }
    ensures none { IfSome result (λ upgraded. FitRow row.now) }
{
    Some(PartitionRow {
        name: row.name,
        parent: row.parent,
        budget: times_ten(row.budget)?,
        critical: row.critical,
        max: times_ten(row.max)?,
    })
}

fn upgraded_shape(shape: &Shape) -> Option<Shape>
    ensures same { IfSome result (λ upgraded. upgraded ≡ spec.shape_times_ten shape.now) }
    ensures some { HasFewParts shape.now.parts → IsSome result }
    ensures none { IfSome result (λ upgraded. HasFewParts shape.now.parts) }
{
    let parts = times_ten(shape.parts)?;
    Some(Shape { parts, ..*shape })
}

fn upgraded_refusal(why: &CtlRefusal) -> Option<CtlRefusal>
    ensures same { IfSome result (λ upgraded. upgraded ≡ spec.refusal_times_ten why.now) }
    ensures some { FitRefusal why.now → IsSome result }
    ensures none { IfSome result (λ upgraded. FitRefusal why.now) }
{
    match why {
        CtlRefusal::OverBudget { have } => Some(CtlRefusal::OverBudget {
            have: times_ten(*have)?,
        }),
        CtlRefusal::BadMax { partition, least } => Some(CtlRefusal::BadMax {
            partition: *partition,
            least: times_ten(*least)?,
        }),
        why => Some(*why),
    }
}

/// Ten times as many parts, where that is at most 65,535.
fn times_ten(parts: u16) -> Option<u16>
    ensures same { IfSome result (λ more. more ≡ times_ten parts) }
    ensures some { HasFewParts parts → IsSome result }
    ensures none { IfSome result (λ more. HasFewParts parts) }
{
    if parts <= 6553 {
        Some(parts * 10)
    } else {
        None
    }
}
