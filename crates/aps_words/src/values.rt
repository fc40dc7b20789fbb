//! What the values of the options say.
ghost use Rattle.std.specs.Prelude.{◌≡◌, IfSome, option_map};
ghost use Rattle.aps_words.specs.Values as spec;
ghost use Rattle.aps_model.specs.Limits.{IsIn, most_entries};

use crate::command::Report;
use crate::number::number_in;
use aps_model::Order;
use aps_model::limits::MOST_ENTRIES;

/// The number of entries after which a run stops, where the words name no other.
const USUAL_LIMIT: u32 = 1_000_000;

/// The report that the value names, or the summary where there is no value.
pub fn report_of(value: Option<&str>) -> Option<Report>
    ensures { result ≡ spec.report_of (option_map (λ text. text.now) value.entry) }
{
    match value {
        None | Some("summary") => Some(Report::Summary),
        Some("windows") => Some(Report::Windows),
        Some("journal") => Some(Report::Journal),
        Some(_) => None,
    }
}

/// The order that the value names, or the free one where there is no value.
pub fn order_of(value: Option<&str>) -> Option<Order>
    ensures { result ≡ spec.order_of (option_map (λ text. text.now) value.entry) }
{
    match value {
        None | Some("free") => Some(Order::Free),
        Some("fixed") => Some(Order::Fixed),
        Some(_) => None,
    }
}

/// The limit that the value is, 1 to 4,000,000, or 1,000,000 where there is no value.
pub fn limit_of(value: Option<&str>) -> Option<u32>
    ensures same { result ≡ spec.limit_of (option_map (λ text. text.now) value.entry) }
    ensures range { IfSome result (IsIn 1 most_entries) }
{
    match value {
        None => Some(USUAL_LIMIT),
        Some(text) => number_in(1, MOST_ENTRIES, text).map(|limit| limit as u32),
    }
}

/// The number that the value is, if it is there and in this range.
pub fn required_in(low: u64, high: u64, value: Option<&str>) -> Option<u64>
    ensures same { result ≡ spec.required_in low high (option_map (λ text. text.now) value.entry) }
    ensures range { IfSome result (IsIn low high) }
{
    number_in(low, high, value?)
}
