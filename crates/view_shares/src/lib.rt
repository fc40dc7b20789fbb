//! What each partition gets of the time that its budget allows, over all windows of a recorded history, and by how much it
//! overspends its critical budget.
#![tactic(auto)]

mod critical_budget;
mod lines;
mod overspending;
mod running;
mod share;
mod shares;
mod spent;
mod standing;
mod text;
mod usages;

pub use overspending::{all_overspent, all_spent};
pub use running::{Spending, spend_run};
pub use share::{Amount, Counts, Share, Shortfall, Used};
pub use shares::Shares;
pub use spent::Spent;
pub use text::{shares_text, shares_text_with};
pub use usages::Usages;
