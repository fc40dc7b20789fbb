//! The room that a run takes at its start.
/// For how many entries, replies and changes a run took room at its boot. No list of the run outgrows it.
#[derive(Clone, Copy, PartialEq, Eq)]
pub struct Room {
    /// The limit of the run.
    pub entries: u32,
    /// One for each timed command of the scenario.
    pub replies: u16,
    /// Two for each timed command, and one for each partition of the scenario that has a critical budget.
    pub changes: u16,
}
