//! What the rule of the lock says of a seat. No value of these types is made: proofs alone have them.

/// The ticket of a seat.
pub enum Ticket {
    /// The seat has none.
    NoTicket,
    /// This ticket isn't served yet.
    Waiting(u64),
    /// This ticket is served, and the seat has the core.
    Served(u64),
}

/// A seat, as the rule sees it.
pub struct View<C> {
    /// False once the seat was joined into another.
    pub live: bool,
    /// The run as the seat has seen it.
    pub seen: C,
    /// Its processors are those from `first` on and before `after`.
    pub first: u64,
    pub after: u64,
    /// The two seats of its last join.
    pub own: Before<C>,
    pub other: Before<C>,
    /// The longer of what those two had seen.
    pub joined: C,
    pub ticket: Ticket,
}

/// A seat before it was joined: what it had seen, and its processors.
pub struct Before<C> {
    pub seen: C,
    pub first: u64,
    pub after: u64,
}
