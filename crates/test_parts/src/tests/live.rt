//! The live scheduler: worked calls, whose answers were worked out by hand from the rules, and two threads.
mod calls;
mod moments;
mod rows;
mod seats;
mod threads;
mod two_processors;
mod two_seats;
