//! The parts of the scheduler, each used alone.
mod allowance;
mod channel;
mod critical;
mod ctl;
mod inherit;
mod levels;
mod live;
mod merit;
mod ready;
mod tasks;
mod timer;
mod tree;
mod window;
