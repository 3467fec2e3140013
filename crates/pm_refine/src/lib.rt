//! The bounds of a plan, kept from event to event: after an event only those on the way from its node up to the root are
//! computed again, and the sums of all are kept.
#![tactic(auto)]

mod laws;
mod refiner;
mod refresh;

pub use refiner::Refiner;
