//! The operators of a plan as iterators: one step is one event, a row that one operator hands out.
//!
//! Iterators are nested in one another and borrow what they read. A contract sees each of them as a flow.
#![tactic(auto)]

mod filter;
mod group;
mod hash;
mod index;
mod inner;
mod iter;
mod merge;
mod project;
mod sort;

pub use iter::Iter;
