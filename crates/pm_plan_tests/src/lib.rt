//! Tests of plans, of their work and its bounds, and of what builds them, each in the module named after its crate. They make
//! public calls alone, with ample memory.
//!
//! A crate that has tests of its own is proved a second time with them. Here only the tests are proved.
#![tactic(auto)]

#[cfg(test)]
mod build;
#[cfg(test)]
mod estim;
#[cfg(test)]
mod plan;
#[cfg(test)]
mod refine;
#[cfg(test)]
mod work;
