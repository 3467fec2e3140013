//! Tests of runs, each in the module named after its crate. They make public calls alone, with ample memory.
//!
//! A crate that has tests of its own is proved a second time with them. Here only the tests are proved.
#![tactic(auto)]

#[cfg(test)]
mod run;
