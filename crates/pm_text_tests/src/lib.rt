//! Tests of what goes from texts to tables and bound queries, and of the numbers and texts beside it, each in the module named
//! after its crate. They make public calls alone, with ample memory.
//!
//! A crate that has tests of its own is proved a second time with them. Here only the tests are proved.
#![tactic(auto)]

#[cfg(test)]
mod binder;
#[cfg(test)]
mod canonical;
#[cfg(test)]
mod demo;
#[cfg(test)]
mod fraction;
#[cfg(test)]
mod lexer;
#[cfg(test)]
mod load;
#[cfg(test)]
mod requests;
#[cfg(test)]
mod schema;
#[cfg(test)]
mod syntax;
#[cfg(test)]
mod tables;
#[cfg(test)]
mod words;
