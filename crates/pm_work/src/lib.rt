//! The work of a plan: the events of a run in their order, what stands at each operator after some of them, and the
//! whole work, counted in rows (the getnext model of work of Chaudhuri, Narasayya and Ramamurthy, SIGMOD 2004).
#![tactic(auto)]

mod declared;
mod evaluation;
mod laws;
mod worked;

pub use declared::tables_are_declared;
pub use evaluation::count_whole;
