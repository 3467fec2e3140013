//! The rows of the plan that is built for a query are the rows that the query asks for, and the plan keeps the rules.
//!
//! Laws alone, of the definitions of `pm_query`; the lemmas are for the contract of the code that builds the plan.
#![tactic(auto)]

mod laws;
