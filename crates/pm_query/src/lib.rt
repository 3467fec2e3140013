//! A statement whose names are resolved, the rows that it asks for, and the plan that is built for it, as definitions.
//!
//! The rows of a query are said of the tables alone and know nothing of a plan.
#![tactic(auto)]

mod query;
mod worked;

pub use query::{
    Call, Calls, Choice, Conjunct, Conjuncts, Query, QueryOrder, QueryOrders, QuerySource,
    QuerySources, QueryTable, QueryTables,
};
