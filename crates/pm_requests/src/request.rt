//! What is asked, with what it is asked of.
use pm_query::Query;
use pm_values::Db;

/// A bound query with a database of its tables: those of FROM, each once, in the order in which they first appear there.
#[derive(Debug, Drop)]
pub struct Request {
    pub query: Query,
    pub db: Db,
}
