//! The expressions of a statement with their names resolved.
use pm_names::{PlacedTerms, Term};
use pm_values::{Columns, Items};

/// What an entry of ORDER BY means, its place, and its direction.
#[derive(Debug, Drop)]
pub struct OrderTerm {
    pub term: Term,
    pub at: u64,
    pub descending: bool,
}

/// The entries of ORDER BY, the first one first.
pub type OrderTerms = Items<OrderTerm>;

/// The expressions of a statement with their names resolved: those of SELECT, with the place of `*` where that stands
/// there, the columns of GROUP BY, each once, the expressions of HAVING, and the entries of ORDER BY.
#[derive(Debug, Drop)]
pub struct Terms {
    pub distinct: bool,
    pub grouped: bool,
    pub star: Option<u64>,
    pub items: PlacedTerms,
    pub keys: Columns,
    pub havings: PlacedTerms,
    pub orders: OrderTerms,
}
