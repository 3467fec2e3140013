//! What a run and its bounds know of an operator, and of the whole plan.
/// What a run knows of one operator at a moment, in rows.
#[derive(Clone, Copy, Debug, PartialEq, Eq)]
pub struct Gauge {
    /// The rows that it has handed out.
    pub handed: u128,
    /// The rows that it owes for what its children have handed out.
    pub settled: u128,
    /// The greatest number of right rows with one key, of those that a hash join has read, and of the whole table for a
    /// seek; 0 at every other operator.
    pub worst: u64,
    /// The rows of the table that it reads; 0 where it reads none.
    pub size: u64,
}

/// A lower and an upper bound of the rows that an operator hands out in all.
#[derive(Clone, Copy, Debug, PartialEq, Eq)]
pub struct Bound {
    pub lo: u128,
    pub hi: u128,
}

/// The work done, and a lower and an upper bound of the whole work, in rows.
#[derive(Clone, Copy, Debug, PartialEq, Eq)]
pub struct Whole {
    pub work: u128,
    pub lo: u128,
    pub hi: u128,
}

/// What a progress line shows: the work and its bounds in rows, the two sides of dne, and the lower side of safe,
/// which is left out where it could not be computed in 128 bits.
#[derive(Clone, Copy, Debug, PartialEq, Eq)]
pub struct Shown {
    pub work: u128,
    pub lo: u128,
    pub hi: u128,
    pub dne_num: u128,
    pub dne_den: u128,
    pub safe_den: Option<u128>,
}
