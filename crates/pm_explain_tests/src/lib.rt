//! Tests of what `explain` writes of statements: where each join rule ends, where conditions stand, what groups, DISTINCT and orders
//! make. They make public calls alone, with ample memory. The expected texts come from a program that was written apart from this one.
#![tactic(auto)]

#[cfg(test)]
mod conditions;
#[cfg(test)]
mod eight;
#[cfg(test)]
mod explaining;
#[cfg(test)]
mod grouping;
#[cfg(test)]
mod joins;
