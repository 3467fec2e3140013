//! Numbers for work and progress: sums and products that stop at the greatest number of 128 bits, square roots
//! and percentages. Each call gives the exact result or the exact rounding that its contract names, on every
//! number that it takes; none takes memory and none refuses.
#![tactic(auto)]

pub use capped::{add_capped, mul_capped};
pub use hundredths::{hundredths_down, hundredths_up};
pub use root::root_of_product;

mod capped;
mod hundredths;
mod root;
