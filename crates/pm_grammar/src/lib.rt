//! What the readers of statements and of schemas share: terminals, names, lists with separators, and what a reading
//! answers. The theory of readers of token lists, and of the one answer that tokens call for, is in specs/ and proofs/.
#![tactic(auto)]

mod entries;
mod fault;
mod laws;
mod names;
mod terminal;

pub use entries::{Entry, Series, further, further_series, further_while, list};
pub use fault::SynBad;
pub use laws::{lists_are_read_once, series_are_read_once};
pub use names::{PlacedName, PlacedNames, name, placed};
pub use terminal::{Terminal, optional, place, sees, strip_terminal, token};
