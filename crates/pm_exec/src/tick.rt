//! What a step of a run answers.

/// The number of the node that handed out a row, or that no event is left.
#[derive(Clone, Copy, Debug, PartialEq, Eq)]
pub enum Tick {
    Row(u32),
    End,
}
