//! What parallel work tells of its parts.

use std::marker::Sync;

/// Told when a part of parallel work begins, by the thread that does it. No answer depends on it.
pub trait Gate: Sync {
    /// Part number `part`, from 0, begins.
    fn enter(&self, part: u32);
}

/// A gate that does nothing.
#[derive(Clone, Copy, Debug, PartialEq, Eq)]
pub struct OpenGate;

impl Gate for OpenGate {
    fn enter(&self, _part: u32) {}
}
