use pm_values::{Bytes, Txt};

/// A file in memory.
#[derive(Debug, Drop)]
pub struct MemFile {
    pub name: Txt,
    pub bytes: Bytes,
}
