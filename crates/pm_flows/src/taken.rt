//! What a step of an iterator answers.
ghost use Rattle.std.specs.Prelude.{◌≡◌, if◌then◌else◌};
ghost use Rattle.pm_flows.specs.Coming.{taken_by, taken_read};

/// An event that was taken: the node that handed out a row, and what the node that reads the row knows by it.
#[derive(Clone, Copy, Debug, PartialEq, Eq)]
pub struct Taken {
    pub node: u32,
    /// The node that reads the row; 0 while none has.
    pub reader: u32,
    /// The rows that the row settles there.
    pub settled: u128,
    /// Where the reader is a hash join and the row is of its right side, the greatest number of right rows with one key so far;
    /// else 0.
    pub worst: u64,
}

impl Taken {
    /// A row that the node hands out, and that none has read.
    pub fn by(node: u32) -> Taken
        ensures { result ≡ taken_by node }
    {
        Taken {
            node,
            reader: 0,
            settled: 0,
            worst: 0,
        }
    }

    /// The same event, whose row this node reads, and which settles so many rows there.
    pub fn read_by(self, reader: u32, settled: u128) -> Taken
        ensures { result ≡ taken_read reader settled 0 self }
    {
        Taken {
            node: self.node,
            reader,
            settled,
            worst: 0,
        }
    }

    /// The same event, whose row this hash join reads in, and with it has so many right rows of one key.
    pub fn read_in(self, reader: u32, worst: u64) -> Taken
        ensures { result ≡ taken_read reader 0 worst self }
    {
        Taken {
            node: self.node,
            reader,
            settled: 0,
            worst,
        }
    }
}

/// One row, or none.
pub fn rows_if(some: bool) -> u128
    ensures { result ≡ (if some then 1 else 0) }
{
    if some { 1 } else { 0 }
}
