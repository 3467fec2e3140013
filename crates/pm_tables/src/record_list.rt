//! A list of records, whose fields stand in one buffer.
ghost use Rattle.std.specs.Prelude.{◌≡◌, ◌==◌, ◌<◌, ◌≤◌, ◌^◌, ℕ, List, [], get_or, length, slice_range};
ghost use Rattle.csv.specs.Records.{Rising, fields_of, prev};
ghost use Rattle.pm_tables.specs.Records.{cut};

use csv::StringRecord;
use std::marker::Model;

/// The records of a file after its header.
///
/// The fields of all of them stand in one buffer, one after the other.
#[derive(Drop)]
pub struct Records {
    fields: StringRecord,
    ends: Vec<usize>,
}

impl Model for Records {
    ghost use Rattle.std.specs.Prelude.{ℕ, List, length, ◌<◌, ◌^◌};
    ghost use Rattle.csv.specs.Records.{Rising, fields_of};
    ghost use Rattle.pm_tables.specs.Records.{cut};

    ghost Value = { List (List (List ℕ)) };

    ghost view = { λ r. cut 0 r.ends.items (fields_of r.fields) };

    ghost invariant = { λ r. Rising 0 r.ends.items (length (fields_of r.fields)) × (length r.ends.items < 2 ^ 32) };
}

impl Records {
    /// The records that end at these positions of the fields.
    pub(crate) fn new(fields: StringRecord, ends: Vec<usize>) -> Records
        requires rising { Rising 0 ends.items (length (fields_of fields)) }
        requires few { length ends.items < 2 ^ 32 }
        ensures { result ≡ cut 0 ends.items (fields_of fields) }
    {
        Records { fields, ends }
    }

    /// How many records there are.
    pub fn len(&self) -> u32
        ensures { result ≡ length self.now }
    {
        self.ends.len() as u32
    }

    /// Whether there is no record.
    pub fn is_empty(&self) -> bool
        ensures { result ≡ (length self.now == 0) }
    {
        self.ends.is_empty()
    }

    /// The list of all fields, and where those of the record at this position, from 0, begin and end in it.
    pub(crate) fn bounds_of(&self, at: u32) -> (&StringRecord, usize, usize)
        requires { at < length self.now }
        ensures order { result.1 ≤ result.2 }
        ensures within { result.2 ≤ length (fields_of result.0.now) }
        ensures here { slice_range (fields_of result.0.now) result.1 result.2 ≡ get_or self.now at [] }
    {
        let (start, end) = bounds(self.ends.as_slice(), at as usize);
        (&self.fields, start, end)
    }
}

/// Where the record at this position begins and ends in the list of all fields.
fn bounds(ends: &[usize], at: usize) -> (usize, usize)
    requires { at < length ends.now }
    ensures start { result.0 ≡ prev 0 ends.now at }
    ensures end { result.1 ≡ get_or ends.now at 0 }
{
    let start = if at == 0 { 0 } else { ends[at - 1] };
    (start, ends[at])
}
