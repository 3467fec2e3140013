//! How a command ends.
ghost use Rattle.std.specs.Prelude.{◌≡◌};
ghost use Rattle.pm_cli.specs.Status.{code_of, refusal_status, status_of};

use pm_commands::Stop;
use pm_refusals::Word;
use pm_requests::{Refusal, Role};
use pm_tables::DataBad;

/// How a command ended.
#[derive(Clone, Copy, Debug, PartialEq, Eq)]
pub enum Status {
    /// All of the output was written.
    Done,
    /// The words are not those of a command.
    Usage,
    /// The schema's file is refused: why, and at which byte, from 0; its limit in bytes where it is too long.
    Schema { word: Word, at: u64 },
    /// The query's file is refused, as a schema's is.
    Query { word: Word, at: u64 },
    /// The query asks for what the schema does not have, or breaks a rule of binding: why, and at which byte of its file, from 0.
    Binding { word: Word, at: u64 },
    /// The file of this table, counted by its place in the schema from 0, is refused. The fault is never want of memory.
    Table { table: u32, fault: DataBad },
    /// There is no file of this role's name.
    NoFile { role: Role },
    /// The file of this role could not be read to its end.
    ReadFault { role: Role },
    /// The output could not be written.
    WriteFault,
    /// This first bound of the plan is too high: that of the whole work above 10^34, or that of the rows below a SUM above 10^18.
    TooWide { bound: u128 },
    /// There was no memory.
    NoMemory,
}

impl Status {
    /// The status of a command that is stopped before it writes.
    pub fn of(stop: &Stop) -> Status
        ensures { result ≡ status_of stop.now }
    {
        match stop {
            Stop::Usage => Status::Usage,
            Stop::Request(refusal) => Status::of_refusal(refusal),
            Stop::TooWide(bound) => Status::TooWide { bound: *bound },
        }
    }

    fn of_refusal(refusal: &Refusal) -> Status
        ensures { result ≡ refusal_status refusal.now }
    {
        match refusal {
            Refusal::NoFile { role, .. } => Status::NoFile { role: *role },
            Refusal::ReadFault { role, .. } => Status::ReadFault { role: *role },
            Refusal::Schema(fault) => Status::Schema {
                word: fault.word,
                at: fault.at,
            },
            Refusal::Query(fault) => Status::Query {
                word: fault.word,
                at: fault.at,
            },
            Refusal::Binding(fault) => Status::Binding {
                word: fault.word,
                at: fault.at,
            },
            Refusal::Table { table, fault, .. } => Status::Table {
                table: *table,
                fault: *fault,
            },
            Refusal::NoMemory => Status::NoMemory,
        }
    }

    /// The exit code of the process.
    pub fn code(&self) -> u8
        ensures { result ≡ code_of self.now }
    {
        match self {
            Status::Done => 0,
            Status::Usage => 1,
            Status::Schema { .. } => 2,
            Status::Query { .. } => 3,
            Status::Binding { .. } => 4,
            Status::Table { .. } => 5,
            Status::NoFile { .. } => 6,
            Status::ReadFault { .. } => 7,
            Status::WriteFault => 8,
            Status::TooWide { .. } => 9,
            Status::NoMemory => 10,
        }
    }
}
