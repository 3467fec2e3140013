//! Why nothing is asked.
ghost use Rattle.std.specs.Prelude.{◌≡◌};
ghost use Rattle.pm_requests.specs.declared.refusal.Refusal.TheVariants as refusal;

use crate::texts::Fault;
use pm_tables::DataBad;
use pm_values::Txt;
use std::alloc::AllocError;
use thiserror::Error;

/// What a file is for. Tables are counted by their place in the schema, from 0.
#[derive(Clone, Copy, Debug, PartialEq, Eq)]
pub enum Role {
    Schema,
    Query,
    Table(u32),
}

/// Why a request was not loaded. A file's name is the one that was begun.
#[derive(Debug, Drop, Error)]
pub enum Refusal {
    /// There is no file of this name.
    #[error("there is no file {}", .name.as_str())]
    NoFile {
        role: Role,
        name: Txt,
    },
    /// The file of this name could not be read to its end.
    #[error("the file {} could not be read", .name.as_str())]
    ReadFault {
        role: Role,
        name: Txt,
    },
    /// The schema's file is no schema.
    #[error("the schema is refused")]
    Schema(Fault),
    /// The query's file is no SELECT statement.
    #[error("the query is refused")]
    Query(Fault),
    /// The statement breaks a rule of binding. The place is one in the query's file.
    #[error("the query is not bound")]
    Binding(Fault),
    /// The file of this table of FROM, counted by its place in the schema from 0, is no table of its declaration, or a reference
    /// of the table to one of FROM does not hold.
    #[error("the file of the table {} is refused", .name.as_str())]
    Table {
        table: u32,
        name: Txt,
        fault: DataBad,
    },
    /// There was no memory.
    #[error("out of memory")]
    NoMemory,
}

impl From<AllocError> for Refusal {
    ghost from_gives = { λ _ out. out ≡ refusal.NoMemory };

    fn from(_error: AllocError) -> Self {
        Refusal::NoMemory
    }
}
