//! The files of a demo, in memory.
ghost use Rattle.std.specs.Prelude.{◌≡◌, ◌≤◌, IfOk, OnOk};
ghost use Rattle.pm_io.specs.MemState.{with_file};
ghost use Rattle.pm_commands.specs.Commands.{demo_files};

use pm_demo::make;
use pm_io::SureFiles;
use pm_values::Txt;
use std::alloc::{AllocError, Global};

/// The files of the demo of so many customers.
pub(crate) fn demo_files(alloc: Global, customers: u32) -> Result<SureFiles, AllocError>
    requires some { 1 ≤ customers }
    requires few { customers ≤ 100000 }
    ensures { IfOk result (λ files. files ≡ demo_files customers) }
{
    let demo = make(alloc, customers)?;
    let mut files = SureFiles::new(alloc);
    put(alloc, &mut files, "demo.schema", demo.schema.bytes())?;
    put(alloc, &mut files, "demo.sql", demo.query.bytes())?;
    put(alloc, &mut files, "cust.csv", demo.cust.as_slice())?;
    put(alloc, &mut files, "ord.csv", demo.ord.as_slice())?;
    Ok(files)
}

/// Gives the file of this name these bytes.
fn put(alloc: Global, files: &mut SureFiles, name: &str, bytes: &[u8]) -> Result<(), AllocError>
    ensures { OnOk result (files.new ≡ with_file files.old name.now bytes.now) }
{
    files.put(&Txt::new(alloc, name)?, bytes)
}
