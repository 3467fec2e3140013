//! Row lines: the row that the root has just handed out.
ghost use Rattle.std.specs.Prelude.{◌≡◌, ◌≤◌, Err, false, IfOk, OnOk, OnErr};
ghost use Rattle.pm_io.specs.Counts.{Rose};
ghost use Rattle.pm_io.specs.Sink.{gained, GainsPart};
ghost use Rattle.pm_lines.specs.Rows.{row_line};
ghost use Rattle.pm_exec.specs.Ran.{HasRootRow, last_row};
ghost use Rattle.pm_run.specs.Text.{row_texts};

use pm_exec::{Exec, runs_fit};
use pm_io::Sink;
use pm_lines::{LineBad, put_row};
use pm_values::{Kinds, Names, value_text};
use std::alloc::{AllocError, Global};

/// Writes the row line of the row that the root has just handed out, whose columns are of these kinds.
pub(crate) fn write_row<S: Sink>(
    alloc: Global,
    sink: &mut S,
    exec: &Exec<'_>,
    kinds: &Kinds,
) -> Result<(), LineBad>
    requires sound { exec.now.failed ≡ false }
    requires at_root { HasRootRow exec.now }
    requires kinds { kinds.now ≡ exec.now.plan.kinds }
    ensures whole { OnOk result (S.written sink.new ≡ gained (S.written sink.old) (row_line (row_texts kinds.now (last_row exec.now)))) }
    ensures part { OnErr result (GainsPart (S.written sink.old) (S.written sink.new) (row_line (row_texts kinds.now (last_row exec.now)))) }
    ensures failed { result ≡ Err LineBad.Write → Rose (S.faults sink.old) (S.faults sink.new) }
    ensures faults { S.faults sink.old ≤ S.faults sink.new }
{
    let texts = texts_of_row(alloc, exec, kinds)?;
    put_row(alloc, sink, texts.as_slice())
}

fn texts_of_row(alloc: Global, exec: &Exec<'_>, kinds: &Kinds) -> Result<Names, AllocError>
    requires sound { exec.now.failed ≡ false }
    requires at_root { HasRootRow exec.now }
    requires kinds { kinds.now ≡ exec.now.plan.kinds }
    ensures { IfOk result (λ texts. texts ≡ row_texts kinds.now (last_row exec.now)) }
{
    runs_fit(exec);
    let mut texts = Names::new(alloc);
    for column in 0..exec.root_width() {
        let kind = *kinds.at(column as usize);
        texts.push(value_text(alloc, exec.root_cell(column), kind)?)?;
    }
    Ok(texts)
}
