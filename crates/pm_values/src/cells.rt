//! Lists of values that are lent: rows, and chosen columns of rows.
ghost use Rattle.std.specs.Prelude.{◌≡◌, ◌^◌, ◌<◌, length};
ghost use Rattle.pm_values.specs.Row.{AllBelow, cell, pick};

use crate::items::Columns;
use crate::value::{Row, Value};
use std::marker::Model;

/// A list of values that is read by position: a row, or chosen columns of one.
pub trait Cells {
    ghost use Rattle.pm_values.specs.Row.{Row};

    ghost cells: { Self → Row };

    /// The number of values.
    fn width(&self) -> u32
        requires { length (cells self.now) < 2 ^ 32 }
        ensures { result ≡ length (cells self.now) };

    /// The value at this position, from 0.
    fn cell(&self, at: u32) -> &Value
        requires few { length (cells self.now) < 2 ^ 32 }
        requires within { at < length (cells self.now) }
        ensures { result.now ≡ cell (cells self.now) at };
}

impl Cells for Row {
    ghost cells = { λ row. row };

    fn width(&self) -> u32 {
        self.len() as u32
    }

    fn cell(&self, at: u32) -> &Value {
        self.at(at as usize)
    }
}

/// Chosen columns of a list of values, which stays where it is.
#[derive(Drop)]
pub struct Pick<'a, C: Cells> {
    of: &'a C,
    columns: &'a Columns,
}

impl<'a, C: Cells> Model for Pick<'a, C> {
    ghost use Rattle.std.specs.Prelude.{◌<◌, ◌^◌, length};
    ghost use Rattle.pm_values.specs.Row.{AllBelow, Row, pick};

    ghost Value = { Row };

    ghost view = { λ p. pick p.columns.now (C.cells p.of.now) };

    ghost invariant = { λ p. (length (C.cells p.of.now) < 2 ^ 32) × AllBelow p.columns.now (length (C.cells p.of.now)) };
}

impl<'a, C: Cells> Pick<'a, C> {
    /// These columns of a list that has them all.
    pub fn new(of: &'a C, columns: &'a Columns) -> Pick<'a, C>
        requires few { length (C.cells of.now) < 2 ^ 32 }
        requires within { AllBelow columns.now (length (C.cells of.now)) }
        ensures { result ≡ pick columns.now (C.cells of.now) }
    {
        Pick { of, columns }
    }
}

impl<'a, C: Cells> Cells for Pick<'a, C> {
    ghost cells = { λ row. row };

    fn width(&self) -> u32 {
        self.columns.len() as u32
    }

    fn cell(&self, at: u32) -> &Value {
        self.of.cell(*self.columns.at(at as usize))
    }
}
