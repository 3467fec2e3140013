//! The records of a file in parts, each typed by a worker of its own.
ghost use Rattle.std.specs.Prelude.{◌≡◌, ◌<◌, ◌≤◌, ◌^◌, length};
ghost use Rattle.std.specs.Thread.{IsSync};
ghost use Rattle.pm_load.specs.Parts.{Types, Joins, cut};

use pm_tables::{DataBad, Records, type_rows};
use pm_values::{Gate, Rows, TableDecl};
use std::alloc::Global;
use std::marker::Sync;
use std::thread::{Threads, join};

/// Where part `part` of `count` records begins.
fn cut_at(count: u32, workers: u32, part: u32) -> u32
    requires some { 0 < workers }
    requires part { part ≤ workers }
    ensures value { result ≡ cut count workers part }
    ensures within { result ≤ count }
{
    (u64::from(part) * u64::from(count) / u64::from(workers)) as u32
}

/// The rows of the parts from one number up to below another, typed at once.
#[cycle(parts)]
pub fn type_parts<R: Threads + Sync, G: Gate>(
    rt: &R,
    alloc: Global,
    decl: &TableDecl,
    list: &Records,
    workers: u32,
    first: u32,
    last: u32,
    gate: &G,
) -> Result<Rows, DataBad>
    requires some { first < last }
    requires last { last ≤ workers }
    ensures { Types decl.now.columns list.now (cut (length list.now) workers first) (cut (length list.now) workers last) result }
{
    let count = list.len();
    if last - first == 1 {
        gate.enter(first);
        return type_rows(
            alloc,
            decl,
            list,
            cut_at(count, workers, first),
            cut_at(count, workers, last),
        );
    }
    let middle = first + (last - first) / 2;
    let (front, back) = join(
        rt,
        || -> Result<Rows, DataBad>
            requires { IsSync R.row × IsSync G.row × (first < middle) × (middle ≤ workers) }
            ensures { Types decl.entry.now.columns list.entry.now (cut (length list.entry.now) workers first) (cut (length list.entry.now) workers middle) result }
        { type_parts(rt, alloc, decl, list, workers, first, middle, gate) },
        || -> Result<Rows, DataBad>
            requires { IsSync R.row × IsSync G.row × (middle < last) × (last ≤ workers) }
            ensures { Types decl.entry.now.columns list.entry.now (cut (length list.entry.now) workers middle) (cut (length list.entry.now) workers last) result }
        { type_parts(rt, alloc, decl, list, workers, middle, last, gate) },
    );
    joined(front, back)
}

/// The rows of one part and then those of the next, or the refusal of the earlier part.
fn joined(front: Result<Rows, DataBad>, back: Result<Rows, DataBad>) -> Result<Rows, DataBad>
    ensures { Joins front back result }
{
    let mut rows = front?;
    let mut more = back?;
    rows.append(&mut more)?;
    Ok(rows)
}
