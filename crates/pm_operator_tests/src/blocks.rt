//! Sorts and groups with ample memory, at sizes where their lists have grown many times.
ghost use Rattle.std.specs.Prelude.{◌≡◌, ◌+◌, ◌<◌, ◌≤◌, ◌^◌, true, false, [], ◌∷◌, length, All, IfOk, OnOk};
ghost use Rattle.pm_values.specs.Row.{AllBelow, cell};
ghost use Rattle.pm_plan.specs.Grouping.{grouped};
ghost use Rattle.pm_blocks.specs.Limits.{AreFew, IsShort, IsWithin};

use pm_blocks::{GroupCore, SortCore};
use pm_plan::{Aggregate, Aggregates, SortKey, SortKeys};
use pm_values::{Columns, Row, Rows, Txt, Value};
use std::alloc::{AllocError, Global};
use std::cmp::Ordering;
use std::process::Abort;
use std::test::Fail;

/// A row of a number, NULL where there is none, and a text.
fn row(alloc: Global, number: Option<i64>, text: &str) -> Result<Row, AllocError>
    ensures { IfOk result (λ row. (length row ≡ 2) × IsShort (cell row 0)) }
{
    let mut row = Row::new(alloc);
    row.push(match number {
        Some(n) => Value::Int(i128::from(n)),
        None => Value::Null,
    })?;
    row.push(Value::Text(Txt::new(alloc, text)?))?;
    Ok(row)
}

/// Rows of numbers and texts.
fn rows(alloc: Global, list: &[(Option<i64>, &str)]) -> Result<Rows, AllocError>
    ensures count { IfOk result (λ rows. length rows ≡ length list.now) }
    ensures pairs { IfOk result (All (λ row. (length row ≡ 2) × IsShort (cell row 0))) }
{
    let mut rows = Rows::new(alloc);
    for (number, text) in list {
        rows.push(row(alloc, *number, text)?)?;
    }
    Ok(rows)
}

/// The number of row i at size: each fifth one is NULL, and the others are 0 to 9.
fn number_of(i: u32) -> Option<i64> {
    if i % 5 == 0 {
        None
    } else {
        Some(i64::from(i / 100 % 10))
    }
}

/// A thousand rows, of which the texts are those of 37 numbers.
fn many_rows(alloc: Global) -> Result<Rows, AllocError>
    ensures count { IfOk result (λ rows. length rows ≡ 1000) }
    ensures pairs { IfOk result (All (λ row. (length row ≡ 2) × IsShort (cell row 0))) }
{
    let mut rows = Rows::new(alloc);
    for i in 0..1000 {
        let text = format!(in alloc; "{:02}", i % 37)?;
        rows.push(row(alloc, number_of(i), text.as_str())?)?;
    }
    Ok(rows)
}

/// Keys of the first or the second column.
fn keys(alloc: Global, list: &[(bool, bool)]) -> Result<SortKeys, AllocError>
    ensures { IfOk result (All (λ key. key.column < 2)) }
{
    let mut keys = SortKeys::new(alloc);
    for (second, descending) in list {
        keys.push(SortKey {
            column: u32::from(*second),
            descending: *descending,
        })?;
    }
    Ok(keys)
}

/// The numbers of rows in the order of their sort.
fn sorted(alloc: Global, keys: &SortKeys, rows: &Rows) -> Result<Vec<u64>, AllocError>
    requires columns { All (λ key. key.column < 2) keys.now }
    requires pairs { All (λ row. (length row ≡ 2) × IsShort (cell row 0)) rows.now }
{
    let mut core = SortCore::new(alloc, keys)?;
    for row in rows.as_slice() {
        core.take(row)?;
    }
    core.close()?;
    let mut numbers = Vec::new(alloc);
    while let Some(number) = core.hand() {
        numbers.push(number)?;
    }
    Ok(numbers)
}

/// The numbers of the rows of a list in the order of its sort.
fn sorted_list(
    alloc: Global,
    order: &[(bool, bool)],
    list: &[(Option<i64>, &str)],
) -> Result<Vec<u64>, AllocError> {
    let rows = rows(alloc, list)?;
    let keys = keys(alloc, order)?;
    sorted(alloc, &keys, &rows)
}

#[test]
fn sorts_small_lists(rt: HostRuntime) -> Result<(), Fail> {
    let alloc = rt.alloc();
    let list = [
        (Some(7), "b"),
        (None, "a"),
        (Some(3), "a"),
        (Some(7), "a"),
        (None, ""),
    ];
    let cases: [(&[(bool, bool)], [u64; 5]); 6] = [
        (&[], [0, 1, 2, 3, 4]),
        (&[(false, false)], [1, 4, 2, 0, 3]),
        (&[(false, true)], [0, 3, 2, 1, 4]),
        (&[(true, false)], [4, 1, 2, 3, 0]),
        (&[(false, true), (true, false)], [3, 0, 2, 4, 1]),
        (&[(true, true), (false, false)], [0, 1, 2, 3, 4]),
    ];
    for (order, expected) in cases {
        let numbers = sorted_list(alloc, order, &list)?;
        assert_eq!(rt; numbers.as_slice(), expected.as_slice());
    }
    Ok(())
}

/// The numbers of the many rows by text, and then by number from the greatest one on.
fn sorted_many(alloc: Global) -> Result<Vec<u64>, AllocError> {
    let rows = many_rows(alloc)?;
    let keys = keys(alloc, &[(true, false), (false, true)])?;
    sorted(alloc, &keys, &rows)
}

/// The same by their definition.
fn expected_many(alloc: Global) -> Result<Vec<u64>, AllocError> {
    let mut expected = Vec::new(alloc);
    for text in 0..37u32 {
        for less in 0..11u32 {
            let wanted = if less < 10 {
                Some(i64::from(9 - less))
            } else {
                None
            };
            for i in 0..1000u32 {
                if i % 37 == text && number_of(i) == wanted {
                    expected.push(u64::from(i))?;
                }
            }
        }
    }
    Ok(expected)
}

#[test]
fn sorts_many_rows(rt: HostRuntime) -> Result<(), Fail> {
    let numbers = sorted_many(rt.alloc())?;
    let expected = expected_many(rt.alloc())?;
    assert_eq!(rt; numbers.as_slice(), expected.as_slice());
    Ok(())
}

fn take_all(core: &mut GroupCore, rows: &Rows) -> Result<(), AllocError>
    requires open { core.old.closed ≡ false }
    requires none { core.old.groups ≡ grouped core.old.keys core.old.items [] }
    requires keys { AllBelow core.old.keys 2 }
    requires items { All (IsWithin 2) core.old.items }
    requires pairs { All (λ row. (length row ≡ 2) × IsShort (cell row 0)) rows.now }
    requires few { AreFew core.old.items rows.now }
    ensures { OnOk result (core.new ≡ record core.old { groups = grouped core.old.keys core.old.items rows.now }) }
{
    for row in rows.as_slice() {
        core.take(row)?;
    }
    Ok(())
}

/// By which columns rows are grouped.
#[derive(Clone, Copy, Debug, PartialEq)]
enum By {
    Nothing,
    Number,
    Text,
    Both,
}

fn key_columns(alloc: Global, by: By) -> Result<Columns, AllocError>
    ensures within { IfOk result (λ keys. AllBelow keys 2) }
    ensures few { IfOk result (λ keys. length keys ≤ 2) }
{
    match by {
        By::Nothing => Columns::from_slice(alloc, &[]),
        By::Number => Columns::from_slice(alloc, &[0]),
        By::Text => Columns::from_slice(alloc, &[1]),
        By::Both => Columns::from_slice(alloc, &[0, 1]),
    }
}

/// The groups of rows: how many rows and numbers they are, the sum, the least and the greatest number, and the greatest text.
fn groups(alloc: Global, by: By, rows: &Rows) -> Result<String, AllocError>
    requires pairs { All (λ row. (length row ≡ 2) × IsShort (cell row 0)) rows.now }
    requires few { length rows.now ≤ 1000 }
{
    let keys = key_columns(alloc, by)?;
    let items = [
        Aggregate::CountAll,
        Aggregate::Count(0),
        Aggregate::Sum(0),
        Aggregate::Min(0),
        Aggregate::Max(0),
        Aggregate::Max(1),
    ];
    let items = Aggregates::from_slice(alloc, &items)?;
    let mut core = GroupCore::new(alloc, &keys, &items)?;
    take_all(&mut core, rows)?;
    core.close()?;
    written(alloc, &mut core, keys.len() as u32 + 6)
}

/// The groups as they are handed out, each with a line behind it.
fn written(alloc: Global, core: &mut GroupCore, width: u32) -> Result<String, AllocError>
    requires closed { core.old.closed ≡ true }
    requires columns { width ≡ length core.old.keys + length core.old.items }
{
    let mut text = String::new(alloc);
    while let Some(group) = core.hand() {
        for column in 0..width {
            let piece = match core.cell(group, column) {
                Value::Null => format!(in alloc; "null ")?,
                Value::Int(n) => format!(in alloc; "{n} ")?,
                Value::Text(t) => format!(in alloc; "'{}' ", t.as_str())?,
            };
            text.push_str(piece.as_str())?;
        }
        text.push_str("/ ")?;
    }
    Ok(text)
}

/// The groups of the rows of a list.
fn groups_of(alloc: Global, by: By, list: &[(Option<i64>, &str)]) -> Result<String, AllocError>
    requires { length list.now ≤ 1000 }
{
    let rows = rows(alloc, list)?;
    groups(alloc, by, &rows)
}

/// Compares the groups of the rows of a list with a text.
fn compare_text(
    rt: &impl Abort,
    alloc: Global,
    by: By,
    list: &[(Option<i64>, &str)],
    text: &str,
) -> Result<(), AllocError>
    requires { length list.now ≤ 1000 }
{
    assert_eq!(rt; groups_of(alloc, by, list)?.as_str(), text);
    Ok(())
}

#[test]
fn groups_small_lists(rt: HostRuntime) -> Result<(), Fail> {
    let alloc = rt.alloc();
    let big = i64::MAX;
    let list = [
        (Some(7), "b"),
        (None, "a"),
        (Some(3), "a"),
        (Some(big), "b"),
        (Some(big), "b"),
        (None, ""),
    ];
    let by_text =
        "'b' 3 3 18446744073709551621 7 9223372036854775807 'b' / 'a' 2 1 3 3 3 'a' / '' 1 0 null null null '' / ";
    let whole = "6 4 18446744073709551624 3 9223372036854775807 'b' / ";
    compare_text(&rt, alloc, By::Text, &list, by_text)?;
    compare_text(&rt, alloc, By::Nothing, &list, whole)?;
    compare_text(&rt, alloc, By::Text, &[], "")?;
    compare_text(&rt, alloc, By::Nothing, &[], "0 0 null null null null / ")?;
    Ok(())
}

/// How many rows and numbers a group has, and the sum, the least and the greatest of its numbers.
#[derive(Clone, Copy)]
struct Group {
    all: u32,
    count: u32,
    sum: Option<i64>,
    least: Option<i64>,
    most: Option<i64>,
}

const NO_ROWS: Group = Group {
    all: 0,
    count: 0,
    sum: None,
    least: None,
    most: None,
};

/// A group with one row more.
fn with_row(group: Group, number: Option<i64>) -> Group {
    let all = group.all.saturating_add(1);
    match number {
        Some(n) => Group {
            all,
            count: group.count.saturating_add(1),
            sum: Some(group.sum.unwrap_or(0).saturating_add(n)),
            least: Some(group.least.unwrap_or(n).min(n)),
            most: Some(group.most.unwrap_or(n).max(n)),
        },
        None => Group { all, ..group },
    }
}

fn push_number(alloc: Global, line: &mut String, number: Option<i64>) -> Result<(), AllocError> {
    match number {
        Some(n) => line.push_str(format!(in alloc; "{n} ")?.as_str()),
        None => line.push_str("null "),
    }
}

fn push_text(line: &mut String, text: &str) -> Result<(), AllocError> {
    line.push_str("'")?;
    line.push_str(text)?;
    line.push_str("' ")
}

/// Writes the numbers of a group, its greatest text, and a line.
fn push_group(
    alloc: Global,
    line: &mut String,
    group: Group,
    text: &str,
) -> Result<(), AllocError> {
    line.push_str(format!(in alloc; "{} {} ", group.all, group.count)?.as_str())?;
    push_number(alloc, line, group.sum)?;
    push_number(alloc, line, group.least)?;
    push_number(alloc, line, group.most)?;
    push_text(line, text)?;
    line.push_str("/ ")
}

/// Writes the group of the many rows with this text.
fn push_many(alloc: Global, line: &mut String, number: u32) -> Result<(), AllocError> {
    let mut group = NO_ROWS;
    for i in 0..1000u32 {
        if i % 37 == number {
            group = with_row(group, number_of(i));
        }
    }
    let text = format!(in alloc; "{number:02}")?;
    push_text(line, text.as_str())?;
    push_group(alloc, line, group, text.as_str())
}

fn expected_many_groups(alloc: Global) -> Result<String, AllocError> {
    let mut line = String::new(alloc);
    for number in 0..37u32 {
        push_many(alloc, &mut line, number)?;
    }
    Ok(line)
}

fn many_groups(alloc: Global) -> Result<String, AllocError> {
    let rows = many_rows(alloc)?;
    groups(alloc, By::Text, &rows)
}

#[test]
fn groups_many_rows(rt: HostRuntime) -> Result<(), Fail> {
    let found = many_groups(rt.alloc())?;
    let expected = expected_many_groups(rt.alloc())?;
    assert_eq!(rt; found.as_str(), expected.as_str());
    Ok(())
}

/// Rows of a fixed sequence: one number in six is NULL, the others are -2 to 2, and the texts are three.
fn drawn(
    alloc: Global,
    seed: u32,
    count: u32,
) -> Result<Vec<(Option<i64>, &'static str)>, AllocError>
    ensures { IfOk result (λ list. length list.items ≡ count) }
{
    let mut state = seed;
    let mut list = Vec::new(alloc);
    for _ in 0..count {
        state = state.wrapping_mul(1_664_525).wrapping_add(1_013_904_223);
        let number = match (state >> 16) % 6 {
            0 => None,
            n => Some(i64::from(n) - 3),
        };
        let text = match (state >> 24) % 3 {
            0 => "",
            1 => "a",
            _ => "b",
        };
        list.push((number, text))?;
    }
    Ok(list)
}

/// Whether a row stands before another one by these keys, or by its number where they are equal.
fn stands_before(
    keys: &[(bool, bool)],
    list: &[(Option<i64>, &str)],
    one: usize,
    other: usize,
) -> bool
    requires one { one < length list.now }
    requires other { other < length list.now }
{
    for (second, descending) in keys {
        let order = if *second {
            list[one].1.cmp(list[other].1)
        } else {
            list[one].0.cmp(&list[other].0)
        };
        match order {
            Ordering::Less => return !*descending,
            Ordering::Greater => return *descending,
            Ordering::Equal => {}
        }
    }
    one < other
}

/// At which place a row stands.
fn place_of(order: &[(bool, bool)], list: &[(Option<i64>, &str)], one: usize) -> usize
    requires { one < length list.now }
{
    let mut place: usize = 0;
    for other in 0..list.len() {
        if stands_before(order, list, other, one) {
            place = place.saturating_add(1);
        }
    }
    place
}

/// Compares the sort of a list with the places of its rows.
fn compare_order(
    rt: &impl Abort,
    alloc: Global,
    order: &[(bool, bool)],
    list: &[(Option<i64>, &str)],
    seed: u32,
) -> Result<(), AllocError> {
    let numbers = sorted_list(alloc, order, list)?;
    assert_eq!(rt; numbers.len(), list.len());
    for one in 0..list.len() {
        let place = place_of(order, list, one);
        assert_eq!(rt; numbers.get(place), Some(&(one as u64)), "{seed}");
    }
    Ok(())
}

#[test]
fn sorts_drawn_lists(rt: HostRuntime) -> Result<(), Fail> {
    let alloc = rt.alloc();
    let cases: [&[(bool, bool)]; 5] = [
        &[(false, false)],
        &[(false, true)],
        &[(true, false), (false, true)],
        &[(false, true), (true, true)],
        &[(true, true)],
    ];
    for seed in 0..40u32 {
        let list = drawn(alloc, seed, seed)?;
        for order in cases {
            compare_order(&rt, alloc, order, list.as_slice(), seed)?;
        }
    }
    Ok(())
}

fn same_group(by: By, one: (Option<i64>, &str), other: (Option<i64>, &str)) -> bool {
    match by {
        By::Nothing => true,
        By::Number => one.0 == other.0,
        By::Text => one.1 == other.1,
        By::Both => one.0 == other.0 && one.1 == other.1,
    }
}

fn push_key(
    alloc: Global,
    line: &mut String,
    by: By,
    row: (Option<i64>, &str),
) -> Result<(), AllocError> {
    match by {
        By::Nothing => Ok(()),
        By::Number => push_number(alloc, line, row.0),
        By::Text => push_text(line, row.1),
        By::Both => {
            push_number(alloc, line, row.0)?;
            push_text(line, row.1)
        }
    }
}

/// The group of this row.
fn group_of(by: By, list: &[(Option<i64>, &str)], row: (Option<i64>, &str)) -> Group {
    let mut group = NO_ROWS;
    for other in list {
        if same_group(by, row, *other) {
            group = with_row(group, other.0);
        }
    }
    group
}

/// The greatest text of this row's group.
fn greatest_text<'a>(
    by: By,
    list: &[(Option<i64>, &'a str)],
    row: (Option<i64>, &'a str),
) -> &'a str {
    let mut greatest = "";
    for other in list {
        if same_group(by, row, *other) && other.1 > greatest {
            greatest = other.1;
        }
    }
    greatest
}

/// The groups of a list by their definition.
fn expected_groups(
    alloc: Global,
    by: By,
    list: &[(Option<i64>, &str)],
) -> Result<String, AllocError> {
    let mut line = String::new(alloc);
    for (at, row) in list.iter().enumerate() {
        if !list[..at].iter().any(|other| same_group(by, *row, *other)) {
            push_key(alloc, &mut line, by, *row)?;
            let group = group_of(by, list, *row);
            push_group(alloc, &mut line, group, greatest_text(by, list, *row))?;
        }
    }
    Ok(line)
}

/// Compares the groups of a list with those of their definition.
fn compare_groups(
    rt: &impl Abort,
    alloc: Global,
    by: By,
    list: &[(Option<i64>, &str)],
    seed: u32,
) -> Result<(), AllocError>
    requires { length list.now ≤ 1000 }
{
    let found = groups_of(alloc, by, list)?;
    let expected = expected_groups(alloc, by, list)?;
    assert_eq!(rt; found.as_str(), expected.as_str(), "{seed} {by:?}");
    Ok(())
}

#[test]
fn groups_drawn_lists(rt: HostRuntime) -> Result<(), Fail> {
    let alloc = rt.alloc();
    for seed in 1..60u32 {
        let list = drawn(alloc, seed, seed)?;
        for by in [By::Nothing, By::Number, By::Text, By::Both] {
            compare_groups(&rt, alloc, by, list.as_slice(), seed)?;
        }
    }
    Ok(())
}
