//! Files with ample memory: which answer each gives.
ghost use Rattle.std.specs.Prelude.{◌≡◌, ◌≤◌, All, IfOk, length};
ghost use Rattle.pm_values.specs.Order.{NamesColumns};
ghost use Rattle.pm_values.specs.Table.{HasValidKind, IsValidKind, RefersByOwn};

use pm_tables::{Records, check_reference, load, records, type_rows};
use pm_values::{
    ColumnDecl, ColumnDecls, Columns, Comparison, Cond, Kind, Operand, Reference, References, Row,
    Table, TableDecl, Txt, Value, copy_row,
};
use std::alloc::{AllocError, Global};
use std::test::Fail;

fn column(alloc: Global, name: &str, kind: Kind, nullable: bool) -> Result<ColumnDecl, AllocError>
    ensures { IfOk result (λ column. column.kind ≡ kind) }
{
    Ok(ColumnDecl {
        name: Txt::new(alloc, name)?,
        kind,
        nullable,
    })
}

fn columns(alloc: Global, first: Kind, second: Kind) -> Result<ColumnDecls, AllocError>
    requires first { IsValidKind first }
    requires second { IsValidKind second }
    ensures count { IfOk result (λ columns. length columns ≡ 2) }
    ensures scales { IfOk result (All HasValidKind) }
{
    let mut columns = ColumnDecls::new(alloc);
    columns.push(column(alloc, "p", first, second == Kind::Int)?)?;
    columns.push(column(alloc, "q", second, second != Kind::Int)?)?;
    Ok(columns)
}

fn first_column(alloc: Global, wanted: bool) -> Result<Option<Columns>, AllocError>
    ensures { IfOk result (λ numbers. NamesColumns numbers 2) }
{
    if wanted {
        Ok(Some(Columns::from_slice(alloc, &[0])?))
    } else {
        Ok(None)
    }
}

// A table of two columns p and q. Where q is INT it is NOT NULL, and p may be NULL; else it is the other way round.
fn declared(
    alloc: Global,
    first: Kind,
    second: Kind,
    key: bool,
    order: bool,
) -> Result<TableDecl, AllocError>
    requires first { IsValidKind first }
    requires second { IsValidKind second }
{
    let name = Txt::new(alloc, "t")?;
    let file = Txt::new(alloc, "t.csv")?;
    let columns = columns(alloc, first, second)?;
    let key = first_column(alloc, key)?;
    let order = first_column(alloc, order)?;
    Ok(TableDecl::new(name, file, columns, key, order, References::new(alloc)))
}

// The values of a table: numbers, texts in quotes, and a line behind each row.
fn written(alloc: Global, table: &Table) -> Result<String, AllocError> {
    let mut text = String::new(alloc);
    for row in table.rows().as_slice() {
        for value in row.as_slice() {
            let piece = match value {
                Value::Null => format!(in alloc; "null ")?,
                Value::Int(n) => format!(in alloc; "{n} ")?,
                Value::Text(t) => format!(in alloc; "'{}' ", t.as_str())?,
            };
            text.push_str(piece.as_str())?;
        }
        text.push_str("/")?;
    }
    Ok(text)
}

// What a file of at most five records gives.
fn answer(alloc: Global, decl: TableDecl, bytes: &[u8]) -> Result<String, AllocError> {
    let table = load(alloc, decl, bytes, 5);
    let text = match &table {
        Ok(table) => written(alloc, table),
        Err(e) => format!(in alloc; "{e:?}"),
    };
    drop(table);
    text
}

// What a file of at most five records of numbers gives.
fn numbers(alloc: Global, text: &str) -> Result<String, AllocError> {
    let decl = declared(alloc, Kind::Num(2), Kind::Int, false, false)?;
    answer(alloc, decl, text.as_bytes())
}

#[test]
fn files_of_numbers(rt: HostRuntime) -> Result<(), Fail> {
    let alloc = rt.alloc();
    let cases = [
        ("", "NoHeader"),
        ("p\n", "Header(2)"),
        ("p,r\n", "Header(2)"),
        ("p,q,x\n", "Header(3)"),
        ("p,q\n1,2\n1,2\n1,2\n1,2\n1,2\nx\n", "TooManyRows"),
        ("p,q\n1\n", "Width(1)"),
        ("p,q\n1,2\n1,2,3\n", "Width(2)"),
        ("p,q\n12.505,1\n", "Field(1, 1)"),
        ("p,q\nx,1\n1,2\n1,2\n1,2\n1,2\n1,2\n", "TooManyRows"),
        (
            "p,q\n0000000000000000000000000000.5,000000000000000000000000000001\n",
            "50 1 /",
        ),
        ("p,q\n1,9223372036854775808\n", "Field(1, 2)"),
        ("p,q\n1,\n", "Field(1, 2)"),
        ("p,q\n1,2\n1.,2\n", "Field(2, 1)"),
        ("p,q\n92233720368547758.08,2\n", "Field(1, 1)"),
        ("p,q\n-0.050,+7\n", "-5 7 /"),
        (
            "p,q\n-92233720368547758.08,-9223372036854775808\n",
            "-9223372036854775808 -9223372036854775808 /",
        ),
        ("\u{feff}p,q\n,1\n2.5,-0", "null 1 /250 0 /"),
        ("\u{feff}\u{feff}p,q\n", "Header(1)"),
    ];
    for (text, want) in cases {
        assert_eq!(rt; numbers(alloc, text)?.as_str(), want, "{text}");
    }
    Ok(())
}

// What a file of at most five records of a number and a text gives, where the number is the KEY and the ORDER or is neither.
fn texts(alloc: Global, key: bool, bytes: &[u8]) -> Result<String, AllocError> {
    let decl = declared(alloc, Kind::Int, Kind::Text, key, key)?;
    answer(alloc, decl, bytes)
}

#[test]
fn files_with_a_key(rt: HostRuntime) -> Result<(), Fail> {
    let alloc = rt.alloc();
    let cases = [
        ("p,q\n1,A\n2,B\n3,C\n4,D\n2,E\n", "DoubleKey(2, 5)"),
        ("p,q\n-0,A\n0,B\n", "DoubleKey(1, 2)"),
        ("p,q\n1,A\n1,B\nz,C\n", "Field(3, 1)"),
        ("p,q\n3,A\n1,B\n3,C\n", "DoubleKey(1, 3)"),
        ("p,q\n1,A\n3,B\n2,C\n", "OutOfOrder(3)"),
        (
            "p,q\r\n1,\"x,\"\"y\r\nz\"\r\n2,\"\"\r\n",
            "1 'x,\"y\r\nz' /2 null /",
        ),
    ];
    for (text, want) in cases {
        assert_eq!(rt;
            texts(alloc, true, text.as_bytes())?.as_str(),
            want,
            "{text}"
        );
    }
    assert_eq!(rt; texts(alloc, false, b"p,q\n\xff")?.as_str(), "NotText(4)");
    Ok(())
}

// The values of the records from one position up to another.
fn typed(alloc: Global, decl: &TableDecl, list: &Records, from: u32) -> Result<String, AllocError> {
    let to = list.len();
    if from > to {
        return String::from_str(alloc, "none");
    }
    match type_rows(alloc, decl, list, from, to) {
        Ok(rows) => format!(in alloc; "{} of {to}", rows.len()),
        Err(e) => format!(in alloc; "{e:?}"),
    }
}

// What the records of a file of numbers are, without the first.
fn listed(alloc: Global, text: &str) -> Result<String, AllocError> {
    let decl = declared(alloc, Kind::Num(2), Kind::Int, false, false)?;
    let list = records(alloc, &decl, text.as_bytes(), 5);
    let text = match &list {
        Ok(list) => typed(alloc, &decl, list, 1),
        Err(e) => format!(in alloc; "{e:?}"),
    };
    drop(list);
    text
}

#[test]
fn records_are_listed_and_typed_in_parts(rt: HostRuntime) -> Result<(), Fail> {
    let alloc = rt.alloc();
    for (text, want) in [
        ("", "NoHeader"),
        ("p,r\n", "Header(2)"),
        ("p,q\n1,2\n1,2\n1,2\n1,2\n1,2\n1,2\n", "TooManyRows"),
        ("p,q\nx\n1,2\n3,4\n", "2 of 3"),
        ("p,q\nx\n1,2\n3,\n", "Field(3, 2)"),
        ("p,q\n1,2\n1,2,3\n", "Width(2)"),
        ("p,q\n", "none"),
    ] {
        assert_eq!(rt; listed(alloc, text)?.as_str(), want, "{text}");
    }
    Ok(())
}

// One reference, of the second column to the first of the same table.
fn second_to_first(alloc: Global) -> Result<References, AllocError>
    ensures count { IfOk result (λ references. length references ≡ 1) }
    ensures own { IfOk result (All (RefersByOwn 2)) }
{
    let mut references = References::new(alloc);
    references.push(Reference {
        columns: Columns::from_slice(alloc, &[1])?,
        target: Txt::new(alloc, "t")?,
        keys: Columns::from_slice(alloc, &[0])?,
    })?;
    Ok(references)
}

// A table of two columns p and q of two decimals, of which q may be NULL. The KEY is p, and q refers to it.
fn referring(alloc: Global) -> Result<TableDecl, AllocError>
    ensures { IfOk result (λ decl. length decl.references ≡ 1) }
{
    let name = Txt::new(alloc, "t")?;
    let file = Txt::new(alloc, "t.csv")?;
    let columns = columns(alloc, Kind::Num(2), Kind::Num(2))?;
    let key = first_column(alloc, true)?;
    Ok(TableDecl::new(name, file, columns, key, None, second_to_first(alloc)?))
}

// Whether each row of a file of at most 2,000 records has a row to which it refers.
fn checked(alloc: Global, bytes: &[u8]) -> Result<String, AllocError> {
    let table = load(alloc, referring(alloc)?, bytes, 2000);
    let text = match &table {
        Ok(table) => checked_table(alloc, table),
        Err(e) => format!(in alloc; "{e:?}"),
    };
    drop(table);
    text
}

fn checked_table(alloc: Global, table: &Table) -> Result<String, AllocError>
    requires { length table.now.decl.references ≡ 1 }
{
    match check_reference(alloc, table, 1, table) {
        Ok(()) => format!(in alloc; "{} rows", table.rows().len()),
        Err(e) => format!(in alloc; "{e:?}"),
    }
}

// 1,999 records in no order, each of which refers to another one, and a last record.
fn many(alloc: Global, last: &str) -> Result<String, AllocError> {
    let mut text = String::from_str(alloc, "p,q\n")?;
    for at in 1..2000u32 {
        let line = format!(in alloc; "{},{}\n", at * 7 % 2003, (2000 - at) * 7 % 2003)?;
        text.push_str(line.as_str())?;
    }
    text.push_str(last)?;
    Ok(text)
}

// The same of the file of many records.
fn checked_many(alloc: Global, last: &str) -> Result<String, AllocError> {
    let text = many(alloc, last)?;
    checked(alloc, text.as_str().as_bytes())
}

#[test]
fn references_of_a_table_to_itself(rt: HostRuntime) -> Result<(), Fail> {
    let alloc = rt.alloc();
    for (text, want) in [
        ("p,q\n", "0 rows"),
        ("p,q\n2,1\n1,1.00\n", "2 rows"),
        ("p,q\n2,1\n1,3\n3,4\n5,0\n", "NoTarget(3, 1)"),
        ("p,q\n2,2\n1,\n", "NoTarget(2, 1)"),
        ("p,q\n2,9\n2,9\n", "DoubleKey(1, 2)"),
    ] {
        assert_eq!(rt; checked(alloc, text.as_bytes())?.as_str(), want, "{text}");
    }
    Ok(())
}

#[test]
fn references_of_many_records(rt: HostRuntime) -> Result<(), Fail> {
    let alloc = rt.alloc();
    for (last, want) in [
        ("1982,7\n", "2000 rows"),
        ("1982,0.07\n", "NoTarget(2000, 1)"),
        ("7,7\n", "DoubleKey(1, 2000)"),
    ] {
        assert_eq!(rt; checked_many(alloc, last)?.as_str(), want, "{last}");
    }
    Ok(())
}

// A row with each kind of value, or a copy of it, as it is written.
fn row_text(alloc: Global, copied: bool) -> Result<String, AllocError> {
    let mut row = Row::new(alloc);
    row.push(Value::Null)?;
    row.push(Value::Int(-7))?;
    row.push(Value::Text(Txt::new(alloc, "seven")?))?;
    if copied {
        row = copy_row(alloc, &row)?;
    }
    format!(in alloc; "{row:?} ")
}

// A condition with a text, or a copy of it, as it is written.
fn condition_text(alloc: Global, copied: bool) -> Result<String, AllocError> {
    let mut cond = Cond::Compare {
        how: Comparison::AtMost,
        left: Operand::Column { at: 1, scale: 2 },
        right: Operand::Literal {
            value: Value::Text(Txt::new(alloc, "x")?),
            scale: 0,
        },
    };
    if copied {
        cond = cond.copy(alloc)?;
    }
    format!(in alloc; "{cond:?} ")
}

// A declaration with a key and a reference, or a copy of it, as it is written.
fn declaration_text(alloc: Global, copied: bool) -> Result<String, AllocError> {
    let mut decl = referring(alloc)?;
    if copied {
        decl = decl.copy(alloc)?;
    }
    format!(in alloc; "{decl:?}")
}

// A row, a condition and a declaration, or their copies, as they are written.
fn all_texts(alloc: Global, copied: bool) -> Result<String, AllocError> {
    let mut text = row_text(alloc, copied)?;
    text.push_str(condition_text(alloc, copied)?.as_str())?;
    text.push_str(declaration_text(alloc, copied)?.as_str())?;
    Ok(text)
}

#[test]
fn copies_are_equal(rt: HostRuntime) -> Result<(), Fail> {
    let original = all_texts(rt.alloc(), false)?;
    let copy = all_texts(rt.alloc(), true)?;
    assert_eq!(rt; copy.as_str(), original.as_str());
    assert!(rt; copy.len() > 100);
    Ok(())
}

fn wide_column(alloc: Global, number: u32) -> Result<ColumnDecl, AllocError>
    ensures { IfOk result HasValidKind }
{
    let name = format!(in alloc; "c{number}")?;
    column(alloc, name.as_str(), Kind::Int, false)
}

fn wide_columns(alloc: Global) -> Result<ColumnDecls, AllocError>
    ensures count { IfOk result (λ columns. length columns ≡ 64) }
    ensures scales { IfOk result (All HasValidKind) }
{
    let mut columns = ColumnDecls::new(alloc);
    for number in 0..64u32 {
        columns.push(wide_column(alloc, number)?)?;
    }
    Ok(columns)
}

// A table of 64 columns of numbers, of which the last one is the KEY.
fn wide(alloc: Global) -> Result<TableDecl, AllocError> {
    let columns = wide_columns(alloc)?;
    let key = Columns::from_slice(alloc, &[63])?;
    let name = Txt::new(alloc, "w")?;
    let file = Txt::new(alloc, "w.csv")?;
    Ok(TableDecl::new(name, file, columns, Some(key), None, References::new(alloc)))
}

fn wide_header(alloc: Global) -> Result<String, AllocError> {
    let mut text = String::new(alloc);
    for number in 0..63u32 {
        text.push_str(format!(in alloc; "c{number},")?.as_str())?;
    }
    text.push_str("c63\n")?;
    Ok(text)
}

// A record of 64 fields, which is 63 times one field and then another.
fn wide_record(alloc: Global, others: &str, last: &str) -> Result<String, AllocError> {
    let mut text = others.repeat(alloc, 63)?;
    text.push_str(last)?;
    Ok(text)
}

// A file with these records of 64 fields, each 63 times one field and then another.
fn wide_file(alloc: Global, records: &[(&str, &str)]) -> Result<String, AllocError> {
    let mut text = wide_header(alloc)?;
    for (others, last) in records {
        text.push_str(wide_record(alloc, others, last)?.as_str())?;
    }
    Ok(text)
}

// What a file of three records of 64 fields gives, of which the last field of the last record is this one.
fn wide_answer(alloc: Global, last: &str) -> Result<String, AllocError> {
    let text = wide_file(alloc, &[("7,", "1\n"), ("7,", "2\n"), ("8,", last)])?;
    let table = load(alloc, wide(alloc)?, text.as_str().as_bytes(), 5);
    let text = match &table {
        Ok(table) => format!(in alloc; "{} rows", table.rows().len()),
        Err(e) => format!(in alloc; "{e:?}"),
    };
    drop(table);
    text
}

#[test]
fn the_last_of_64_columns_is_a_key(rt: HostRuntime) -> Result<(), Fail> {
    let alloc = rt.alloc();
    for (last, want) in [("1\n", "DoubleKey(1, 3)"), ("3\n", "3 rows")] {
        assert_eq!(rt; wide_answer(alloc, last)?.as_str(), want, "{last}");
    }
    Ok(())
}
