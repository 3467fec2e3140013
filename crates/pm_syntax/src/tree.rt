//! The trees of statements, with the places of what was read.
use pm_grammar::PlacedName;
use pm_values::{Comparison, Txt};

/// A column by its name, after the alias of its source where one stands.
#[derive(Debug, Drop)]
pub struct ColumnName {
    pub alias: Option<PlacedName>,
    pub name: PlacedName,
}

/// A list of columns.
pub type ColumnNames = pm_values::Items<ColumnName>;

/// An aggregate of a column.
#[derive(Clone, Copy, Debug, PartialEq, Eq)]
pub enum Func {
    Count,
    Sum,
    Min,
    Max,
}

/// A column, `COUNT(*)`, or an aggregate of a column; `at` is the place of the function's name.
#[derive(Debug, Drop)]
pub enum Expr {
    Column(ColumnName),
    CountAll {
        at: u64,
    },
    Call {
        func: Func,
        column: ColumnName,
        at: u64,
    },
}

/// A selected expression, with the name that it is given.
#[derive(Debug, Drop)]
pub struct Item {
    pub expr: Expr,
    pub given: Option<PlacedName>,
}

/// A list of selected expressions.
pub type SelectItems = pm_values::Items<Item>;

/// What is selected: `*`, or expressions.
#[derive(Debug, Drop)]
pub enum Items {
    All { at: u64 },
    List(SelectItems),
}

/// How an entry of FROM follows those before it: after a comma, as the first entry does after FROM, after JOIN or INNER
/// JOIN, or after LEFT JOIN or LEFT OUTER JOIN.
#[derive(Clone, Copy, Debug, PartialEq, Eq)]
pub enum Link {
    Comma,
    Join,
    LeftJoin,
}

/// An entry of FROM: a table, the name that it is given, the condition after ON, and whether it stands after LEFT JOIN.
/// The first entry and an entry after a comma have no condition.
#[derive(Debug, Drop)]
pub struct Source {
    pub table: PlacedName,
    pub alias: Option<PlacedName>,
    pub on: Option<Test>,
    pub left: bool,
}

/// A list of sources.
pub type Sources = pm_values::Items<Source>;

/// A literal. A number is `value` times 10^-`decimals`.
#[derive(Debug, Drop)]
pub enum Literal {
    Null,
    Number { value: i128, decimals: u8 },
    Text(Txt),
}

/// A list of literals.
pub type Literals = pm_values::Items<Literal>;

/// An operand of a test.
#[derive(Debug, Drop)]
pub enum Atom {
    Expr(Expr),
    Literal(Literal),
}

/// A condition. `Any` and `All` are lists of two or more members between OR and AND. `at` is the place of the
/// comparison sign, or of the word NOT, IN or BETWEEN after the first operand.
#[derive(Debug, Drop)]
pub enum Test {
    Any(sqlite_items::Items<Test>),
    All(sqlite_items::Items<Test>),
    Not(sqlite_items::Boxed<Test>),
    Compare {
        how: Comparison,
        left: Atom,
        right: Atom,
        at: u64,
    },
    IsNull {
        of: Atom,
        negated: bool,
    },
    OneOf {
        of: Atom,
        list: Literals,
        negated: bool,
        at: u64,
    },
    Between {
        of: Atom,
        low: Atom,
        high: Atom,
        negated: bool,
        at: u64,
    },
}

/// The members of a condition.
pub type Tests = sqlite_items::Items<Test>;

/// An entry of ORDER BY.
#[derive(Debug, Drop)]
pub struct OrderItem {
    pub expr: Expr,
    pub descending: bool,
}

/// A list of ORDER BY entries.
pub type OrderItems = pm_values::Items<OrderItem>;

/// A SELECT statement.
#[derive(Debug, Drop)]
pub struct Select {
    pub distinct: bool,
    pub items: Items,
    pub sources: Sources,
    pub filter: Option<Test>,
    pub groups: ColumnNames,
    pub having: Option<Test>,
    pub orders: OrderItems,
}
