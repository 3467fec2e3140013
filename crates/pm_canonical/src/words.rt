ghost use Rattle.std.specs.Prelude.{◌≡◌, ◌++◌, ◌<◌, ◌≤◌, ◌&&◌, ◌-◌, codes, drop, take, length, OnOk, MatchOption, string_bytes, decimal, replicate, not, is_some, int_lt, pos, if◌then◌else◌, ◌==◌, [], ◌∷◌};
ghost use Rattle.std.specs.List.{list_all, flat_map};
ghost use Rattle.pm_lexer.specs.Quoting.{doubled, quoted, is_plain, canon_name};
ghost use Rattle.pm_canonical.specs.Canon.{canon_alias, canon_column, canon_func, canon_expr, canon_number, canon_literal, canon_atom, canon_comparison, canon_given, pointed};

use pm_lexer::put_name;
use pm_syntax::{ColumnName, Expr, Func, PlacedName};
use pm_values::Comparison;
use std::alloc::AllocError;

fn put_alias(out: &mut String, alias: &Option<PlacedName>) -> Result<(), AllocError>
    ensures { OnOk result (string_bytes out.new ≡ string_bytes out.old ++ canon_alias alias.now) }
{
    match alias {
        None => Ok(()),
        Some(alias) => {
            put_name(out, &alias.text)?;
            out.push_str(".")?;
            Ok(())
        }
    }
}

#[tactic(auto, unfolding(crate::specs::Canon::canon_column))]
pub(crate) fn put_column(out: &mut String, column: &ColumnName) -> Result<(), AllocError>
    ensures { OnOk result (string_bytes out.new ≡ string_bytes out.old ++ canon_column column.now) }
{
    put_alias(out, &column.alias)?;
    put_name(out, &column.name.text)
}

fn func_word(func: Func) -> &'static str
    ensures { result.now ≡ canon_func func }
{
    match func {
        Func::Count => "COUNT",
        Func::Sum => "SUM",
        Func::Min => "MIN",
        Func::Max => "MAX",
    }
}

/// Puts the canonical text of an expression at the end: function names in capitals, and names quoted where they have to be.
#[tactic(auto, unfolding(crate::specs::Canon::canon_expr))]
pub fn put_expr(out: &mut String, expr: &Expr) -> Result<(), AllocError>
    ensures { OnOk result (string_bytes out.new ≡ string_bytes out.old ++ canon_expr expr.now) }
{
    match expr {
        Expr::Column(column) => put_column(out, column),
        Expr::CountAll { .. } => {
            out.push_str("COUNT(*)")?;
            Ok(())
        }
        Expr::Call { func, column, .. } => {
            out.push_str(func_word(*func))?;
            out.push_str("(")?;
            put_column(out, column)?;
            out.push_str(")")?;
            Ok(())
        }
    }
}

pub(crate) fn comparison_word(how: Comparison) -> &'static str
    ensures { result.now ≡ canon_comparison how }
{
    match how {
        Comparison::Equal => " = ",
        Comparison::Unequal => " <> ",
        Comparison::Less => " < ",
        Comparison::AtMost => " <= ",
        Comparison::Greater => " > ",
        Comparison::AtLeast => " >= ",
    }
}
