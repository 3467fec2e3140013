//! Reads tests, and conditions made of them by AND, OR, NOT and parentheses.
ghost use Rattle.std.specs.Prelude.{◌≡◌, length, nat_le, unwrap_or};
ghost use Rattle.std.specs.Option.{option_copied};
ghost use Rattle.pm_lexer.specs.declared.symbol.Symbol.TheVariants as symbol;
ghost use Rattle.pm_lexer.specs.Symbol.{is};
ghost use Rattle.pm_grammar.specs.Reading.{token_at, entry_at, sees};
ghost use Rattle.pm_grammar.specs.Steps.{more_at};
ghost use Rattle.pm_syntax.specs.Grammar.{all_of, any_of};
ghost use Rattle.pm_grammar.specs.Outcome.{Gives};
ghost use Rattle.pm_syntax.specs.Terminals.{comparison_of};
ghost use Rattle.pm_syntax.specs.Reading.{literals_at, compare_after, null_after, in_after, between_after, range_after, test_after, test_at, ands_at, cond_at, part_peek, part_at, condition_at};

use crate::expressions::operand;
use crate::terminals::{ComparisonSign, Opening, TestStart, comparison};
use crate::tree::{Atom, Literal, Literals, Test, Tests};
use pm_grammar::{SynBad, list, optional, place, sees, strip_terminal, token};
use pm_lexer::{Symbol, Token};
use pm_values::Comparison;
use sqlite_items::Boxed;
use std::alloc::Global;

/// At most so many members stand in one list of a condition.
const MEMBERS: usize = 256;

// compare operand, after the left one
#[tactic(auto, unfolding(crate::specs::Reading::compare_after))]
fn compare_after(
    alloc: Global,
    grouped: bool,
    left: Atom,
    tokens: &[Token],
) -> Result<(Test, &[Token]), SynBad>
    ensures { Gives (λ x. (x.0, x.1.now)) result (compare_after grouped left tokens.now) }
{
    let (sign, rest) = token(ComparisonSign, tokens)?;
    let how = comparison(sign).unwrap_or(Comparison::Equal);
    let at = sign.at;
    let (right, rest) = operand(alloc, grouped, rest)?;
    Ok((
        Test::Compare {
            how,
            left,
            right,
            at,
        },
        rest,
    ))
}

// [ NOT ] NULL, after IS
#[tactic(auto, unfolding(crate::specs::Reading::null_after))]
fn null_after(of: Atom, tokens: &[Token]) -> Result<(Test, &[Token]), SynBad>
    ensures { Gives (λ x. (x.0, x.1.now)) result (null_after of tokens.now) }
{
    let (negation, rest) = optional(Symbol::Not, tokens);
    let negated = negation.is_some();
    let (_, rest) = token(Symbol::Null, rest)?;
    Ok((Test::IsNull { of, negated }, rest))
}

// The list of literals of IN.
#[tactic(auto, unfolding(crate::specs::Reading::literals_at))]
fn literals(alloc: Global, tokens: &[Token]) -> Result<(Literals, &[Token]), SynBad>
    ensures { Gives (λ x. (x.0, x.1.now)) result (literals_at tokens.now) }
{
    list::<Literal, Symbol>(alloc, Symbol::Comma, MEMBERS, tokens)
}

// The place of a test that begins with this word, or with NOT before it.
fn test_place(negation: Option<&Token>, word: &Token) -> u64
    ensures { result ≡ (unwrap_or (option_copied negation.entry) word.now).at }
{
    match negation {
        Some(not) => not.at,
        None => word.at,
    }
}

// "(" literal { "," literal } ")", after IN
#[tactic(auto, unfolding(crate::specs::Reading::in_after))]
fn in_after<'a>(
    alloc: Global,
    of: Atom,
    negation: Option<&Token>,
    word: &Token,
    tokens: &'a [Token],
) -> Result<(Test, &'a [Token]), SynBad>
    ensures { Gives (λ x. (x.0, x.1.now)) result (in_after of (option_copied negation.entry) word.now tokens.now) }
{
    let negated = negation.is_some();
    let at = test_place(negation, word);
    let (_, rest) = token(Symbol::Open, tokens)?;
    let (list, rest) = literals(alloc, rest)?;
    let (_, rest) = token(Symbol::Close, rest)?;
    Ok((
        Test::OneOf {
            of,
            list,
            negated,
            at,
        },
        rest,
    ))
}

// operand AND operand, after BETWEEN
#[tactic(auto, unfolding(crate::specs::Reading::between_after))]
fn between_after<'a>(
    alloc: Global,
    grouped: bool,
    of: Atom,
    negation: Option<&Token>,
    word: &Token,
    tokens: &'a [Token],
) -> Result<(Test, &'a [Token]), SynBad>
    ensures { Gives (λ x. (x.0, x.1.now)) result (between_after grouped of (option_copied negation.entry) word.now tokens.now) }
{
    let negated = negation.is_some();
    let at = test_place(negation, word);
    let (low, rest) = operand(alloc, grouped, tokens)?;
    let (_, rest) = token(Symbol::And, rest)?;
    let (high, rest) = operand(alloc, grouped, rest)?;
    Ok((
        Test::Between {
            of,
            low,
            high,
            negated,
            at,
        },
        rest,
    ))
}

// IN or BETWEEN, after an operand and its NOT
#[tactic(auto, unfolding(crate::specs::Reading::range_after))]
fn range_after<'a>(
    alloc: Global,
    grouped: bool,
    of: Atom,
    negation: Option<&Token>,
    tokens: &'a [Token],
) -> Result<(Test, &'a [Token]), SynBad>
    ensures { Gives (λ x. (x.0, x.1.now)) result (range_after grouped of (option_copied negation.entry) tokens.now) }
{
    if sees(Symbol::In, tokens) {
        let (word, rest) = token(Symbol::In, tokens)?;
        return in_after(alloc, of, negation, word, rest);
    }
    let (word, rest) = token(Symbol::Between, tokens)?;
    between_after(alloc, grouped, of, negation, word, rest)
}

// What stands after the first operand of a test.
#[tactic(auto, unfolding(crate::specs::Reading::test_after))]
fn test_after(
    alloc: Global,
    grouped: bool,
    of: Atom,
    tokens: &[Token],
) -> Result<(Test, &[Token]), SynBad>
    ensures { Gives (λ x. (x.0, x.1.now)) result (test_after grouped of tokens.now) }
{
    if sees(ComparisonSign, tokens) {
        return compare_after(alloc, grouped, of, tokens);
    }
    if let Some(rest) = strip_terminal(Symbol::Is, tokens) {
        return null_after(of, rest);
    }
    let (negation, rest) = optional(Symbol::Not, tokens);
    range_after(alloc, grouped, of, negation, rest)
}

// test = operand ( compare operand | IS [ NOT ] NULL | [ NOT ] IN .. | [ NOT ] BETWEEN .. )
#[tactic(auto, unfolding(crate::specs::Reading::test_at))]
fn test(alloc: Global, grouped: bool, tokens: &[Token]) -> Result<(Test, &[Token]), SynBad>
    ensures { Gives (λ x. (x.0, x.1.now)) result (test_at grouped tokens.now) }
{
    let (of, rest) = operand(alloc, grouped, tokens)?;
    test_after(alloc, grouped, of, rest)
}

fn all(mut members: Tests) -> Test
    ensures { result ≡ all_of members }
{
    if members.len() != 1 {
        return Test::All(members);
    }
    members.pop().unwrap()
}

fn any(mut members: Tests) -> Test
    ensures { result ≡ any_of members }
{
    if members.len() != 1 {
        return Test::Any(members);
    }
    members.pop().unwrap()
}

// The first token of a part past the limit of its list.
#[tactic(auto, using(crate::proofs::Parts::peek_deep, crate::proofs::Parts::peek_opens, crate::proofs::Parts::peek_test))]
fn peek(depth: u32, tokens: &[Token]) -> Result<(&Token, &[Token]), SynBad>
    ensures { Gives (λ x. (x.0.now, x.1.now)) result (part_peek depth tokens.now) }
{
    if !sees(Opening, tokens) {
        return token(TestStart, tokens);
    }
    if depth != 0 {
        return token(Opening, tokens);
    }
    Err(SynBad::TooDeep(place(tokens)))
}

// part = NOT part | "(" cond ")" | test
#[tactic(auto, using(crate::proofs::Parts::part_is_deep, crate::proofs::Parts::part_is_not, crate::proofs::Parts::part_is_cond, crate::proofs::Parts::part_is_test))]
#[cycle(cond)]
fn part(
    alloc: Global,
    grouped: bool,
    depth: u32,
    tokens: &[Token],
) -> Result<(Test, &[Token]), SynBad>
    ensures { Gives (λ x. (x.0, x.1.now)) result (part_at grouped depth tokens.now) }
{
    if !sees(Opening, tokens) {
        return test(alloc, grouped, tokens);
    }
    if depth == 0 {
        return Err(SynBad::TooDeep(place(tokens)));
    }
    if let Some(inner) = strip_terminal(Symbol::Not, tokens) {
        let (part, rest) = part(alloc, grouped, depth - 1, inner)?;
        let part = Boxed::new(alloc, part)?;
        return Ok((Test::Not(part), rest));
    }
    let (_, inner) = token(Symbol::Open, tokens)?;
    let (found, rest) = cond(alloc, grouped, depth - 1, inner)?;
    let (_, rest) = token(Symbol::Close, rest)?;
    Ok((found, rest))
}

// A member of an AND list, or why there is none past the limit.
#[cycle(cond)]
fn and_member(
    alloc: Global,
    grouped: bool,
    depth: u32,
    past: bool,
    tokens: &[Token],
) -> Result<(Test, &[Token]), SynBad>
    ensures { Gives (λ x. (x.0, x.1.now)) result (entry_at past (part_peek depth) (part_at grouped depth) tokens.now) }
{
    if past {
        let (_, _) = peek(depth, tokens)?;
        return Err(SynBad::TooMany(place(tokens)));
    }
    part(alloc, grouped, depth, tokens)
}

// part-and = part { AND part }
#[tactic(auto, unfolding(pm_grammar::specs::Steps::list_at, crate::specs::Reading::ands_at))]
#[cycle(cond)]
fn part_and(
    alloc: Global,
    grouped: bool,
    depth: u32,
    tokens: &[Token],
) -> Result<(Test, &[Token]), SynBad>
    ensures { Gives (λ x. (x.0, x.1.now)) result (ands_at (part_peek depth) (part_at grouped depth) tokens.now) }
{
    let mut members = Tests::new(alloc);
    let (first, rest) = part(alloc, grouped, depth, tokens)?;
    members.push(first)?;
    let (members, rest) = more_parts(alloc, grouped, depth, members, rest)?;
    Ok((all(members), rest))
}

#[cycle(cond)]
fn more_parts(
    alloc: Global,
    grouped: bool,
    depth: u32,
    mut members: Tests,
    mut rest: &[Token],
) -> Result<(Tests, &[Token]), SynBad>
    ensures { Gives (λ x. (x.0, x.1.now)) result (more_at (is symbol.And) (token_at (is symbol.And)) (part_peek depth) (λ _. part_at grouped depth) 256 (length rest.entry.now) members rest.entry.now) }
{
    'parts: for _ in 0..rest.len() {
        let Some(next) = strip_terminal(Symbol::And, rest) else {
            return Ok((members, rest));
        };
        let (member, remaining) = and_member(
            alloc,
            grouped,
            depth,
            members.len() >= MEMBERS,
            next,
        )?;
        members.push(member)?;
        rest = remaining;
    }
    Ok((members, rest))
}

// A member of an OR list, or why there is none past the limit.
#[cycle(cond)]
fn or_member(
    alloc: Global,
    grouped: bool,
    depth: u32,
    past: bool,
    tokens: &[Token],
) -> Result<(Test, &[Token]), SynBad>
    ensures { Gives (λ x. (x.0, x.1.now)) result (entry_at past (part_peek depth) (ands_at (part_peek depth) (part_at grouped depth)) tokens.now) }
{
    if past {
        let (_, _) = peek(depth, tokens)?;
        return Err(SynBad::TooMany(place(tokens)));
    }
    part_and(alloc, grouped, depth, tokens)
}

// cond = part-and { OR part-and }
#[tactic(auto, unfolding(pm_grammar::specs::Steps::list_at, crate::specs::Reading::cond_at))]
#[cycle(cond)]
fn cond(
    alloc: Global,
    grouped: bool,
    depth: u32,
    tokens: &[Token],
) -> Result<(Test, &[Token]), SynBad>
    ensures { Gives (λ x. (x.0, x.1.now)) result (cond_at (part_peek depth) (part_at grouped depth) tokens.now) }
{
    let mut members = Tests::new(alloc);
    let (first, rest) = part_and(alloc, grouped, depth, tokens)?;
    members.push(first)?;
    let (members, rest) = more_ands(alloc, grouped, depth, members, rest)?;
    Ok((any(members), rest))
}

#[cycle(cond)]
fn more_ands(
    alloc: Global,
    grouped: bool,
    depth: u32,
    mut members: Tests,
    mut rest: &[Token],
) -> Result<(Tests, &[Token]), SynBad>
    ensures { Gives (λ x. (x.0, x.1.now)) result (more_at (is symbol.Or) (token_at (is symbol.Or)) (part_peek depth) (λ _. ands_at (part_peek depth) (part_at grouped depth)) 256 (length rest.entry.now) members rest.entry.now) }
{
    'ands: for _ in 0..rest.len() {
        let Some(next) = strip_terminal(Symbol::Or, rest) else {
            return Ok((members, rest));
        };
        let (member, remaining) = or_member(alloc, grouped, depth, members.len() >= MEMBERS, next)?;
        members.push(member)?;
        rest = remaining;
    }
    Ok((members, rest))
}

/// A condition with at most so many open parentheses and NOTs, in which aggregates may stand where it is grouped.
#[tactic(auto, unfolding(crate::specs::Reading::condition_at))]
pub(crate) fn condition(
    alloc: Global,
    grouped: bool,
    depth: u32,
    tokens: &[Token],
) -> Result<(Test, &[Token]), SynBad>
    ensures { Gives (λ x. (x.0, x.1.now)) result (condition_at grouped depth tokens.now) }
{
    cond(alloc, grouped, depth, tokens)
}
