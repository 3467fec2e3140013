//! Names and texts as they are written.
ghost use Rattle.std.specs.Prelude.{◌≡◌, ◌++◌, ◌<◌, ◌≤◌, ◌&&◌, ◌-◌, drop, take, length, OnOk, string_bytes, not, is_some, if◌then◌else◌, ◌==◌, [], ◌∷◌};
ghost use Rattle.std.specs.List.{list_all};
ghost use Rattle.pm_lexer.specs.Byte.{is_letter, is_word};
ghost use Rattle.pm_lexer.specs.Symbol.{reserved_word};
ghost use Rattle.pm_lexer.specs.Quoting.{doubled, quoted, is_plain, canon_name};
ghost use Rattle.pm_lexer.specs.Pieces.{NoneBefore, IsFirst};

use crate::head::{is_letter, is_word};
use crate::symbol::Symbol;
use crate::unquote::quote_at;
use pm_values::Txt;
use std::alloc::AllocError;

/// Writes a name in its canonical form: plain where it has the form of a plain name and is no reserved word, and else
/// between double quotes, with each quote in it doubled.
#[tactic(auto, unfolding(crate::specs::Quoting::canon_name))]
pub fn put_name(out: &mut String, name: &Txt) -> Result<(), AllocError>
    ensures { OnOk result (string_bytes out.new ≡ string_bytes out.old ++ canon_name name.now) }
{
    if is_plain(name.bytes()) {
        out.push_str(name.as_str())?;
        return Ok(());
    }
    put_quoted(out, '"', name.as_str())
}

/// Writes a text between these quotes, each quote in it doubled. The quote is an ASCII character.
pub fn put_quoted(out: &mut String, quote: char, text: &str) -> Result<(), AllocError>
    requires { quote < 128 }
    ensures { OnOk result (string_bytes out.new ≡ string_bytes out.old ++ quoted quote text.now) }
{
    out.push(quote)?;
    put_doubled(out, quote, text)?;
    out.push(quote)?;
    Ok(())
}

// Each quote doubled.
fn put_doubled(out: &mut String, quote: char, text: &str) -> Result<(), AllocError>
    requires { quote < 128 }
    ensures { OnOk result (string_bytes out.new ≡ string_bytes out.old ++ doubled quote text.now) }
{
    let mut rest = text;
    'pieces: loop {
        match quote_at(quote as u8, rest.as_bytes()) {
            None => {
                out.push_str(rest)?;
                return Ok(());
            }
            Some(at) => {
                let (piece, after) = rest.split_at(at + 1);
                out.push_str(piece)?;
                out.push(quote)?;
                rest = after;
            }
        }
    }
}

// Whether a name needs no quotes.
fn is_plain(name: &[u8]) -> bool
    ensures { result ≡ is_plain name.now }
{
    match name {
        [] => false,
        [first, rest @ ..] => {
            let begins = is_letter(*first);
            let goes_on = all_words(rest);
            let reserved = Symbol::reserved_word(name).is_some();
            begins && goes_on && !reserved
        }
    }
}

fn all_words(bytes: &[u8]) -> bool
    ensures { result ≡ list_all is_word bytes.now }
{
    bytes.iter().all(|b| is_word(*b))
}
