//! The line of a refusal.
ghost use Rattle.std.specs.Prelude.{◌≡◌, ◌≤◌, ◌+◌, ◌++◌, length, codes, option_map, None, Some, OnOk, OnErr};
ghost use Rattle.pm_io.specs.Counts.{Rose};
ghost use Rattle.pm_io.specs.Sink.{gained, GainsPart};
ghost use Rattle.pm_refusals.specs.Words.{word_text};
ghost use Rattle.pm_lines.specs.Refusals.{values_text, refusal_front, refusal_line};

use crate::buffer::Line;
use pm_io::{Sink, WriteFault, write_whole};
use pm_refusals::Word;
use pm_values::Txt;

/// The numbers at the end of a refusal line.
#[derive(Clone, Copy, Debug, PartialEq, Eq)]
pub enum Values {
    Zero,
    One(u128),
    Two(u128, u128),
}

/// Writes the line of a refusal: its code, its word, the name that it is about where it has one, and its numbers.
/// A name is written as it is given. It takes no memory.
pub fn put_refusal<S: Sink>(
    sink: &mut S,
    number: u8,
    word: Word,
    name: Option<&Txt>,
    values: Values,
) -> Result<(), WriteFault>
    ensures whole { OnOk result (S.written sink.new ≡ gained (S.written sink.old) (refusal_line number word (option_map (λ text. text.now) name.entry) values)) }
    ensures part { OnErr result (GainsPart (S.written sink.old) (S.written sink.new) (refusal_line number word (option_map (λ text. text.now) name.entry) values)) }
    ensures failed { OnErr result (Rose (S.faults sink.old) (S.faults sink.new)) }
    ensures faults { S.faults sink.old ≤ S.faults sink.new }
{
    match name {
        None => put_unnamed(sink, number, word, values),
        Some(name) => put_named(sink, number, word, name, values),
    }
}

fn put_unnamed<S: Sink>(
    sink: &mut S,
    number: u8,
    word: Word,
    values: Values,
) -> Result<(), WriteFault>
    ensures whole { OnOk result (S.written sink.new ≡ gained (S.written sink.old) (refusal_line number word None values)) }
    ensures part { OnErr result (GainsPart (S.written sink.old) (S.written sink.new) (refusal_line number word None values)) }
    ensures failed { OnErr result (Rose (S.faults sink.old) (S.faults sink.new)) }
    ensures faults { S.faults sink.old ≤ S.faults sink.new }
{
    write_whole(sink, text_of_refusal(number, word, values).bytes())
}

fn text_of_refusal(number: u8, word: Word, values: Values) -> Line
    ensures { result ≡ refusal_line number word None values }
{
    let mut line = front_of(number, word);
    push_values(&mut line, values);
    line.push("\n");
    line
}

// Three writes, since a name may be longer than any buffer.
fn put_named<S: Sink>(
    sink: &mut S,
    number: u8,
    word: Word,
    name: &Txt,
    values: Values,
) -> Result<(), WriteFault>
    ensures whole { OnOk result (S.written sink.new ≡ gained (S.written sink.old) (refusal_line number word (Some name.now) values)) }
    ensures part { OnErr result (GainsPart (S.written sink.old) (S.written sink.new) (refusal_line number word (Some name.now) values)) }
    ensures failed { OnErr result (Rose (S.faults sink.old) (S.faults sink.new)) }
    ensures faults { S.faults sink.old ≤ S.faults sink.new }
{
    let mut front = front_of(number, word);
    front.push(" ");
    let end = end_of(values);
    put_three(sink, front.bytes(), name.bytes(), end.bytes())
}

fn put_three<S: Sink>(sink: &mut S, front: &[u8], name: &[u8], end: &[u8]) -> Result<(), WriteFault>
    ensures whole { OnOk result (S.written sink.new ≡ gained (S.written sink.old) (front.now ++ name.now ++ end.now)) }
    ensures part { OnErr result (GainsPart (S.written sink.old) (S.written sink.new) (front.now ++ name.now ++ end.now)) }
    ensures failed { OnErr result (Rose (S.faults sink.old) (S.faults sink.new)) }
    ensures faults { S.faults sink.old ≤ S.faults sink.new }
{
    write_whole(sink, front)?;
    write_whole(sink, name)?;
    write_whole(sink, end)
}

fn front_of(number: u8, word: Word) -> Line
    ensures text { result ≡ refusal_front number word }
    ensures len { length result ≤ 70 }
{
    let mut line = Line::new();
    line.push("! ");
    line.number(u128::from(number));
    line.push(" ");
    push_word(&mut line, word);
    line
}

fn end_of(values: Values) -> Line
    ensures { result ≡ values_text values ++ codes "\n" }
{
    let mut line = Line::new();
    push_values(&mut line, values);
    line.push("\n");
    line
}

fn push_word(line: &mut Line, word: Word)
    requires { length line.old + 20 ≤ 1024 }
    ensures text { line.new ≡ line.old ++ word_text word }
    ensures len { length line.new ≤ length line.old + 20 }
{
    line.push(word.text());
}

fn push_values(line: &mut Line, values: Values)
    requires { length line.old + 82 ≤ 1024 }
    ensures text { line.new ≡ line.old ++ values_text values }
    ensures len { length line.new ≤ length line.old + 82 }
{
    match values {
        Values::Zero => {}
        Values::One(a) => {
            line.push(" ");
            line.number(a);
        }
        Values::Two(a, b) => {
            line.push(" ");
            line.number(a);
            line.push(" ");
            line.number(b);
        }
    }
}
