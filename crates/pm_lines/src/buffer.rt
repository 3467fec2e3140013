ghost use Rattle.std.specs.Prelude.{◌≡◌, ◌+◌, ◌≤◌, [], ◌++◌, length, decimal};
ghost use Rattle.pm_lines.specs.Percent.{percent};

use arrayvec::ArrayString;
use itoa::Buffer;
use std::marker::Model;

/// The most bytes of a line without a name.
pub const LINE: usize = 1024;

/// A line in a buffer of fixed size, which takes no memory. Contracts see it as its bytes.
#[derive(Debug, Drop)]
pub struct Line {
    text: ArrayString<1024>,
}

impl Model for Line {
    ghost use Rattle.std.specs.Prelude.{List, ℕ};

    ghost Value = { List ℕ };

    ghost view = { λ l. l.text.bytes };
}

impl Line {
    pub fn new() -> Line
        ensures { result ≡ [] }
    {
        Line {
            text: ArrayString::new(),
        }
    }

    pub fn push(&mut self, text: &str)
        requires { length self.old + length text.now ≤ 1024 }
        ensures { self.new ≡ self.old ++ text.now }
    {
        self.text.push_str(text);
    }

    pub fn number(&mut self, n: u128)
        requires { length self.old + 40 ≤ 1024 }
        ensures text { self.new ≡ self.old ++ decimal n }
        ensures len { length self.new ≤ length self.old + 40 }
    {
        let mut buffer = Buffer::new();
        self.text.push_str(buffer.format(n));
    }

    /// Hundredths of a percent, as the whole percents, a point and two digits.
    pub fn percent(&mut self, hundredths: u128)
        requires { length self.old + 83 ≤ 1024 }
        ensures text { self.new ≡ self.old ++ percent hundredths }
        ensures len { length self.new ≤ length self.old + 83 }
    {
        self.number(hundredths / 100);
        self.push(if hundredths % 100 < 10 { ".0" } else { "." });
        self.number(hundredths % 100);
    }

    pub fn bytes(&self) -> &[u8]
        ensures { result.now ≡ self.now }
    {
        self.text.as_str().as_bytes()
    }
}
