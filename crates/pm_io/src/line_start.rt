ghost use Rattle.std.specs.Prelude.{◌≡◌, ◌≢◌, ◌↔◌, ℕ, List, All, IsTrue};
ghost use Rattle.pm_io.specs.declared.line_start.LineStart.TheVariants.{Progress};
ghost use Rattle.pm_io.specs.LineStart.{start_of, is_known, grown, line_after};

/// What is known of a line by the bytes that it has so far.
#[derive(Clone, Copy)]
pub enum LineStart {
    /// It has no byte yet.
    Empty,
    /// It is the letter of a progress line.
    Letter,
    /// It is a progress line.
    Progress,
    /// It is no progress line.
    Other,
}

impl LineStart {
    /// Whether it is known if this is a progress line, whatever bytes follow before its line feed.
    fn is_known(self) -> bool
        ensures { result ≡ is_known self }
    {
        matches!(self, LineStart::Progress | LineStart::Other)
    }

    pub fn is_progress(self) -> bool
        ensures { IsTrue result ↔ (self ≡ Progress) }
    {
        matches!(self, LineStart::Progress)
    }

    /// What is known after one more byte. After a line feed the next line begins.
    fn after(self, byte: u8) -> Self
        ensures { (line : List ℕ) → self ≡ start_of line → result ≡ start_of (grown line byte) }
    {
        match (self, byte) {
            (_, b'\n') => LineStart::Empty,
            (LineStart::Empty, b'P') => LineStart::Letter,
            (LineStart::Letter, b' ') | (LineStart::Progress, _) => LineStart::Progress,
            _ => LineStart::Other,
        }
    }

    /// What is known after these bytes, none of which is a line feed. At most the first two are looked at.
    pub fn after_part(self, part: &[u8]) -> Self
        requires { All (λ byte. byte ≢ 10) part.now }
        ensures { (line : List ℕ) → self ≡ start_of line → result ≡ start_of (line_after line part.now) }
    {
        let mut line = self;
        for &byte in part {
            if line.is_known() {
                return line;
            }
            line = line.after(byte);
        }
        line
    }

    /// What is known after these bytes.
    pub fn after_all(self, bytes: &[u8]) -> Self
        ensures { (line : List ℕ) → self ≡ start_of line → result ≡ start_of (line_after line bytes.now) }
    {
        let mut line = self;
        for &byte in bytes {
            line = line.after(byte);
        }
        line
    }
}
