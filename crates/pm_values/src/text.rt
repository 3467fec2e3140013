//! Texts.
ghost use Rattle.std.specs.Prelude.{◌≡◌, IfOk, MatchOption, IsUtf8};

use std::alloc::{AllocError, Global};
use std::marker::Model;

/// A UTF-8 text, which contracts see as its bytes.
#[derive(Debug, Drop)]
pub struct Txt {
    text: String,
}

impl Model for Txt {
    ghost use Rattle.std.specs.Prelude.{List, ℕ, string_bytes};

    ghost Value = { List ℕ };

    ghost view = { λ t. string_bytes t.text };
}

impl Txt {
    /// The text of these bytes, or None exactly where they are not UTF-8.
    pub fn from_bytes(alloc: Global, bytes: &[u8]) -> Result<Option<Txt>, AllocError>
        ensures { IfOk result (λ found. MatchOption found (¬ (IsUtf8 bytes.now)) (λ text. (text ≡ bytes.now) × IsUtf8 bytes.now)) }
    {
        match str::from_utf8(bytes) {
            Ok(text) => Ok(Some(Txt::new(alloc, text)?)),
            Err(_) => Ok(None),
        }
    }

    /// A copy of a text of Rust's.
    pub fn new(alloc: Global, text: &str) -> Result<Txt, AllocError>
        ensures { IfOk result (λ copy. copy ≡ text.now) }
    {
        Ok(Txt {
            text: String::from_str(alloc, text)?,
        })
    }

    /// The text as one of Rust's.
    pub fn as_str(&self) -> &str
        ensures { result.now ≡ self.now }
    {
        self.text.as_str()
    }

    /// The bytes of the text.
    pub fn bytes(&self) -> &[u8]
        ensures value { result.now ≡ self.now }
        ensures utf8 { IsUtf8 self.now }
    {
        self.text.as_str().as_bytes()
    }

    /// An equal text.
    pub fn copy(&self, alloc: Global) -> Result<Txt, AllocError>
        ensures { IfOk result (λ copy. copy ≡ self.now) }
    {
        Txt::new(alloc, self.text.as_str())
    }
}
