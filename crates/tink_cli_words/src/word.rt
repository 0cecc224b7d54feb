//! A word of a command line.

ghost use Rattle.std.specs.Prelude.{◌≡◌};

use std::marker::Model;

/// A word, which need not be UTF-8. A contract sees its bytes.
#[derive(Drop)]
pub struct Word<'w> {
    text: &'w [u8],
}

impl<'w> Model for Word<'w> {
    ghost use Rattle.std.specs.Prelude.{List, ℕ};

    ghost Value = { List ℕ };

    ghost view = { λ w. w.text.now };
}

impl<'w> Word<'w> {
    /// The word with these bytes.
    pub fn new(text: &'w [u8]) -> Self
        ensures { result ≡ text.now }
    {
        Word { text }
    }

    /// Its bytes.
    pub fn bytes(&self) -> &'w [u8]
        ensures { result.now ≡ self.now }
    {
        self.text
    }
}
