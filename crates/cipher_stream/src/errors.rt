//! The refusals of stream ciphers.

ghost use Rattle.std.specs.Prelude.{◌≡◌};

use std::fmt;

/// The end of a keystream, or two lengths that differ.
#[derive(Clone, Copy, Debug, PartialEq, Eq)]
pub struct StreamCipherError;

impl fmt::Display for StreamCipherError {
    ghost use Rattle.std.specs.Prelude.{Some, codes};

    ghost output = { λ _. Some (codes "Loop Error") };

    fn fmt<W: fmt::Write>(&self, f: &mut fmt::Formatter<W>) -> fmt::Result {
        f.write_str("Loop Error")
    }
}

impl std::error::Error for StreamCipherError {}

/// A position that is no value of the wanted type.
#[derive(Clone, Copy, Debug, PartialEq, Eq)]
pub struct OverflowError;

impl fmt::Display for OverflowError {
    ghost use Rattle.std.specs.Prelude.{Some, codes};

    ghost output = { λ _. Some (codes "Overflow Error") };

    fn fmt<W: fmt::Write>(&self, f: &mut fmt::Formatter<W>) -> fmt::Result {
        f.write_str("Overflow Error")
    }
}

impl std::error::Error for OverflowError {}

impl From<OverflowError> for StreamCipherError {
    ghost from_gives = { λ _ e. e ≡ record {} };

    fn from(_: OverflowError) -> StreamCipherError {
        StreamCipherError
    }
}
