//! Refusals of GCM and GCM-SIV.

use std::error::Error;
use std::fmt;

/// Why nothing was sealed or opened.
#[derive(Clone, Copy, Debug, PartialEq, Eq)]
pub enum GcmError {
    /// The associated data has more than 2^36 bytes.
    DataTooLong,
    /// The text has more than 2^36 - 32 bytes (GCM), or 2^36 (GCM-SIV).
    TextTooLong,
    /// The input is the encryption of no text.
    DecryptFailed,
}

/// Nothing, or why nothing was sealed or opened.
pub type GcmResult = Result<(), GcmError>;

impl fmt::Display for GcmError {
    ghost use Rattle.gcm.specs.Texts.{text_of};
    ghost use Rattle.std.specs.Prelude.{Some};

    ghost output = { λ e. Some (text_of e) };

    fn fmt<W: fmt::Write>(&self, f: &mut fmt::Formatter<W>) -> fmt::Result {
        match self {
            GcmError::DataTooLong => f.write_str("the associated data is too long"),
            GcmError::TextTooLong => f.write_str("the text is too long"),
            GcmError::DecryptFailed => f.write_str(
                "the input was not sealed under this key, nonce and data",
            ),
        }
    }
}

impl Error for GcmError {}
