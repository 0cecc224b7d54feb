/// How much was sealed or opened.
#[derive(Clone, Copy, Debug, PartialEq, Eq)]
pub struct Report {
    /// Segments written, or accepted.
    pub segments: u64,
    /// Bytes of text.
    pub bytes: u64,
}

/// Encryption or decryption of a stream.
#[derive(Clone, Copy, Debug, PartialEq, Eq)]
pub enum Command {
    /// Encryption.
    Seal,
    /// Decryption.
    Open,
}
