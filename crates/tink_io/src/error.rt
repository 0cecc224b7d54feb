//! Why a call was refused.

ghost use Rattle.std.specs.Prelude.{◌≡◌, Some};
ghost use Rattle.tink_io.specs.Texts.{cause_text, cause_words, kind_text, kind_words};
ghost use Rattle.tink_io.specs.declared.error.Kind.TheVariants.{OutOfMemory};

use std::alloc::{AllocError, AllocFailed};
use std::fmt;

/// Why a call of a Tink crate was refused. A kind holds no memory.
#[derive(Clone, Copy, Debug, PartialEq, Eq)]
pub enum Kind {
    /// There is no memory for what the call needs.
    OutOfMemory,
    /// A source failed.
    ReadFault,
    /// A sink failed.
    WriteFault,
    /// Fewer random bytes are left than the call takes.
    RandomFault,
    /// The bytes are not a keyset in the wire format.
    BadKeyset,
    /// The text is not a keyset in JSON.
    BadJson,
    /// A keyset is longer than its reader allows.
    KeysetTooLong,
    /// A reader in memory holds no keyset.
    NoKeyset,
    /// The keyset breaks a rule of its validity.
    InvalidKeyset,
    /// No key manager has the key's URL.
    UnsupportedKeyType,
    /// The key's value is not one that its manager takes.
    InvalidKey,
    /// The key format is not one that its manager takes.
    InvalidFormat,
    /// No enabled key is the primary key.
    NoPrimary,
    /// A key is of another primitive.
    WrongPrimitive,
    /// A key has a prefix where only keys without one are taken.
    NotRawOnly,
    /// The hash is not one that this use takes.
    UnsupportedHash,
    /// The hash is none that is known.
    UnknownHash,
    /// The output prefix type is none that is known.
    UnknownPrefix,
    /// The key's version is too high.
    BadVersion,
    /// The keyset has secret key material.
    HasSecrets,
    /// A key is not a private key.
    NotPrivate,
    /// No key is a private key.
    NoPrivateKeys,
    /// The master key's primitive refused.
    MasterFailed,
    /// No key has the id.
    KeyNotFound,
    /// The key is the primary key.
    IsPrimary,
    /// The key's status, given here, does not allow the change.
    WrongStatus(i32),
    /// The key is not enabled.
    NotEnabled,
    /// No unused key id was drawn.
    NoFreshId,
    /// A key manager of the URL is registered already.
    AlreadyRegistered,
    /// Too few bytes of output are asked for.
    TagTooSmall,
    /// Too many bytes of output are asked for.
    OutputTooLong,
    /// The key has a wrong number of bytes.
    BadKeySize,
    /// The tag has a wrong number of bytes.
    BadTagSize,
    /// The MAC is not that of the data.
    MacMismatch,
    /// The ciphertext is shorter than any can be.
    TooShort,
    /// The text is longer than the cipher takes.
    TextTooLong,
    /// The associated data is longer than the cipher takes.
    DataTooLong,
    /// The initialization vector has a wrong number of bytes.
    BadIvSize,
    /// The ciphertext is that of no text.
    DecryptFailed,
    /// A length does not fit 32 bits.
    LengthOverU32,
    /// The nonce has no room for the prefix, the segment's number and its mark.
    NonceTooShort,
    /// The first segment's offset is beyond the segment.
    OffsetTooBig,
    /// A segment has no room for text.
    SegmentTooSmall,
    /// The writer was closed.
    Closed,
    /// An earlier call failed, by this cause.
    FailedBefore(Cause),
    /// The stream has more than 2^32 segments.
    TooManySegments,
    /// No key of the keyset opens the stream.
    NoMatchingKey,
    /// The segment of this number is not one of the stream.
    BadSegment(u32),
    /// The stream ends within the segment of this number.
    Truncated(u32),
    /// No template has the name.
    UnknownTemplate,
    /// The bytes are no signed token.
    BadToken,
    /// The input is longer than the command reads.
    InputTooLong,
}

/// By what a writer or a reader of a stream failed before.
#[derive(Clone, Copy, Debug, PartialEq, Eq)]
pub enum Cause {
    /// A source failed.
    ReadFault,
    /// A sink failed.
    WriteFault,
    /// The stream has more than 2^32 segments.
    TooManySegments,
    /// No key of the keyset opens the stream.
    NoMatchingKey,
    /// The segment of this number is not one of the stream.
    BadSegment(u32),
    /// The stream ends within the segment of this number.
    Truncated(u32),
}

/// A refusal of a Tink crate: its kind and nothing else.
#[derive(Clone, Copy, Debug, PartialEq, Eq)]
pub struct TinkError {
    /// Why the call was refused.
    pub kind: Kind,
}

impl TinkError {
    /// The error of this kind.
    pub fn new(kind: Kind) -> Self
        ensures { result ≡ record { kind = kind } }
    {
        TinkError { kind }
    }
}

impl Kind {
    // The text up to its number or its cause.
    pub(crate) fn words(self) -> &'static str
        ensures { result.now ≡ kind_words self }
    {
        match self {
            Kind::OutOfMemory => "out of memory",
            Kind::ReadFault => "read fault",
            Kind::WriteFault => "write fault",
            Kind::RandomFault => "random fault",
            Kind::BadKeyset => "bad keyset",
            Kind::BadJson => "bad json",
            Kind::KeysetTooLong => "keyset too long",
            Kind::NoKeyset => "no keyset",
            Kind::InvalidKeyset => "invalid keyset",
            Kind::UnsupportedKeyType => "unsupported key type",
            Kind::InvalidKey => "invalid key",
            Kind::InvalidFormat => "invalid format",
            Kind::NoPrimary => "no primary",
            Kind::WrongPrimitive => "wrong primitive",
            Kind::NotRawOnly => "not raw only",
            Kind::UnsupportedHash => "unsupported hash",
            Kind::UnknownHash => "unknown hash",
            Kind::UnknownPrefix => "unknown prefix",
            Kind::BadVersion => "bad version",
            Kind::HasSecrets => "has secrets",
            Kind::NotPrivate => "not private",
            Kind::NoPrivateKeys => "no private keys",
            Kind::MasterFailed => "master failed",
            Kind::KeyNotFound => "key not found",
            Kind::IsPrimary => "is primary",
            Kind::WrongStatus(_) => "wrong status ",
            Kind::NotEnabled => "not enabled",
            Kind::NoFreshId => "no fresh id",
            Kind::AlreadyRegistered => "already registered",
            Kind::TagTooSmall => "tag too small",
            Kind::OutputTooLong => "output too long",
            Kind::BadKeySize => "bad key size",
            Kind::BadTagSize => "bad tag size",
            Kind::MacMismatch => "mac mismatch",
            Kind::TooShort => "too short",
            Kind::TextTooLong => "text too long",
            Kind::DataTooLong => "data too long",
            Kind::BadIvSize => "bad iv size",
            Kind::DecryptFailed => "decrypt failed",
            Kind::LengthOverU32 => "length over u32",
            Kind::NonceTooShort => "nonce too short",
            Kind::OffsetTooBig => "offset too big",
            Kind::SegmentTooSmall => "segment too small",
            Kind::Closed => "closed",
            Kind::FailedBefore(_) => "failed before: ",
            Kind::TooManySegments => "too many segments",
            Kind::NoMatchingKey => "no matching key",
            Kind::BadSegment(_) => "bad segment ",
            Kind::Truncated(_) => "truncated ",
            Kind::UnknownTemplate => "unknown template",
            Kind::BadToken => "bad token",
            Kind::InputTooLong => "input too long",
        }
    }
}

impl Cause {
    // The text up to its number.
    pub(crate) fn words(self) -> &'static str
        ensures { result.now ≡ cause_words self }
    {
        match self {
            Cause::ReadFault => "read fault",
            Cause::WriteFault => "write fault",
            Cause::TooManySegments => "too many segments",
            Cause::NoMatchingKey => "no matching key",
            Cause::BadSegment(_) => "bad segment ",
            Cause::Truncated(_) => "truncated ",
        }
    }
}

/// The variant's name in lower-case words, then its number where it has one.
impl fmt::Display for Cause {
    ghost output = { λ c. Some (cause_text c) };

    fn fmt<W: fmt::Write>(&self, f: &mut fmt::Formatter<W>) -> fmt::Result {
        f.write_str(self.words())?;
        match self {
            Cause::BadSegment(number) | Cause::Truncated(number) => write!(f, "{number}"),
            _ => Ok(()),
        }
    }
}

/// The variant's name in lower-case words, then its number or its cause where it has one.
impl fmt::Display for Kind {
    ghost output = { λ k. Some (kind_text k) };

    fn fmt<W: fmt::Write>(&self, f: &mut fmt::Formatter<W>) -> fmt::Result {
        f.write_str(self.words())?;
        match self {
            Kind::WrongStatus(status) => write!(f, "{status}"),
            Kind::BadSegment(number) | Kind::Truncated(number) => write!(f, "{number}"),
            Kind::FailedBefore(cause) => write!(f, "{cause}"),
            _ => Ok(()),
        }
    }
}

/// The text of its kind.
impl fmt::Display for TinkError {
    ghost output = { λ e. Some (kind_text e.kind) };

    fn fmt<W: fmt::Write>(&self, f: &mut fmt::Formatter<W>) -> fmt::Result {
        write!(f, "{}", self.kind)
    }
}

impl std::error::Error for TinkError {}

/// `OutOfMemory`.
impl From<AllocError> for TinkError {
    ghost from_gives = { λ _ e. e ≡ record { kind = OutOfMemory } };

    fn from(_: AllocError) -> Self {
        TinkError::new(Kind::OutOfMemory)
    }
}

/// `OutOfMemory`; what could not be kept is dropped.
impl<T: Drop> From<AllocFailed<T>> for TinkError {
    ghost from_gives = { λ _ e. e ≡ record { kind = OutOfMemory } };

    fn from(_: AllocFailed<T>) -> Self {
        TinkError::new(Kind::OutOfMemory)
    }
}
