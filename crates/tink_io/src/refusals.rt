//! The status of the program that ends on an error, and what helps.

ghost use Rattle.std.specs.Prelude.{◌≡◌};
ghost use Rattle.tink_io.specs.Statuses.{kind_status};

use crate::Kind;

/// The status of the program over the standard streams, and 255 of a kind by which it never ends.
pub fn status(kind: Kind) -> u8
    ensures { result ≡ kind_status kind }
{
    match kind {
        Kind::OutOfMemory => 10,
        Kind::ReadFault => 11,
        Kind::WriteFault => 12,
        Kind::BadKeyset => 13,
        Kind::InvalidKeyset => 14,
        Kind::UnsupportedKeyType => 15,
        Kind::InvalidKey => 16,
        Kind::NoPrimary => 17,
        Kind::WrongPrimitive => 18,
        Kind::UnsupportedHash => 19,
        Kind::TooManySegments => 20,
        Kind::NoMatchingKey => 21,
        Kind::BadSegment(_) => 22,
        Kind::Truncated(_) => 23,
        Kind::UnknownTemplate => 24,
        Kind::NoFreshId => 25,
        Kind::InputTooLong => 26,
        Kind::BadToken => 27,
        Kind::MacMismatch => 28,
        _ => 255,
    }
}

/// What a refusal is, and what helps.
pub fn advice(kind: Kind) -> &'static str {
    match kind {
        Kind::OutOfMemory =>
            "there is no memory: close other programs, or take keys of smaller segments",
        Kind::ReadFault => "it could not be read: is it a file, and may you read it?",
        Kind::WriteFault =>
            "it could not be written: a full disk, a closed pipe, or a folder that you may not change",
        Kind::RandomFault => "the system gave no random bytes",
        Kind::TooManySegments =>
            "the text is too long for its segments: take a key of larger ones, as AES256_GCM_HKDF_1MB",
        Kind::NoMatchingKey =>
            "no key opens this stream: another keyset, other associated data, or a damaged beginning",
        Kind::BadSegment(_) => "the stream was changed, or two were mixed: take an intact copy",
        Kind::Truncated(_) => "the stream was cut off: take a whole copy",
        Kind::InputTooLong =>
            "it has more than 16,777,216 bytes: only shorter files are signed and verified",
        Kind::BadToken => "it is no token: give a whole one that `tink sign` made",
        Kind::MacMismatch =>
            "no key accepts this token: it was changed, or signed by the keys of another file",
        _ => advice_on_keys(kind),
    }
}

// What a refusal of a file of keys is, and what helps.
fn advice_on_keys(kind: Kind) -> &'static str {
    match kind {
        Kind::BadKeyset =>
            "it is no keyset: give a file that `tink new` made, or one of Tink's in JSON or binary",
        Kind::BadJson => "it is no keyset in JSON: a bracket, a name or a number is not right",
        Kind::KeysetTooLong => "it is longer than any keyset",
        Kind::InvalidKeyset =>
            "its keyset is not valid: `tink keys` shows its keys; one of them has to be enabled and the primary one",
        Kind::UnsupportedKeyType => "it has a key of a type that is not known here",
        Kind::InvalidKey => "it has a key with a value that is none of its type",
        Kind::MasterFailed =>
            "MASTER refuses it: other keys, other associated data, no wrapped file, or more than it encrypts",
        Kind::NoPrimary =>
            "none of its keys is the primary one and enabled: `tink promote` makes one so",
        Kind::WrongPrimitive =>
            "it has a key for another use: only keys of streams encrypt files, only MACs sign, and only AEADs wrap keys",
        Kind::UnsupportedHash =>
            "its primary key derives by a hash that no stream takes: rotate it",
        Kind::UnknownTemplate => "no template has this name: `tink templates` lists them",
        Kind::NoFreshId => "no unused id was drawn: try again",
        Kind::KeyNotFound => "no key has this id: `tink keys` lists them",
        Kind::IsPrimary => "it is the primary key: promote another one first",
        Kind::WrongStatus(_) =>
            "the key's status does not allow this: a destroyed key stays destroyed",
        Kind::NotEnabled => "the key is not enabled: enable it first",
        _ => "it was refused",
    }
}
