//! The messages of keysets: bytes spelled by hand from the table of fields, and a caller's contract.

ghost use Rattle.wire_format.specs.Message.{decoded};
ghost use Rattle.tink_proto.specs.Outcome.{Reads};
ghost use Rattle.tink_proto.specs.declared.error.ProtoError.TheVariants.{BadMessage};
ghost use Rattle.tink_proto.specs.Messages.{keyset};

use crate::key_messages::{CTR_HMAC_KEYSET, GCM_KEYSET};
use crate::spelled::{Answer, expect, is_written, is_written_as};
use std::alloc::Global;
use tink_proto::{
    Bytes, EncryptedKeyset, HashType, Key, KeyData, KeyInfo, KeyMaterialType, KeyStatusType,
    KeyTemplate, Keyset, KeysetInfo, Message, OutputPrefixType, ProtoError, Repeated, Text,
    UnknownValue,
};

/// URL "x", value 07, material 1.
const KEY_DATA: &[u8] = b"\x0a\x01x\x12\x01\x07\x18\x01";

/// The key data, status 1, id 300, prefix 3.
const KEY: &[u8] = b"\x0a\x08\x0a\x01x\x12\x01\x07\x18\x01\x10\x01\x18\xac\x02\x20\x03";

/// Primary id 300, and the key.
const KEYSET: &[u8] =
    b"\x08\xac\x02\x12\x11\x0a\x08\x0a\x01x\x12\x01\x07\x18\x01\x10\x01\x18\xac\x02\x20\x03";

/// URL "x", value 07, prefix 4.
const TEMPLATE: &[u8] = b"\x0a\x01x\x12\x01\x07\x18\x04";

/// Bytes 01 02; an info of primary id 300 and one key of URL "x", status 2, id 300, prefix 1.
const ENCRYPTED: &[u8] =
    b"\x12\x02\x01\x02\x1a\x0f\x08\xac\x02\x12\x0a\x0a\x01x\x10\x02\x18\xac\x02\x20\x01";

/// That info.
const INFO: &[u8] = b"\x08\xac\x02\x12\x0a\x0a\x01x\x10\x02\x18\xac\x02\x20\x01";

/// Its key.
const KEY_INFO: &[u8] = b"\x0a\x01x\x10\x02\x18\xac\x02\x20\x01";

/// A keyset of one key of status -2 with data that have no field.
const NEGATIVE: &[u8] = b"\x12\x0d\x0a\x00\x10\xfe\xff\xff\xff\xff\xff\xff\xff\xff\x01";

/// A keyset from its bytes, as a caller's contract says it.
fn read_keyset(alloc: Global, bytes: &[u8]) -> Result<Keyset, ProtoError>
    ensures { Reads BadMessage result (decoded keyset.read bytes.now) }
{
    Keyset::decode(alloc, bytes)
}

fn is_data(data: &KeyData, type_url: &str, value: &[u8], material: i32) -> bool {
    data.type_url.as_str() == type_url
        && data.value.as_slice() == value
        && data.key_material_type == material
}

fn is_key_of_x(key: &Key) -> bool {
    let Some(data) = &key.key_data else {
        return false;
    };
    (key.status, key.key_id, key.output_prefix_type) == (1, 300, 3) && is_data(data, "x", &[7], 1)
}

fn is_negative_key(key: &Key) -> bool {
    let Some(data) = &key.key_data else {
        return false;
    };
    (key.status, key.key_id, key.output_prefix_type) == (-2, 0, 0) && is_data(data, "", &[], 0)
}

/// Whether the keyset is the one of KEYSET, or that of NEGATIVE.
fn has_key(keyset: &Keyset, is_negative: bool) -> bool {
    match keyset.key.as_slice() {
        [key] if is_negative => keyset.primary_key_id == 0 && is_negative_key(key),
        [key] => keyset.primary_key_id == 300 && is_key_of_x(key),
        _ => false,
    }
}

fn is_info_of_x(info: &KeysetInfo) -> bool {
    let [key] = info.key_info.as_slice() else {
        return false;
    };
    info.primary_key_id == 300
        && key.type_url.as_str() == "x"
        && (key.status, key.key_id, key.output_prefix_type) == (2, 300, 1)
}

fn is_encrypted_of_x(encrypted: &EncryptedKeyset) -> bool {
    let Some(info) = &encrypted.keyset_info else {
        return false;
    };
    encrypted.encrypted_keyset.as_slice() == [1, 2].as_slice() && is_info_of_x(info)
}

fn is_template_of_x(template: &KeyTemplate) -> bool {
    template.type_url.as_str() == "x"
        && template.value.as_slice() == [7].as_slice()
        && template.output_prefix_type == 4
}

/// Bytes whose fields are told.
enum Told {
    Keyset,
    Negative,
    Encrypted,
    Template,
}

fn is_read(alloc: Global, of: &Told, bytes: &[u8]) -> Answer {
    match of {
        Told::Keyset => match read_keyset(alloc, bytes) {
            Ok(keyset) => Ok(has_key(&keyset, false)),
            Err(e) => Err(e),
        },
        Told::Negative => match Keyset::decode(alloc, bytes) {
            Ok(keyset) => Ok(has_key(&keyset, true)),
            Err(e) => Err(e),
        },
        Told::Encrypted => match EncryptedKeyset::decode(alloc, bytes) {
            Ok(encrypted) => Ok(is_encrypted_of_x(&encrypted)),
            Err(e) => Err(e),
        },
        Told::Template => match KeyTemplate::decode(alloc, bytes) {
            Ok(template) => Ok(is_template_of_x(&template)),
            Err(e) => Err(e),
        },
    }
}

/// The keyset of NEGATIVE, of values.
fn negative_keyset(alloc: Global) -> Result<Keyset, ProtoError> {
    let data = KeyData {
        type_url: Text::from_string(String::new(alloc)),
        value: Bytes::from_vec(Vec::new(alloc)),
        key_material_type: 0,
    };
    let key = Key {
        key_data: Some(data),
        status: -2,
        key_id: 0,
        output_prefix_type: 0,
    };
    let keys = vec![in alloc; key]?;
    Ok(Keyset {
        primary_key_id: 0,
        key: Repeated::from_vec(keys),
    })
}

fn is_negative_written(alloc: Global, want: &[u8]) -> Answer {
    match negative_keyset(alloc) {
        Ok(keyset) => is_written(alloc, &keyset, want),
        Err(e) => Err(e),
    }
}

/// What is asked of bytes.
enum Asked {
    /// Whether a keyset of values is written as wanted.
    Made,
    /// Whether each field is read.
    Read(Told),
    /// Whether a copy of the message that they spell is written as wanted.
    KeyData,
    Key,
    Keyset,
    Template,
    KeyInfo,
    KeysetInfo,
    Encrypted,
}

fn answer_row(alloc: Global, asked: &Asked, bytes: &[u8], want: &[u8]) -> Answer {
    match asked {
        Asked::Made => is_negative_written(alloc, want),
        Asked::Read(of) => is_read(alloc, of, bytes),
        Asked::KeyData => is_written_as::<KeyData>(alloc, bytes, want),
        Asked::Key => is_written_as::<Key>(alloc, bytes, want),
        Asked::Keyset => is_written_as::<Keyset>(alloc, bytes, want),
        Asked::Template => is_written_as::<KeyTemplate>(alloc, bytes, want),
        Asked::KeyInfo => is_written_as::<KeyInfo>(alloc, bytes, want),
        Asked::KeysetInfo => is_written_as::<KeysetInfo>(alloc, bytes, want),
        Asked::Encrypted => is_written_as::<EncryptedKeyset>(alloc, bytes, want),
    }
}

const REFUSED: Answer = Err(ProtoError::BadMessage);

const ROWS: &[(&str, Asked, &[u8], &[u8], Answer)] = &[
    // Each field is read.
    (
        "a keyset is read",
        Asked::Read(Told::Keyset),
        KEYSET,
        b"",
        Ok(true),
    ),
    (
        "an encrypted keyset is read",
        Asked::Read(Told::Encrypted),
        ENCRYPTED,
        b"",
        Ok(true),
    ),
    (
        "a template is read",
        Asked::Read(Told::Template),
        TEMPLATE,
        b"",
        Ok(true),
    ),
    (
        "a negative number is read",
        Asked::Read(Told::Negative),
        NEGATIVE,
        b"",
        Ok(true),
    ),
    ("a keyset of values", Asked::Made, b"", NEGATIVE, Ok(true)),
    // What is read is written again.
    ("key data", Asked::KeyData, KEY_DATA, KEY_DATA, Ok(true)),
    ("a key", Asked::Key, KEY, KEY, Ok(true)),
    ("a keyset", Asked::Keyset, KEYSET, KEYSET, Ok(true)),
    ("a template", Asked::Template, TEMPLATE, TEMPLATE, Ok(true)),
    ("an info", Asked::KeyInfo, KEY_INFO, KEY_INFO, Ok(true)),
    (
        "an info of a keyset",
        Asked::KeysetInfo,
        INFO,
        INFO,
        Ok(true),
    ),
    (
        "encrypted",
        Asked::Encrypted,
        ENCRYPTED,
        ENCRYPTED,
        Ok(true),
    ),
    (
        "defaults and a negative number",
        Asked::Keyset,
        NEGATIVE,
        NEGATIVE,
        Ok(true),
    ),
    (
        "from outside, AES-CTR and HMAC",
        Asked::Keyset,
        CTR_HMAC_KEYSET,
        CTR_HMAC_KEYSET,
        Ok(true),
    ),
    (
        "from outside, AES-GCM",
        Asked::Keyset,
        GCM_KEYSET,
        GCM_KEYSET,
        Ok(true),
    ),
    // Unknown fields behind the keyset are skipped.
    (
        "a varint of field 15",
        Asked::Keyset,
        b"\x08\xac\x02\x12\x11\x0a\x08\x0a\x01x\x12\x01\x07\x18\x01\x10\x01\x18\xac\x02\x20\x03\x78\x05",
        KEYSET,
        Ok(true),
    ),
    (
        "eight bytes",
        Asked::Keyset,
        b"\x08\xac\x02\x12\x11\x0a\x08\x0a\x01x\x12\x01\x07\x18\x01\x10\x01\x18\xac\x02\x20\x03\x79\x00\x00\x00\x00\x00\x00\x00\x00",
        KEYSET,
        Ok(true),
    ),
    (
        "a body",
        Asked::Keyset,
        b"\x08\xac\x02\x12\x11\x0a\x08\x0a\x01x\x12\x01\x07\x18\x01\x10\x01\x18\xac\x02\x20\x03\x7a\x01\xff",
        KEYSET,
        Ok(true),
    ),
    (
        "four bytes",
        Asked::Keyset,
        b"\x08\xac\x02\x12\x11\x0a\x08\x0a\x01x\x12\x01\x07\x18\x01\x10\x01\x18\xac\x02\x20\x03\x7d\x00\x00\x00\x00",
        KEYSET,
        Ok(true),
    ),
    // The id 300 once more, its key in ten bytes and with higher bits.
    (
        "a key in ten bytes",
        Asked::Keyset,
        b"\x08\xac\x02\x12\x11\x0a\x08\x0a\x01x\x12\x01\x07\x18\x01\x10\x01\x18\xac\x02\x20\x03\x88\x80\x80\x80\x80\x80\x80\x80\x80\x00\xac\x02",
        KEYSET,
        Ok(true),
    ),
    (
        "an id with higher bits",
        Asked::Keyset,
        b"\x08\xac\x02\x12\x11\x0a\x08\x0a\x01x\x12\x01\x07\x18\x01\x10\x01\x18\xac\x02\x20\x03\x08\xac\x82\x80\x80\xf0\xff\xff\xff\xff\x01",
        KEYSET,
        Ok(true),
    ),
    // The bodies of one message are joined.
    (
        "a key in bodies apart",
        Asked::Key,
        b"\x0a\x03\x0a\x01x\x10\x01\x0a\x07\x12\x01\x09\x12\x00\x18\x01\x18\xac\x02\x20\x03\x0a\x03\x12\x01\x07",
        KEY,
        Ok(true),
    ),
    // What is cut off is refused.
    (
        "a key that is cut off",
        Asked::Keyset,
        b"\x88",
        b"",
        REFUSED,
    ),
    ("no varint", Asked::Keyset, b"\x08", b"", REFUSED),
    ("no length", Asked::Keyset, b"\x12", b"", REFUSED),
    ("no body", Asked::Keyset, b"\x12\x01", b"", REFUSED),
    (
        "one byte of eight",
        Asked::Keyset,
        b"\x79\x00",
        b"",
        REFUSED,
    ),
    ("one byte of four", Asked::Keyset, b"\x7d\x00", b"", REFUSED),
    // Other fields are refused.
    ("a group", Asked::Keyset, b"\x7b", b"", REFUSED),
    ("number 0", Asked::Keyset, b"\x00\x00", b"", REFUSED),
    (
        "a field with another type",
        Asked::Keyset,
        b"\x0a\x00",
        b"",
        REFUSED,
    ),
    (
        "a key of 2^32",
        Asked::Keyset,
        b"\x80\x80\x80\x80\x10\x00",
        b"",
        REFUSED,
    ),
    (
        "a varint of 2^64",
        Asked::Keyset,
        b"\x08\xff\xff\xff\xff\xff\xff\xff\xff\xff\x02",
        b"",
        REFUSED,
    ),
    // A text that is not UTF-8, also where a later one replaces it.
    (
        "no UTF-8",
        Asked::KeyData,
        b"\x0a\x01\xff\x0a\x00",
        b"",
        REFUSED,
    ),
    // A field that is cut in two by two bodies.
    (
        "a field in two bodies",
        Asked::Key,
        b"\x0a\x02\x0a\x01\x0a\x01x",
        b"",
        REFUSED,
    ),
];

#[test]
fn messages_are_read_and_written(rt: HostRuntime) {
    for (row, asked, bytes, want, answer) in ROWS {
        expect(
            &rt,
            answer_row(rt.alloc(), asked, bytes, want),
            *answer,
            row,
        );
    }
}

enum Numbers {
    Status,
    PrefixType,
    Material,
    Hash,
}

/// The number of the value that a number is.
fn number_of(of: &Numbers, number: i32) -> Result<i32, UnknownValue> {
    match of {
        Numbers::Status => match KeyStatusType::try_from(number) {
            Ok(value) => Ok(value as i32),
            Err(e) => Err(e),
        },
        Numbers::PrefixType => match OutputPrefixType::try_from(number) {
            Ok(value) => Ok(value as i32),
            Err(e) => Err(e),
        },
        Numbers::Material => match KeyMaterialType::try_from(number) {
            Ok(value) => Ok(value as i32),
            Err(e) => Err(e),
        },
        Numbers::Hash => match HashType::try_from(number) {
            Ok(value) => Ok(value as i32),
            Err(e) => Err(e),
        },
    }
}

/// Whether the number is that of a value, and is it, from 0 to below the end and nowhere else.
const ENUMS: &[(&str, Numbers, i32)] = &[
    ("a status", Numbers::Status, 4),
    ("a prefix type", Numbers::PrefixType, 5),
    ("a material", Numbers::Material, 5),
    ("a hash", Numbers::Hash, 6),
];

#[test]
fn numbers_of_enums(rt: HostRuntime) {
    for number in -1..7i32 {
        for (row, of, end) in ENUMS {
            let is_known = 0 <= number && number < *end;
            let want = if is_known {
                Ok(number)
            } else {
                Err(UnknownValue)
            };
            expect(&rt, Ok(number_of(of, number) == want), Ok(true), row);
        }
    }

    // Hashes are not in the order of their sizes.
    let are_hashes = HashType::Sha384 as i32 == 2 && HashType::Sha256 as i32 == 3;
    expect(
        &rt,
        Ok(are_hashes),
        Ok(true),
        "SHA-384 is 2 and SHA-256 is 3",
    );
}
