//! Texts from outside, each refusal, and a caller's contract.

ghost use Rattle.std.specs.Prelude.{◌≡◌, IfOk, Some};
ghost use Rattle.tink_json.specs.Messages.{keyset as keyset_form, message_of};

use crate::key_messages::CTR_HMAC_KEYSET;
use crate::spelled::{Answer, expect, is_written};
use std::alloc::Global;
use tink_json::Json;
use tink_proto::{
    Bytes, EncryptedKeyset, KeyInfo, Keyset, KeysetInfo, Message, ProtoError, Repeated, Text,
};

// That of CTR_HMAC_KEYSET.
const KEYSET: &str = "{
  \"key\": [
    {
      \"keyData\": {
        \"keyMaterialType\": \"SYMMETRIC\",
        \"typeUrl\": \"type.googleapis.com/google.crypto.tink.AesCtrHmacStreamingKey\",
        \"value\": \"Eg0IgCAQEBgDIgQIAxAgGhAAAQIDBAUGBwgJCgsMDQ4P\"
      },
      \"keyId\": 16909060,
      \"outputPrefixType\": \"RAW\",
      \"status\": \"ENABLED\"
    }
  ],
  \"primaryKeyId\": 16909060
}";

const ENCRYPTED: &str = "{
  \"encryptedKeyset\": \"//4=\",
  \"keysetInfo\": {
    \"keyInfo\": [
      {
        \"keyId\": 0,
        \"outputPrefixType\": -1,
        \"status\": 7,
        \"typeUrl\": \"a\\\"b\"
      }
    ],
    \"primaryKeyId\": 4294967295
  }
}";

// The bytes ff fe, and an info of that primary id and the key.
const ENCRYPTED_BYTES: &[u8] =
    b"\x12\x02\xff\xfe\x1a\x1a\x08\xff\xff\xff\xff\x0f\x12\x12\x0a\x03a\"b\x10\x07\x20\xff\xff\xff\xff\xff\xff\xff\xff\xff\x01";

// The keyset of a text.
fn keyset_of(alloc: Global, text: &[u8]) -> Result<Keyset, ProtoError>
    ensures { IfOk result (λ ks. message_of keyset_form text.now ≡ Some ks) }
{
    Keyset::from_json(alloc, text)
}

// Whether the message of a text is written in the wire format as the bytes.
fn is_read<M: Message>(alloc: Global, read: Result<M, ProtoError>, bytes: &[u8]) -> Answer {
    match read {
        Ok(message) => is_written(alloc, &message, bytes),
        Err(e) => Err(e),
    }
}

fn is_text<M: Json>(alloc: Global, message: &M, text: &str) -> Answer {
    match message.to_json(alloc) {
        Ok(written) => Ok(written.as_str() == text),
        Err(e) => Err(e),
    }
}

// Whether the message of the bytes is written as the text.
fn is_told<M: Json>(alloc: Global, read: Result<M, ProtoError>, text: &str) -> Answer {
    match read {
        Ok(message) => is_text(alloc, &message, text),
        Err(e) => Err(e),
    }
}

// The encrypted keyset of ENCRYPTED, of values.
fn make_encrypted(alloc: Global) -> Result<EncryptedKeyset, ProtoError> {
    let info = KeyInfo {
        type_url: Text::from_str(alloc, "a\"b")?,
        status: 7,
        key_id: 0,
        output_prefix_type: -1,
    };
    let info = KeysetInfo {
        primary_key_id: 4294967295,
        key_info: Repeated::from_vec(vec![in alloc; info]?),
    };
    Ok(EncryptedKeyset {
        encrypted_keyset: Bytes::from_slice(alloc, b"\xff\xfe")?,
        keyset_info: Some(info),
    })
}

// What is asked of a text and of bytes.
enum Asked {
    // The encrypted keyset of values is written as the text.
    Made,
    // A keyset is read from the text, and written as it.
    Read,
    Write,
    // The same of an encrypted one.
    ReadEncrypted,
    WriteEncrypted,
}

fn answer_row(alloc: Global, asked: &Asked, text: &str, bytes: &[u8]) -> Answer {
    match asked {
        Asked::Made => is_told(alloc, make_encrypted(alloc), text),
        Asked::Read => is_read(alloc, keyset_of(alloc, text.as_bytes()), bytes),
        Asked::Write => is_told(alloc, Keyset::decode(alloc, bytes), text),
        Asked::ReadEncrypted => {
            is_read(
                alloc,
                EncryptedKeyset::from_json(alloc, text.as_bytes()),
                bytes,
            )
        }
        Asked::WriteEncrypted => is_told(alloc, EncryptedKeyset::decode(alloc, bytes), text),
    }
}

const REFUSED: Answer = Err(ProtoError::BadJson);

// Texts, and the bytes of their messages.
const TEXTS: &[(Asked, &str, &[u8], Answer)] = &[
    (Asked::Read, KEYSET, CTR_HMAC_KEYSET, Ok(true)),
    (Asked::Write, KEYSET, CTR_HMAC_KEYSET, Ok(true)),
    (Asked::Made, ENCRYPTED, b"", Ok(true)),
    (Asked::ReadEncrypted, ENCRYPTED, ENCRYPTED_BYTES, Ok(true)),
    (Asked::WriteEncrypted, ENCRYPTED, ENCRYPTED_BYTES, Ok(true)),
    // No field.
    (Asked::ReadEncrypted, "{}", b"", Ok(true)),
    (
        Asked::WriteEncrypted,
        "{\n  \"encryptedKeyset\": \"\"\n}",
        b"",
        Ok(true),
    ),
    // Members in both spellings: the primary id in field 1.
    (
        Asked::Read,
        "{\"primaryKeyId\":\"7\"}",
        b"\x08\x07",
        Ok(true),
    ),
    (
        Asked::Read,
        "{\"primaryKeyId\":\"0042\"}",
        b"\x08\x2a",
        Ok(true),
    ),
    (
        Asked::Read,
        "{\"primary_key_id\":1,\"primaryKeyId\":2}",
        b"\x08\x02",
        Ok(true),
    ),
    (
        Asked::Read,
        "{\"primary_key_id\":4294967295}",
        b"\x08\xff\xff\xff\xff\x0f",
        Ok(true),
    ),
    (
        Asked::Read,
        "{\"primaryKeyId\":null,\"key\":null,\"other\":[{}]}",
        b"",
        Ok(true),
    ),
    (Asked::Read, " {} ", b"", Ok(true)),
    (
        Asked::Read,
        "{\"primaryKeyId\":1,\"primaryKeyId\":2}",
        b"\x08\x02",
        Ok(true),
    ),
    (
        Asked::Read,
        "{\"other\":[-9223372036854775808,18446744073709551615,-1]}",
        b"",
        Ok(true),
    ),
    // A key with data of the material 4, status 2, id 5, prefix 4; and one without data, status 3, prefix -3.
    (
        Asked::Read,
        "{\"key\":[{\"key_data\":{\"keyMaterialType\":\"REMOTE\"},\"status\":2,\"keyId\":5,\"output_prefix_type\":\"CRUNCHY\"}]}",
        b"\x12\x0a\x0a\x02\x18\x04\x10\x02\x18\x05\x20\x04",
        Ok(true),
    ),
    (
        Asked::Read,
        "{\"key\":[{\"status\":\"DESTROYED\",\"outputPrefixType\":-3}]}",
        b"\x12\x0d\x10\x03\x20\xfd\xff\xff\xff\xff\xff\xff\xff\xff\x01",
        Ok(true),
    ),
    // Other numbers.
    (Asked::Read, "{\"primaryKeyId\":7.0}", b"", REFUSED),
    (Asked::Read, "{\"primaryKeyId\":-1}", b"", REFUSED),
    (Asked::Read, "{\"primaryKeyId\":4294967296}", b"", REFUSED),
    (
        Asked::Read,
        "{\"primaryKeyId\":\"4294967296\"}",
        b"",
        REFUSED,
    ),
    (Asked::Read, "{\"primaryKeyId\":\"+7\"}", b"", REFUSED),
    (Asked::Read, "{\"primaryKeyId\":\"\"}", b"", REFUSED),
    (Asked::Read, "{\"primaryKeyId\":true}", b"", REFUSED),
    (Asked::Read, "{\"other\":-0}", b"", REFUSED),
    (Asked::Read, "{\"other\":[{\"more\":1e2}]}", b"", REFUSED),
    (
        Asked::Read,
        "{\"other\":18446744073709551616}",
        b"",
        REFUSED,
    ),
    (
        Asked::Read,
        "{\"other\":-9223372036854775809}",
        b"",
        REFUSED,
    ),
    (
        Asked::Read,
        "{\"primaryKeyId\":1.0,\"primaryKeyId\":1}",
        b"",
        REFUSED,
    ),
    (
        Asked::Read,
        "{\"other\":{\"more\":1e0,\"more\":1}}",
        b"",
        REFUSED,
    ),
    // Other values.
    (Asked::Read, "{} {}", b"", REFUSED),
    (Asked::Read, "", b"", REFUSED),
    (Asked::Read, "[]", b"", REFUSED),
    (Asked::Read, "null", b"", REFUSED),
    (Asked::Read, "{\"key\":{}}", b"", REFUSED),
    (Asked::Read, "{\"key\":[null]}", b"", REFUSED),
    // Other members.
    (
        Asked::Read,
        "{\"key\":[{\"status\":\"ENABLE\"}]}",
        b"",
        REFUSED,
    ),
    (
        Asked::Read,
        "{\"key\":[{\"status\":2147483648}]}",
        b"",
        REFUSED,
    ),
    (Asked::Read, "{\"key\":[{\"status\":\"1\"}]}", b"", REFUSED),
    (Asked::Read, "{\"key\":[{\"keyData\":[]}]}", b"", REFUSED),
    (
        Asked::Read,
        "{\"key\":[{\"keyData\":{\"value\":\"Eg\"}}]}",
        b"",
        REFUSED,
    ),
    (
        Asked::Read,
        "{\"key\":[{\"keyData\":{\"value\":\"Eh==\"}}]}",
        b"",
        REFUSED,
    ),
    (
        Asked::Read,
        "{\"key\":[{\"keyData\":{\"typeUrl\":1}}]}",
        b"",
        REFUSED,
    ),
];

#[test]
fn texts_are_read_and_written(rt: HostRuntime) {
    let alloc = rt.alloc();
    for (asked, text, bytes, want) in TEXTS {
        expect(&rt, answer_row(alloc, asked, text, bytes), *want, text);
    }
    let not_utf_8 = is_read(alloc, keyset_of(alloc, b"{\"other\":\"\xff\"}"), b"");
    expect(&rt, not_utf_8, REFUSED, "bytes that are not UTF-8");
}
