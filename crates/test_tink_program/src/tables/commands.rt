//! Keysets that the program makes, the measured text, and words that spell no command.

/// - The known keysets, keysets by each template, refusals, and sinks that fail.
/// - The lines of the large text, which a model in Python made, and words that spell no command.
pub const TABLES: &str = r#"
ways:
a new keyset | keygen AES128_CTR_HMAC_SHA256_4KB zero | | 0 | line newkey | keep=newline
the usual keyset rotated | rotate raw AES128_CTR_HMAC_SHA256_4KB zero | | 0 | line newkey/0/6 raw/5/999 newkey/6/999 |
an unknown template | keygen X zero | | 24 |
an empty template | keygen '' zero | | 24 |
a template of small letters | keygen aes128_gcm zero | | 24 |
an unknown template for a keyset | rotate raw X zero | | 24 |
an unknown template before a bad keyset | rotate 08 X zero | | 24 |
a bad keyset rotated | rotate 08 AES128_CTR_HMAC_SHA256_4KB zero | | 13 |
no keyset rotated | rotate - AES128_CTR_HMAC_SHA256_4KB zero | | 14 |
a keyset without keys rotated | rotate 0801 AES128_CTR_HMAC_SHA256_4KB zero | | 14 |
new keys of the other templates 8..25 | keygen @% zero | | 0 | any | line=new%
they build, and are none of streams, 8..25 | seal new% - zero | | 18 |
the other templates 8..25 rotated | rotate new% @% ones | | 0 | any | line=rotated%
they build too, 8..25 | seal rotated% - zero | | 18 |
a keyset of AES-SIV | keygen AES256_SIV zero | | 0 | line siv
a keyset of AES-SIV seals no stream | seal siv - zero | | 18 |
what it encrypts, 0..1 | encrypt siv | 'abc | 0 | 019f07e7bed6368d963d5164bd5b1c4f7b386ba81783fe05
what it decrypts | decrypt siv | 019f07e7bed6368d963d5164bd5b1c4f7b386ba81783fe05 | 0 | 'abc
what it does not decrypt | decrypt siv | 019f07e7bed6368d963d5064bd5b1c4f7b386ba81783fe05 | 255 decrypt failed |
the third write of 100 bytes of a keyset | keygen AES128_CTR_HMAC_SHA256_4KB zero | | 12 | begins newline 200 | piece=100 write=3 room=300
the write of the newline of a keyset | keygen AES128_CTR_HMAC_SHA256_4KB zero | | 12 | begins newline 240 | piece=1 write=241 room=300
the usual keyset | bytes | raw | 0 | raw | keep=often
rotations 1..128 of one seed | rotate often AES128_CTR_HMAC_SHA256_4KB zero | | 0 | any | line=often
the rotation after these | rotate often AES128_CTR_HMAC_SHA256_4KB zero | | 25 |
128 ids of zero | keygen AES128_CTR_HMAC_SHA256_4KB | | 25 | | zeros=528
127 ids of zero | keygen AES128_CTR_HMAC_SHA256_4KB | | 255 random fault | | zeros=527

ways:
a large text, 0..1 | large 0 | | 0 | 'text 1000000¶stream 1007928¶segments 247¶sha256 a4400b50bb2795d6e36e1b6114ea3f3ec97e2a5ce22b42d860264b622e4b217a¶| keep=measured
the third write of 30 bytes of its lines | large 0 | | 12 | begins measured 60 | piece=30 write=3 room=200
no number | large 00 | | 2 |
no number | large 01 | | 2 |
no number | large 1000000 | | 2 |
no number | large 4294967296 | | 2 |
no number | large -1 | | 2 |
no number | large +1 | | 2 |
no number | large 1␣ | | 2 |
no number | large ␣1 | | 2 |
no number | large '' | | 2 |
no number | large 0x1 | | 2 |
no number | large 1e3 | | 2 |
no number | large ١ | | 2 |
no words | | | 2 |
no command | --help | | 2 |
no command | keygen AES128_CTR_HMAC_SHA256_4KB 00 | | 2 |
no command | keygen AES128_CTR_HMAC_SHA256_4KB | | 2 |
no command | keygen zero | | 2 |
no command | rotate 00 AES128_CTR_HMAC_SHA256_4KB 00 | | 2 |
no command | rotate 00 zero | | 2 |
no command | rotate 0 X zero | | 2 |
no command | rotate - - X zero | | 2 |
no command | large | | 2 |
no command | large 0 0 | | 2 |
no command | seal 00 - | | 2 |
no command | open 00 - 00 | | 2 |
no command | open 000 - | | 2 |
no command | open 0 - | | 2 |
no command | open '' - | | 2 |
no command | open 0g - | | 2 |
no command | seal 00 - 000000000000000000000000000000000000000000000000000000000000000 | | 2 |
no command | seal 00 - 00000000000000000000000000000000000000000000000000000000000000000 | | 2 |
no command | sign | | 2 |
no command | verify | | 2 |
no command | sign '' | | 2 |
no command | verify '' | | 2 |
no command | sign 0 | | 2 |
no command | verify 0 | | 2 |
no command | sign 0g | | 2 |
no command | verify 0g | | 2 |
no command | sign 000 | | 2 |
no command | sign hmac - | | 2 |
no command | verify hmac - | | 2 |
no command | Sign hmac | | 2 |
no command | VERIFY hmac | | 2 |
room for six bytes of the line | --help | | 2 | | lines=6
"#;
