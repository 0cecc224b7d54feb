//! Signed tokens. The known ones were made by `hmac`, `cryptography` and `base64` of Python.

/// - Known tokens, what is no token, and what a rotated keyset says.
/// - Keysets that do not load as MACs.
/// - Each type of key and each prefix, and how long payloads and tokens may be.
/// - Calls that fail in turn. Before the first write nothing is written.
/// - Whatever is one byte from the token.
pub const TABLES: &str = r#"
ways:
the keyset of HMAC | keygen HMAC_SHA256_128BITTAG zero | | 0 | line 08fcb285d20d12680a5c0a2e747970652e676f6f676c65617069732e636f6d2f676f6f676c652e63727970746f2e74696e6b2e486d61634b657912281204080310101a2076b8e0ada0f13d90405d6ae55386bd28bdd219b8a08ded1aa836efcc8b770dc71801100118fcb285d20d2001 | line=hmac
the keyset of AES-CMAC | keygen AES_CMAC zero | | 0 | line 08fcb285d20d12690a5d0a31747970652e676f6f676c65617069732e636f6d2f676f6f676c652e63727970746f2e74696e6b2e416573436d61634b65791226122076b8e0ada0f13d90405d6ae55386bd28bdd219b8a08ded1aa836efcc8b770dc71a0208101801100118fcb285d20d2001 | line=cmac
the known token | sign hmac | '{"sub":1} | 0 | 'eyJzdWIiOjF9.AdpBWXyINi9jd9wXbJ4V_sGWBPqU | keep=token
the known payload | verify hmac | token | 0 | '{"sub":1} | keep=payload
this without its first byte | bytes | token/1/99 | 0 | length 40 | keep=rest
the letters before the dot | verify hmac | 'eyJzdWIiOjF9 | 27 |
no token | verify hmac | | 27 |
padding before the dot | verify hmac | 'eyJzdWIiOjF9=.AdpB | 27 |
bits behind the last byte | verify hmac | 'QR.AdpB | 27 |
a newline behind the token | verify hmac | token 0a | 27 |
a token of a part of the prefix | verify hmac | 'eyJzdWIiOjF9.AdpB | 28 |
another payload, and a part of the prefix | verify hmac | 'QQ.AdpB | 28 |
a token of no bytes | verify hmac | '. | 28 |
a token twice | verify hmac | token token | 27 |
the token under the key by AES-CMAC | verify cmac | token | 28 |
a rotated keyset of HMAC | rotate hmac HMAC_SHA256_128BITTAG zero | | 0 | line 088d91dd8a0512680a5c0a2e747970652e676f6f676c65617069732e636f6d2f676f6f676c652e63727970746f2e74696e6b2e486d61634b657912281204080310101a2076b8e0ada0f13d90405d6ae55386bd28bdd219b8a08ded1aa836efcc8b770dc71801100118fcb285d20d200112680a5c0a2e747970652e676f6f676c65617069732e636f6d2f676f6f676c652e63727970746f2e74696e6b2e486d61634b657912281204080310101a2076b8e0ada0f13d90405d6ae55386bd28bdd219b8a08ded1aa836efcc8b770dc718011001188d91dd8a052001 | line=hmac2
the old token under the rotated keyset | verify hmac2 | token | 0 | payload
the token of the rotated keyset | sign hmac2 | payload | 0 | 'eyJzdWIiOjF9.AVFXSI2INi9jd9wXbJ4V_sGWBPqU | keep=token2
the new token under the rotated keyset | verify hmac2 | token2 | 0 | payload
the new token under the old keyset | verify hmac | token2 | 28 |
the old key disabled | bytes | 088d91dd8a0512680a5c0a2e747970652e676f6f676c65617069732e636f6d2f676f6f676c652e63727970746f2e74696e6b2e486d61634b657912281204080310101a2076b8e0ada0f13d90405d6ae55386bd28bdd219b8a08ded1aa836efcc8b770dc71801100218fcb285d20d200112680a5c0a2e747970652e676f6f676c65617069732e636f6d2f676f6f676c652e63727970746f2e74696e6b2e486d61634b657912281204080310101a2076b8e0ada0f13d90405d6ae55386bd28bdd219b8a08ded1aa836efcc8b770dc718011001188d91dd8a052001 | 0 | any | keep=hmac3
the old token under a disabled key | verify hmac3 | token | 28 |
the new token beside a disabled key | verify hmac3 | token2 | 0 | payload
a rotated keyset of HMAC and AES-CMAC | rotate hmac AES_CMAC ones | | 0 | any | line=macs
the old token under keys of two types | verify macs | token | 0 | payload
a token by the newer of two types | sign macs | payload | 0 | length 41 | keep=token3
this under keys of two types | verify macs | token3 | 0 | payload
this under the older of two types | verify hmac | token3 | 28 |

ways:
no keyset | sign - | payload | 14 |
no keyset, for a token | verify - | token | 14 |
a field without its value | sign 08 | payload | 13 |
a field without its value, for a token | verify 08 | token | 13 |
a keyset without keys | sign 0801 | payload | 14 |
a keyset without keys, for a token | verify 0801 | token | 14 |
a keyset of MACs without its last byte | sign 08fcb285d20d12680a5c0a2e747970652e676f6f676c65617069732e636f6d2f676f6f676c652e63727970746f2e74696e6b2e486d61634b657912281204080310101a2076b8e0ada0f13d90405d6ae55386bd28bdd219b8a08ded1aa836efcc8b770dc71801100118fcb285d20d20 | payload | 13 |
a keyset of MACs without its last byte, for a token | verify 08fcb285d20d12680a5c0a2e747970652e676f6f676c65617069732e636f6d2f676f6f676c652e63727970746f2e74696e6b2e486d61634b657912281204080310101a2076b8e0ada0f13d90405d6ae55386bd28bdd219b8a08ded1aa836efcc8b770dc71801100118fcb285d20d20 | token | 13 |
a primary key that is disabled | sign 08fcb285d20d12680a5c0a2e747970652e676f6f676c65617069732e636f6d2f676f6f676c652e63727970746f2e74696e6b2e486d61634b657912281204080310101a2076b8e0ada0f13d90405d6ae55386bd28bdd219b8a08ded1aa836efcc8b770dc71801100218fcb285d20d2001 | payload | 14 |
a primary key that is disabled, for a token | verify 08fcb285d20d12680a5c0a2e747970652e676f6f676c65617069732e636f6d2f676f6f676c652e63727970746f2e74696e6b2e486d61634b657912281204080310101a2076b8e0ada0f13d90405d6ae55386bd28bdd219b8a08ded1aa836efcc8b770dc71801100218fcb285d20d2001 | token | 14 |
two enabled keys of the primary id | sign 08fcb285d20d12680a5c0a2e747970652e676f6f676c65617069732e636f6d2f676f6f676c652e63727970746f2e74696e6b2e486d61634b657912281204080310101a2076b8e0ada0f13d90405d6ae55386bd28bdd219b8a08ded1aa836efcc8b770dc71801100118fcb285d20d200112680a5c0a2e747970652e676f6f676c65617069732e636f6d2f676f6f676c652e63727970746f2e74696e6b2e486d61634b657912281204080310101a2076b8e0ada0f13d90405d6ae55386bd28bdd219b8a08ded1aa836efcc8b770dc71801100118fcb285d20d2001 | payload | 14 |
two enabled keys of the primary id, for a token | verify 08fcb285d20d12680a5c0a2e747970652e676f6f676c65617069732e636f6d2f676f6f676c652e63727970746f2e74696e6b2e486d61634b657912281204080310101a2076b8e0ada0f13d90405d6ae55386bd28bdd219b8a08ded1aa836efcc8b770dc71801100118fcb285d20d200112680a5c0a2e747970652e676f6f676c65617069732e636f6d2f676f6f676c652e63727970746f2e74696e6b2e486d61634b657912281204080310101a2076b8e0ada0f13d90405d6ae55386bd28bdd219b8a08ded1aa836efcc8b770dc71801100118fcb285d20d2001 | token | 14 |
another URL | sign 08fcb285d20d123b0a2f0a017812281204080310101a2076b8e0ada0f13d90405d6ae55386bd28bdd219b8a08ded1aa836efcc8b770dc71801100118fcb285d20d2001 | payload | 15 |
another URL, for a token | verify 08fcb285d20d123b0a2f0a017812281204080310101a2076b8e0ada0f13d90405d6ae55386bd28bdd219b8a08ded1aa836efcc8b770dc71801100118fcb285d20d2001 | token | 15 |
HMAC with tags of 9 bytes | sign 08fcb285d20d12680a5c0a2e747970652e676f6f676c65617069732e636f6d2f676f6f676c652e63727970746f2e74696e6b2e486d61634b657912281204080310091a2076b8e0ada0f13d90405d6ae55386bd28bdd219b8a08ded1aa836efcc8b770dc71801100118fcb285d20d2001 | payload | 16 |
HMAC with tags of 9 bytes, for a token | verify 08fcb285d20d12680a5c0a2e747970652e676f6f676c65617069732e636f6d2f676f6f676c652e63727970746f2e74696e6b2e486d61634b657912281204080310091a2076b8e0ada0f13d90405d6ae55386bd28bdd219b8a08ded1aa836efcc8b770dc71801100118fcb285d20d2001 | token | 16 |
HMAC with tags of 33 bytes of a digest of 32 | sign 08fcb285d20d12680a5c0a2e747970652e676f6f676c65617069732e636f6d2f676f6f676c652e63727970746f2e74696e6b2e486d61634b657912281204080310211a2076b8e0ada0f13d90405d6ae55386bd28bdd219b8a08ded1aa836efcc8b770dc71801100118fcb285d20d2001 | payload | 16 |
HMAC with tags of 33 bytes of a digest of 32, for a token | verify 08fcb285d20d12680a5c0a2e747970652e676f6f676c65617069732e636f6d2f676f6f676c652e63727970746f2e74696e6b2e486d61634b657912281204080310211a2076b8e0ada0f13d90405d6ae55386bd28bdd219b8a08ded1aa836efcc8b770dc71801100118fcb285d20d2001 | token | 16 |
HMAC with a key of 15 bytes | sign 08fcb285d20d12570a4b0a2e747970652e676f6f676c65617069732e636f6d2f676f6f676c652e63727970746f2e74696e6b2e486d61634b657912171204080310101a0f76b8e0ada0f13d90405d6ae55386bd1801100118fcb285d20d2001 | payload | 16 |
HMAC with a key of 15 bytes, for a token | verify 08fcb285d20d12570a4b0a2e747970652e676f6f676c65617069732e636f6d2f676f6f676c652e63727970746f2e74696e6b2e486d61634b657912171204080310101a0f76b8e0ada0f13d90405d6ae55386bd1801100118fcb285d20d2001 | token | 16 |
AES-CMAC with a key of 31 bytes | sign 08fcb285d20d12680a5c0a31747970652e676f6f676c65617069732e636f6d2f676f6f676c652e63727970746f2e74696e6b2e416573436d61634b65791225121f76b8e0ada0f13d90405d6ae55386bd28bdd219b8a08ded1aa836efcc8b770d1a0208101801100118fcb285d20d2001 | payload | 16 |
AES-CMAC with a key of 31 bytes, for a token | verify 08fcb285d20d12680a5c0a31747970652e676f6f676c65617069732e636f6d2f676f6f676c652e63727970746f2e74696e6b2e416573436d61634b65791225121f76b8e0ada0f13d90405d6ae55386bd28bdd219b8a08ded1aa836efcc8b770d1a0208101801100118fcb285d20d2001 | token | 16 |
a MAC, and an AES-GCM key that does not build | sign 08fcb285d20d12680a5c0a2e747970652e676f6f676c65617069732e636f6d2f676f6f676c652e63727970746f2e74696e6b2e486d61634b657912281204080310101a2076b8e0ada0f13d90405d6ae55386bd28bdd219b8a08ded1aa836efcc8b770dc71801100118fcb285d20d2001123e0a360a30747970652e676f6f676c65617069732e636f6d2f676f6f676c652e63727970746f2e74696e6b2e41657347636d4b657912001801100118052003 | payload | 16 |
a MAC, and an AES-GCM key that does not build, for a token | verify 08fcb285d20d12680a5c0a2e747970652e676f6f676c65617069732e636f6d2f676f6f676c652e63727970746f2e74696e6b2e486d61634b657912281204080310101a2076b8e0ada0f13d90405d6ae55386bd28bdd219b8a08ded1aa836efcc8b770dc71801100118fcb285d20d2001123e0a360a30747970652e676f6f676c65617069732e636f6d2f676f6f676c652e63727970746f2e74696e6b2e41657347636d4b657912001801100118052003 | token | 16 |
a public key of MACs, of another id than the primary one | sign 08fcb285d20d12640a5c0a2e747970652e676f6f676c65617069732e636f6d2f676f6f676c652e63727970746f2e74696e6b2e486d61634b657912281204080310101a2076b8e0ada0f13d90405d6ae55386bd28bdd219b8a08ded1aa836efcc8b770dc71803100118052001 | payload | 17 |
a public key of MACs, of another id than the primary one, for a token | verify 08fcb285d20d12640a5c0a2e747970652e676f6f676c65617069732e636f6d2f676f6f676c652e63727970746f2e74696e6b2e486d61634b657912281204080310101a2076b8e0ada0f13d90405d6ae55386bd28bdd219b8a08ded1aa836efcc8b770dc71803100118052001 | token | 17 |
a key of streams | sign raw | payload | 18 |
a key of streams, for a token | verify raw | token | 18 |
an AES-GCM key | sign 088486880812530a480a30747970652e676f6f676c65617069732e636f6d2f676f6f676c652e63727970746f2e74696e6b2e41657347636d4b657912121a10000102030405060708090a0b0c0d0e0f1801100118848688082003 | payload | 18 |
an AES-GCM key, for a token | verify 088486880812530a480a30747970652e676f6f676c65617069732e636f6d2f676f6f676c652e63727970746f2e74696e6b2e41657347636d4b657912121a10000102030405060708090a0b0c0d0e0f1801100118848688082003 | token | 18 |
a MAC, and an AES-GCM key | sign 08fcb285d20d12680a5c0a2e747970652e676f6f676c65617069732e636f6d2f676f6f676c652e63727970746f2e74696e6b2e486d61634b657912281204080310101a2076b8e0ada0f13d90405d6ae55386bd28bdd219b8a08ded1aa836efcc8b770dc71801100118fcb285d20d200112530a480a30747970652e676f6f676c65617069732e636f6d2f676f6f676c652e63727970746f2e74696e6b2e41657347636d4b657912121a10000102030405060708090a0b0c0d0e0f1801100118848688082003 | payload | 18 |
a MAC, and an AES-GCM key, for a token | verify 08fcb285d20d12680a5c0a2e747970652e676f6f676c65617069732e636f6d2f676f6f676c652e63727970746f2e74696e6b2e486d61634b657912281204080310101a2076b8e0ada0f13d90405d6ae55386bd28bdd219b8a08ded1aa836efcc8b770dc71801100118fcb285d20d200112530a480a30747970652e676f6f676c65617069732e636f6d2f676f6f676c652e63727970746f2e74696e6b2e41657347636d4b657912121a10000102030405060708090a0b0c0d0e0f1801100118848688082003 | token | 18 |
keys of pseudorandom functions | sign new9 | payload | 18 |
keys of pseudorandom functions, for a token | verify new9 | token | 18 |

ways:
a MAC, and a disabled AES-GCM key | sign 08fcb285d20d12680a5c0a2e747970652e676f6f676c65617069732e636f6d2f676f6f676c652e63727970746f2e74696e6b2e486d61634b657912281204080310101a2076b8e0ada0f13d90405d6ae55386bd28bdd219b8a08ded1aa836efcc8b770dc71801100118fcb285d20d200112500a480a30747970652e676f6f676c65617069732e636f6d2f676f6f676c652e63727970746f2e74696e6b2e41657347636d4b657912121a10000102030405060708090a0b0c0d0e0f1801100218052003 | payload | 0 | token
keys of HMAC with prefixes 1..4 | bytes | hmac/0/-1 00/0/1/% | 0 | any | keep=hmac.%
keys of AES-CMAC with prefixes 1..4 | bytes | cmac/0/-1 00/0/1/% | 0 | any | keep=cmac.%
no payload by hmac and TINK | sign hmac.1 | | 0 | '.AdpBWXzoDZ7HjcOtIc3efh8YC0Os
70 bytes by hmac and TINK | sign hmac.1 | #70 | 0 | 'AAECAwQFBgcICQoLDA0ODxAREhMUFRYXGBkaGxwdHh8gISIjJCUmJygpKissLS4vMDEyMzQ1Njc4OTo7PD0-P0BBQkNERQ.AdpBWXzdHC9MnTTywi22MyhwpvRK
no payload by hmac and LEGACY | sign hmac.2 | | 0 | '.ANpBWXxBEZuPTk3I2fnUP_lmxHd7
70 bytes by hmac and LEGACY | sign hmac.2 | #70 | 0 | 'AAECAwQFBgcICQoLDA0ODxAREhMUFRYXGBkaGxwdHh8gISIjJCUmJygpKissLS4vMDEyMzQ1Njc4OTo7PD0-P0BBQkNERQ.ANpBWXxG0sGG0ejw98yz-mELoRqe
no payload by hmac and RAW | sign hmac.3 | | 0 | '.6A2ex43DrSHN3n4fGAtDrA
70 bytes by hmac and RAW | sign hmac.3 | #70 | 0 | 'AAECAwQFBgcICQoLDA0ODxAREhMUFRYXGBkaGxwdHh8gISIjJCUmJygpKissLS4vMDEyMzQ1Njc4OTo7PD0-P0BBQkNERQ.3RwvTJ008sIttjMocKb0Sg
no payload by hmac and CRUNCHY | sign hmac.4 | | 0 | '.ANpBWXzoDZ7HjcOtIc3efh8YC0Os
70 bytes by hmac and CRUNCHY | sign hmac.4 | #70 | 0 | 'AAECAwQFBgcICQoLDA0ODxAREhMUFRYXGBkaGxwdHh8gISIjJCUmJygpKissLS4vMDEyMzQ1Njc4OTo7PD0-P0BBQkNERQ.ANpBWXzdHC9MnTTywi22MyhwpvRK
0..70 bytes by hmac and prefixes 1..4 | sign hmac.~ | #% | 0 | any | keep=hmac%.~
the tokens of 0..70 bytes by hmac and prefixes 1..4 | verify hmac.~ | hmac%.~ | 0 | #%
no payload by cmac and TINK | sign cmac.1 | | 0 | '.AdpBWXzKwZ4BxlTOXQfeV1sLTLG8
70 bytes by cmac and TINK | sign cmac.1 | #70 | 0 | 'AAECAwQFBgcICQoLDA0ODxAREhMUFRYXGBkaGxwdHh8gISIjJCUmJygpKissLS4vMDEyMzQ1Njc4OTo7PD0-P0BBQkNERQ.AdpBWXzXUOQ_qiTuGYby6SZln1-j
no payload by cmac and LEGACY | sign cmac.2 | | 0 | '.ANpBWXwcg7KKnDmEwXV0OgW62Rnc
70 bytes by cmac and LEGACY | sign cmac.2 | #70 | 0 | 'AAECAwQFBgcICQoLDA0ODxAREhMUFRYXGBkaGxwdHh8gISIjJCUmJygpKissLS4vMDEyMzQ1Njc4OTo7PD0-P0BBQkNERQ.ANpBWXyKx_HAQDIFWiSTCa1DtcY-
no payload by cmac and RAW | sign cmac.3 | | 0 | '.ysGeAcZUzl0H3ldbC0yxvA
70 bytes by cmac and RAW | sign cmac.3 | #70 | 0 | 'AAECAwQFBgcICQoLDA0ODxAREhMUFRYXGBkaGxwdHh8gISIjJCUmJygpKissLS4vMDEyMzQ1Njc4OTo7PD0-P0BBQkNERQ.11DkP6ok7hmG8ukmZZ9fow
no payload by cmac and CRUNCHY | sign cmac.4 | | 0 | '.ANpBWXzKwZ4BxlTOXQfeV1sLTLG8
70 bytes by cmac and CRUNCHY | sign cmac.4 | #70 | 0 | 'AAECAwQFBgcICQoLDA0ODxAREhMUFRYXGBkaGxwdHh8gISIjJCUmJygpKissLS4vMDEyMzQ1Njc4OTo7PD0-P0BBQkNERQ.ANpBWXzXUOQ_qiTuGYby6SZln1-j
0..70 bytes by cmac and prefixes 1..4 | sign cmac.~ | #% | 0 | any | keep=cmac%.~
the tokens of 0..70 bytes by cmac and prefixes 1..4 | verify cmac.~ | cmac%.~ | 0 | #%
the token under other prefixes 2..4 | verify hmac.% | token | 28 |
the most bytes | sign hmac | #16777216 | 0 | length 22369651 sha256 5b33e5950dbaec2342387607627c4d4305ed46853fcab962fc7608f5a020d8e1 | room=22369651
one byte more | sign hmac | #16777217 | 26 |
the payload of the longest token | sign hmac | #12582890 | 0 | length 16777216 sha256 5d1c8887d6034060ba6f1994f2538a517feca33c24ae076d4bdc90919e6574da | room=16777216 keep=longest
the longest token | verify hmac | longest | 0 | #12582890 | room=12582890
one byte behind the longest token | verify hmac | longest 41 | 26 |
nothing is kept of it | bytes | | 0 | | keep=longest

ways:
reads 1..10 for a token | sign hmac | payload | 11 | | piece=1 read=%
no read 11 for a token | sign hmac | payload | 0 | token | piece=1 read=11
writes 1..41 of a token | sign hmac | payload | 12 | begins token | piece=1 write=%
no write 42 of a token | sign hmac | payload | 0 | token | piece=1 write=42
reads 1..42 for a payload | verify hmac | token | 11 | | piece=1 read=%
no read 43 for a payload | verify hmac | token | 0 | payload | piece=1 read=43
writes 1..9 of a payload | verify hmac | token | 12 | begins payload | piece=1 write=%
no write 10 of a payload | verify hmac | token | 0 | payload | piece=1 write=10
reads 1..3 for a token | sign hmac | payload | 11 | | piece=7 read=%
no read 4 for a token | sign hmac | payload | 0 | token | piece=7 read=4
write 1 of a token | sign hmac | payload | 12 | begins token 0 | piece=7 write=1
write 2 of a token | sign hmac | payload | 12 | begins token 7 | piece=7 write=2
write 3 of a token | sign hmac | payload | 12 | begins token 14 | piece=7 write=3
write 4 of a token | sign hmac | payload | 12 | begins token 21 | piece=7 write=4
write 5 of a token | sign hmac | payload | 12 | begins token 28 | piece=7 write=5
write 6 of a token | sign hmac | payload | 12 | begins token 35 | piece=7 write=6
no write 7 of a token | sign hmac | payload | 0 | token | piece=7 write=7
reads 1..7 for a payload | verify hmac | token | 11 | | piece=7 read=%
no read 8 for a payload | verify hmac | token | 0 | payload | piece=7 read=8
write 1 of a payload | verify hmac | token | 12 | begins payload 0 | piece=7 write=1
write 2 of a payload | verify hmac | token | 12 | begins payload 7 | piece=7 write=2
no write 3 of a payload | verify hmac | token | 0 | payload | piece=7 write=3
reads 1..2 for a token | sign hmac | payload | 11 | | piece=41 read=%
no read 3 for a token | sign hmac | payload | 0 | token | piece=41 read=3
write 1 of a token | sign hmac | payload | 12 | begins token 0 | piece=41 write=1
no write 2 of a token | sign hmac | payload | 0 | token | piece=41 write=2
reads 1..2 for a payload | verify hmac | token | 11 | | piece=41 read=%
no read 3 for a payload | verify hmac | token | 0 | payload | piece=41 read=3
write 1 of a payload | verify hmac | token | 12 | begins payload 0 | piece=41 write=1
no write 2 of a payload | verify hmac | token | 0 | payload | piece=41 write=2
room for 0..40 bytes of a token | sign hmac | payload | 12 | begins token % | room=%
room for all of a token | sign hmac | payload | 0 | token | room=41
room for 0..8 bytes of a payload | verify hmac | token | 12 | begins payload % | room=%
room for all of a payload | verify hmac | token | 0 | payload | room=9
a read that fails before a keyset is refused | sign raw | payload | 18 | | read=1
a write that fails before a token is refused | verify hmac | 'QQ.AdpB | 28 | | write=1

ways:
0..40 bytes of the token | verify hmac | token/0/% | 27/28 |
without the byte 0..40 | verify hmac | token/0/% rest/%/99 | 27/28 |
the byte 0..40 changed by 1..255 | verify hmac | token/0/% token/%/1/~ rest/%/99 | 27/28 |
before the byte 0..41 one of 0..255 | verify hmac | token/0/% 00/0/1/~ token/%/99 | 27/28 |
"#;
