//! Whole streams through the program. Bytes and digests of streams are those of an independent model in Python.

/// - Streams of the model, and what they open to.
/// - What is sealed under one keyset, and opened under another.
/// - Streams begin by the prefix of their key.
/// - Streams of keys by each template, after a rotation and with each prefix.
/// - The same streams, whatever the bytes that move in a call.
pub const TABLES: &str = r#"
ways:
ten bytes in counter mode | seal raw 00ff zero | 'ten bytes. | 0 | 1876b8e0ada0f13d90405d6ae55386bd28bdd219b8a08ded2f087473280bfcb781da1d2067921873485fc9ded98aeb6a87dbc842f20ff403c825d41bdad241efede7
data of other letters | open raw 00FF | 1876b8e0ada0f13d90405d6ae55386bd28bdd219b8a08ded2f087473280bfcb781da1d2067921873485fc9ded98aeb6a87dbc842f20ff403c825d41bdad241efede7 | 0 | 'ten bytes.
ten bytes by AES-GCM | seal gcm 00ff zero | 'ten bytes. | 0 | 1876b8e0ada0f13d90405d6ae55386bd28bdd219b8a08dede382c8aa8865ed01c605fd83003669edaeb32852b9a7e7e49d0b
0 bytes | seal raw - zero | #0 | 0 | length 56 sha256 ca813aab9329d77e4d8a2f8a1f841fb33900e633555a3ce97d452205cc2d1fd0 | keep=s0
the stream of 0 bytes | open raw - | s0 | 0 | #0
4,040 bytes | seal raw - zero | #4040 | 0 | length 4096 sha256 1bfa30886e90fcf7c3744688f5f9053662557bdd391b8728eff298331b4f5568 | keep=s4040
the stream of 4,040 bytes | open raw - | s4040 | 0 | #4040
4,041 bytes | seal raw - zero | #4041 | 0 | length 4129 sha256 c18c4240a31e156e23e266ebd9bef87db0dfba42ee2559dcb98faccff6407085 | keep=s4041
the stream of 4,041 bytes | open raw - | s4041 | 0 | #4041
8,104 bytes | seal raw - zero | #8104 | 0 | length 8192 sha256 844145537e540e337b2c88c24fdc8eaae4fede91d2f6211fb374cd74237f0bba | keep=s8104
the stream of 8,104 bytes | open raw - | s8104 | 0 | #8104
10,000 bytes | seal raw - zero | #10000 | 0 | length 10120 sha256 a675ec64cbd85246629e838a7422b76eb2c1801358db60ce65b044637a3d4871 | keep=s10000
the stream of 10,000 bytes | open raw - | s10000 | 0 | #10000
12,168 bytes | seal raw - zero | #12168 | 0 | length 12288 sha256 d3015b7435fc1b7028b71617082f293570cf3136b888bd0cfdcb542a4ba812a1 | keep=s12168
the stream of 12,168 bytes | open raw - | s12168 | 0 | #12168
A in small segments | seal small - zero | 'A | 0 | 1876b8e0ada0f13d90405d6ae55386bd28bdd219b8a08ded1730564f8d3f16aef6960b
the small segments of A | open small - | 1876b8e0ada0f13d90405d6ae55386bd28bdd219b8a08ded1730564f8d3f16aef6960b | 0 | 'A
AB in small segments | seal small - zero | 'AB | 0 | 1876b8e0ada0f13d90405d6ae55386bd28bdd219b8a08ded41d3fd03010cd7de192dc15ae13cb3e75d9d898047ec
the small segments of AB | open small - | 1876b8e0ada0f13d90405d6ae55386bd28bdd219b8a08ded41d3fd03010cd7de192dc15ae13cb3e75d9d898047ec | 0 | 'AB
an empty last segment | open small - | emptylast | 0 | #26

ways:
no text, sealed | seal raw 00ff zero | #0 | 0 | length 56 | keep=round
no text, opened | open raw 00ff | round | 0 | #0
a byte, sealed | seal raw 00ff zero | #1 | 0 | length 57 | keep=round
a byte, opened | open raw 00ff | round | 0 | #1
a segment, sealed | seal raw 00ff zero | #4040 | 0 | length 4096 | keep=round
a segment, opened | open raw 00ff | round | 0 | #4040
a byte more, sealed | seal raw 00ff zero | #4041 | 0 | length 4129 | keep=round
a byte more, opened | open raw 00ff | round | 0 | #4041
two small segments, sealed | seal small - zero | #26 | 0 | length 70 | keep=round
two small segments, opened | open small - | round | 0 | #26
mixed, the first key, sealed | seal mixed - zero | #4040 | 0 | length 4096 | keep=round
mixed, the first key, opened | open mixed - | round | 0 | #4040
mixed, the second key, sealed | seal mixed - zero | #5000 | 0 | length 5056 | keep=round
mixed, the second key, opened | open mixed - | round | 0 | #5000
a key without its hash, sealed | seal raw - zero | #10 | 0 | length 66 | keep=round
a key without its hash, opened | open sha224before - | round | 0 | #10
a prefixed key, sealed | seal tink - zero | #0 | 0 | length 61 | keep=round
a prefixed key, opened | open tink - | round | 0 | #0
a prefixed key, two segments, sealed | seal tink - zero | #4041 | 0 | length 4134 | keep=round
a prefixed key, two segments, opened | open tink - | round | 0 | #4041
a prefix among others, sealed | seal tink - zero | #10 | 0 | length 71 | keep=round
a prefix among others, opened | open tinkandraw - | round | 0 | #10
no prefix among others, sealed | seal tinkandraw - zero | #10 | 0 | length 66 | keep=round
no prefix among others, opened | open tinkandraw - | round | 0 | #10
a LEGACY key that shares its prefix, sealed | seal legacy - zero | #10 | 0 | length 71 | keep=round
a LEGACY key that shares its prefix, opened | open shared - | round | 0 | #10
a CRUNCHY key that shares its prefix, sealed | seal crunchy - zero | #10 | 0 | length 71 | keep=round
a CRUNCHY key that shares its prefix, opened | open shared - | round | 0 | #10
a prefix under the raw key, sealed | seal tink - zero | #0 | 0 | length 61 | keep=round
a prefix under the raw key, opened | open raw - | round | 21 |
a prefix of another type, sealed | seal tink - zero | #0 | 0 | length 61 | keep=round
a prefix of another type, opened | open crunchy - | round | 21 |
no prefix under the prefixed key, sealed | seal raw - zero | #0 | 0 | length 56 | keep=round
no prefix under the prefixed key, opened | open tink - | round | 21 |
other data, sealed | seal raw 00ff zero | #10 | 0 | length 66 | keep=round
other data, opened | open raw - | round | 21 |
no data, sealed | seal raw - zero | #10 | 0 | length 66 | keep=round
no data, opened | open raw 00ff | round | 21 |
0 bytes by gcm | seal gcm - zero | #0 | 0 | length 40 | keep=round
0 bytes by gcm under gcm | open gcm - | round | 0 | #0
4,056 bytes by gcm | seal gcm - zero | #4056 | 0 | length 4096 | keep=round
4,056 bytes by gcm under gcm | open gcm - | round | 0 | #4056
4,057 bytes by gcm | seal gcm - zero | #4057 | 0 | length 4113 | keep=round
4,057 bytes by gcm under gcm | open gcm - | round | 0 | #4057
9,000 bytes by gcm | seal gcm - zero | #9000 | 0 | length 9072 | keep=round
9,000 bytes by gcm under gcm | open gcm - | round | 0 | #9000
12,168 bytes by raw | seal raw - zero | #12168 | 0 | length 12288 | keep=round
12,168 bytes by raw under bothkinds | open bothkinds - | round | 0 | #12168
4,041 bytes by bothkinds | seal bothkinds - zero | #4041 | 0 | length 4129 | keep=round
4,041 bytes by bothkinds under bothkinds | open bothkinds - | round | 0 | #4041
a stream of another kind, sealed | seal gcm - zero | #100 | 0 | any | keep=round
a stream of another kind | open raw - | round | 21 |
a keyset of two types, whose stream | seal raw - zero | #100 | 0 | any | keep=round
a keyset of two types | open twotypes - | round | 18 |

ways:
the front of tink | seal tink - zero | | 0 | 0101020304 s0 | keep=tink0
the front of crunchy | seal crunchy - zero | | 0 | 0001020304 s0 | keep=crunchy0
the front of legacy, of another main key | seal legacy - zero | | 0 | length 61 | keep=legacy0
the prefix of legacy | bytes | legacy0/0/5 | 0 | 0001020304
4,041 bytes of tink | seal tink - zero | #4041 | 0 | 0101020304 s4041 | keep=tink4041
ten bytes of raw | seal raw - zero | #10 | 0 | any | keep=raw10
ten bytes of tink, which is raw behind the prefix | seal tink - zero | #10 | 0 | 0101020304 raw10
0..60 bytes of the stream of tink | open tink - | tink0/0/% | 21 |
the whole stream of tink | open tink - | tink0 | 0 |
0..60 bytes of the stream of legacy | open legacy - | legacy0/0/% | 21 |
the whole stream of legacy | open legacy - | legacy0 | 0 |
0..60 bytes of the stream of crunchy | open crunchy - | crunchy0/0/% | 21 |
the whole stream of crunchy | open crunchy - | crunchy0 | 0 |
a cut in the first segment of tink, 4100..4101 | open tink - | tink4041/0/% | 21 |
a cut behind the first segment of tink | open tink - | tink4041/0/4102 | 23 1 | #4040
a cut of the last byte of tink | open tink - | tink4041/0/4133 | 22 1 | #4040

ways:
new keys of the templates 0..7 | keygen @% zero | | 0 | any | line=new%
a text under the templates 0..7 | seal new% 00 zero | #5000 | 0 | any | keep=stream%
the templates 0..7 rotated | rotate new% @% ones | | 0 | any | line=rotated%
an old stream under the rotated templates 0..7 | open rotated% 00 | stream% | 0 | #5000
a new stream of the rotated templates 0..7 | seal rotated% 00 zero | #5000 | 0 | any | keep=later%
a new stream under the rotated templates 0..7 | open rotated% 00 | later% | 0 | #5000
a new stream under the old key of the templates 0..7 | open new% 00 | later% | 21 |
keys of the templates 0..7 with prefixes 1..4 | bytes | new%/0/-1 00/0/1/~ | 0 | any | keep=key%.~
a text under the templates 0..7 with prefixes 1..4 | seal key%.~ 00 zero | #5000 | 0 | any | keep=front%.~
it opens under the templates 0..7 with prefixes 1..4 | open key%.~ 00 | front%.~ | 0 | #5000
without its prefix under the templates 0..7 with prefixes 1..2 | open key%.~ 00 | stream% | 21 |
behind the prefix of the templates 0..7 with prefixes 1..1 | bytes | front%.~/5/99999 | 0 | stream%
behind the prefix of the templates 0..7 with prefixes 2..2 | bytes | front%.~/5/99999 | 0 | stream%
behind the prefix of the templates 0..7 with prefixes 4..4 | bytes | front%.~/5/99999 | 0 | stream%
no prefix of the templates 0..7 with prefixes 3..3 | bytes | front%.~ | 0 | stream%

ways: | piece=1; | piece=35; | piece=5000
a text in pieces under the templates 0..7 | seal new% 00 zero | #5000 | 0 | stream% |
its stream in pieces under the templates 0..7 | open new% 00 | stream% | 0 | #5000 |
"#;
