//! Ranges of the texts of streams.

/// Given, refused, by ends that fail, and words that spell no such command.
pub const TABLES: &str = r#"
ways:
a range over the end of a segment | range raw - 4030 20 | s12168 | 0 | 0e0f101112131415161718191a1b1c1d1e1f2021
the end of a text | range raw - 12160 100 | s12168 | 0 | 7071727374757677
a range behind a text | range raw - 20000 5 | s12168 | 0 |
a range of no bytes | range raw - 4030 0 | s12168 | 0 |
all of a text | range raw - 0 18446744073709551615 | s12168 | 0 | #12168
the last places of all | range raw - 18446744073709551615 18446744073709551615 | s12168 | 0 |
the first byte | range raw - 0 1 | s12168 | 0 | 00
the last byte | range raw - 12167 1 | s12168 | 0 | 77
no text | range raw - 0 10 | s0 | 0 |
a segment and its ends | range raw - 4039 4066 | s12168 | 0 | length 4066
three segments of one text | range raw - 4030 4100 | s12168 | 0 | length 4100 | keep=threeparts
what opens by the second of two keys | range bothkinds - 4030 20 | s12168 | 0 | 0e0f101112131415161718191a1b1c1d1e1f2021
a stream with data | seal raw 00ff zero | #4100 | 0 | length 4188 | keep=d4100
a range of it | range raw 00FF 4030 20 | d4100 | 0 | 0e0f101112131415161718191a1b1c1d1e1f2021
a range of it without the data | range raw - 4030 20 | d4100 | 21 |
a stream of a prefixed key | seal tink - zero | #5000 | 0 | length 5093 | keep=p5000
a range of it | range tink - 4030 20 | p5000 | 0 | 0e0f101112131415161718191a1b1c1d1e1f2021
a range of it under the raw key | range raw - 4030 20 | p5000 | 21 |
no stream | range raw - 0 10 | | 21 |
a stream of another key | range gcm - 0 10 | s12168 | 21 |
without its last byte | range raw - 0 10 | s12168/0/12287 | 22 2 |
cut inside a tag | range raw - 0 10 | s12168/0/8200 | 23 2 |
cut at a segment | range raw - 0 10 | s12168/0/8192 | 22 1 |
the stream with a byte of the second segment changed | bytes | s12168/0/5000 s12168/5000/1/1 s12168/5001/9999 | 0 | length 12288 | keep=changed
before the changed segment | range raw - 0 10 | changed | 0 | #10
behind the changed segment | range raw - 8104 10 | changed | 0 | 48494a4b4c4d4e4f5051
the first byte of the changed segment | range raw - 4040 1 | changed | 22 1 |
over the beginning of the changed segment | range raw - 4030 20 | changed | 22 1 | 0e0f1011121314151617
a byte of the first segment changed | range raw - 8104 10 | s12168/0/30 s12168/30/1/1 s12168/31/99999 | 21 |
more than is held | range raw - 0 10 | #16777217 | 26 |
no keyset | range - - 0 10 | s12168 | 14 |
a field without its value | range 08 - 0 10 | s12168 | 13 |
a keyset of no streams | range siv - 0 10 | s12168 | 18 |
reads 1..4 of a range | range raw - 4030 20 | s12168 | 11 | | read=%
no read 5 of a range | range raw - 4030 20 | s12168 | 0 | 0e0f101112131415161718191a1b1c1d1e1f2021 | read=5
write 1 of a range | range raw - 4030 4100 | s12168 | 12 | begins threeparts 0 | write=1
write 2 of a range | range raw - 4030 4100 | s12168 | 12 | begins threeparts 10 | write=2
write 3 of a range | range raw - 4030 4100 | s12168 | 12 | begins threeparts 4074 | write=3
no write 4 of a range | range raw - 4030 4100 | s12168 | 0 | threeparts | write=4
room for 0..11 bytes of a range | range raw - 4030 4100 | s12168 | 12 | begins threeparts % | room=%
a read that fails before a keyset is refused | range siv - 0 10 | s12168 | 18 | | read=1
a write that fails before the last segment is refused | range raw - 0 10 | s12168/0/12287 | 22 2 | | write=1
no number | range raw - 00 1 | s12168 | 2 |
no number | range raw - +1 1 | s12168 | 2 |
no number | range raw - '' 1 | s12168 | 2 |
no number | range raw - 18446744073709551616 1 | s12168 | 2 |
no number | range raw - 1 01 | s12168 | 2 |
no number | range raw - 1 -1 | s12168 | 2 |
no number | range raw - 1 '' | s12168 | 2 |
no number | range raw - 1 18446744073709551616 | s12168 | 2 |
one word less | range raw - 1 | s12168 | 2 |
one word more | range raw - 1 1 1 | s12168 | 2 |
data of no pairs | range raw 0 1 1 | s12168 | 2 |
"#;
