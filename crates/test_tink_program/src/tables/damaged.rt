//! Streams that are cut, lengthened, put together anew or changed.

/// - Through the program.
/// - Through the program, and through `run`.
pub const TABLES: &str = r#"
ways:
the stream with data | seal raw 00ff zero | #4041 | 0 | length 4129 | keep=d4041
0..24 bytes of the stream | open raw - | s4041/0/% | 21 |
4095..4096 bytes of the stream | open raw - | s4041/0/% | 21 |
4097..4127 bytes of the stream | open raw - | s4041/0/% | 23 1 | #4040
4128 bytes of the stream | open raw - | s4041/0/4128 | 22 1 | #4040
the stream | open raw - | s4041 | 0 | #4041
0..24 bytes of the stream with data | open raw 00ff | d4041/0/% | 21 |
4095..4096 bytes of the stream with data | open raw 00ff | d4041/0/% | 21 |
4097..4127 bytes of the stream with data | open raw 00ff | d4041/0/% | 23 1 | #4040
4128 bytes of the stream with data | open raw 00ff | d4041/0/4128 | 22 1 | #4040
the stream with data | open raw 00ff | d4041 | 0 | #4041
segments 0, 2 and 1 | open raw - | s12168/0/4096 s12168/8192/4096 s12168/4096/4096 | 22 1 | #4040
segments 0, 1 and 1 | open raw - | s12168/0/4096 s12168/4096/4096 s12168/4096/4096 | 22 2 | #8104
segments 0 and 2 | open raw - | s12168/0/4096 s12168/8192/4096 | 22 1 | #4040
a byte behind two whole segments | open raw - | s8104 00 | 22 1 | #4040
a byte behind the last segment | open raw - | s4041 00 | 22 1 | #4040
the stream of small segments | seal small - zero | #60 | 0 | length 124 | keep=s60
this without its first byte | bytes | s60/1/999 | 0 | length 123 | keep=t60
the stream of small segments by AES-GCM | seal smallgcm - zero | #60 | 0 | length 132 | keep=g60
this without its first byte | bytes | g60/1/999 | 0 | length 131 | keep=h60

ways:; | draws=3 left=3 piece=1; | draws=3 left=3 piece=7; | draws=3 left=3 piece=4096
0..35 bytes of small segments | open small - | s60/0/% | 21 |
36..44 bytes of small segments | open small - | s60/0/% | 23 1 | #1
45..70 bytes of small segments | open small - | s60/0/% | 22 1 | #1
71..79 bytes of small segments | open small - | s60/0/% | 23 2 | #26
80..105 bytes of small segments | open small - | s60/0/% | 22 2 | #26
106..114 bytes of small segments | open small - | s60/0/% | 23 3 | #51
115..123 bytes of small segments | open small - | s60/0/% | 22 3 | #51
124..124 bytes of small segments | open small - | s60/0/% | 0 | #60 | segments=4 bytes=60
the stream twice, of small segments | open small - | s60 s60 | 22 3 | #51
a byte behind those of small segments | open small - | s60 00 | 22 3 | #51
16 bytes behind those of small segments | open small - | s60 00000000000000000000000000000000 | 22 3 | #51
17 bytes behind those of small segments | open small - | s60 0000000000000000000000000000000000 | 22 3 | #51
segments 0, 2 and 1 of small segments | open small - | s60/0/35 s60/70/35 s60/35/35 | 22 1 | #1
segments 0, 2 and 3 of small segments | open small - | s60/0/35 s60/70/35 s60/105/19 | 22 1 | #1
segments 0, 1, 1 and 3 of small segments | open small - | s60/0/70 s60/35/35 s60/105/19 | 22 2 | #26
a change by 48 at 0..0 of small segments | open small - | s60/0/% s60/%/1/48 t60/%/999 | 21 |
a change by 1 at 0..34 of small segments | open small - | s60/0/% s60/%/1/1 t60/%/999 | 21 |
a change by 1 at 35..69 of small segments | open small - | s60/0/% s60/%/1/1 t60/%/999 | 22 1 | #1
a change by 1 at 70..104 of small segments | open small - | s60/0/% s60/%/1/1 t60/%/999 | 22 2 | #26
a change by 1 at 105..123 of small segments | open small - | s60/0/% s60/%/1/1 t60/%/999 | 22 3 | #51
0..48 bytes of small segments by AES-GCM | open smallgcm - | g60/0/% | 21 |
49..63 bytes of small segments by AES-GCM | open smallgcm - | g60/0/% | 23 1 | #8
64..96 bytes of small segments by AES-GCM | open smallgcm - | g60/0/% | 22 1 | #8
97..111 bytes of small segments by AES-GCM | open smallgcm - | g60/0/% | 23 2 | #40
112..131 bytes of small segments by AES-GCM | open smallgcm - | g60/0/% | 22 2 | #40
132..132 bytes of small segments by AES-GCM | open smallgcm - | g60/0/% | 0 | #60 | segments=3 bytes=60
the stream twice, of small segments by AES-GCM | open smallgcm - | g60 g60 | 22 2 | #40
a byte behind those of small segments by AES-GCM | open smallgcm - | g60 00 | 22 2 | #40
16 bytes behind those of small segments by AES-GCM | open smallgcm - | g60 00000000000000000000000000000000 | 22 2 | #40
17 bytes behind those of small segments by AES-GCM | open smallgcm - | g60 0000000000000000000000000000000000 | 22 2 | #40
segments 0, 2 and 1 of small segments by AES-GCM | open smallgcm - | g60/0/48 g60/96/36 g60/48/48 | 22 1 | #8
segments 0 and 2 of small segments by AES-GCM | open smallgcm - | g60/0/48 g60/96/36 | 22 1 | #8
segments 0, 1 and 1 of small segments by AES-GCM | open smallgcm - | g60/0/96 g60/48/48 | 22 2 | #40
a change by 56 at 0..0 of small segments by AES-GCM | open smallgcm - | g60/0/% g60/%/1/56 h60/%/999 | 21 |
a change by 1 at 0..47 of small segments by AES-GCM | open smallgcm - | g60/0/% g60/%/1/1 h60/%/999 | 21 |
a change by 128 at 47..47 of small segments by AES-GCM | open smallgcm - | g60/0/% g60/%/1/128 h60/%/999 | 21 |
a change by 1 at 48..95 of small segments by AES-GCM | open smallgcm - | g60/0/% g60/%/1/1 h60/%/999 | 22 1 | #8
a change by 1 at 96..131 of small segments by AES-GCM | open smallgcm - | g60/0/% g60/%/1/1 h60/%/999 | 22 2 | #40
"#;
