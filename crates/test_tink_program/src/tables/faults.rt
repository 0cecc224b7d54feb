//! Sources and sinks that fail at a call, and sinks with too little room. By a fault of the source whole segments were written behind the header, and never the last.

/// - Calls that fail in turn, by the bytes that move in each.
/// - Rooms, whatever the bytes that move in a call.
pub const TABLES: &str = r#"
ways:
the text | bytes | #10000 | 0 | length 10000 | keep=t10000
reads 1..3 of a seal | seal raw - zero | #10000 | 11 | begins s10000 24 4096 8192 | piece=5000 read=% room=20000
reads 4..4 of a seal | seal raw - zero | #10000 | 0 | s10000 | piece=5000 read=% room=20000
reads 1..4 of a seal | seal raw - zero | #10000 | 11 | begins s10000 24 4096 8192 | piece=4000 read=% room=20000
reads 5..5 of a seal | seal raw - zero | #10000 | 0 | s10000 | piece=4000 read=% room=20000
reads 1..2 of a seal | seal raw - zero | #10000 | 11 | begins s10000 24 4096 8192 | piece=35 read=% room=20000
reads 115..117 of a seal | seal raw - zero | #10000 | 11 | begins s10000 24 4096 8192 | piece=35 read=% room=20000
reads 286..287 of a seal | seal raw - zero | #10000 | 11 | begins s10000 24 4096 8192 | piece=35 read=% room=20000
reads 288..288 of a seal | seal raw - zero | #10000 | 0 | s10000 | piece=35 read=% room=20000
reads 1..2 of a seal | seal raw - zero | #10000 | 11 | begins s10000 24 4096 8192 | piece=1 read=% room=20000
reads 4040..4042 of a seal | seal raw - zero | #10000 | 11 | begins s10000 24 4096 8192 | piece=1 read=% room=20000
reads 8105..8106 of a seal | seal raw - zero | #10000 | 11 | begins s10000 24 4096 8192 | piece=1 read=% room=20000
reads 10000..10001 of a seal | seal raw - zero | #10000 | 11 | begins s10000 24 4096 8192 | piece=1 read=% room=20000
reads 10002..10002 of a seal | seal raw - zero | #10000 | 0 | s10000 | piece=1 read=% room=20000
writes 1..3 of a seal | seal raw - zero | #10000 | 12 | begins s10000 | piece=5000 write=% room=20000
writes 4..4 of a seal | seal raw - zero | #10000 | 0 | s10000 | piece=5000 write=% room=20000
writes 1..3 of a seal | seal raw - zero | #10000 | 12 | begins s10000 | piece=4000 write=% room=20000
writes 4..4 of a seal | seal raw - zero | #10000 | 0 | s10000 | piece=4000 write=% room=20000
writes 1..3 of a seal | seal raw - zero | #10000 | 12 | begins s10000 | piece=35 write=% room=20000
writes 118..120 of a seal | seal raw - zero | #10000 | 12 | begins s10000 | piece=35 write=% room=20000
writes 289..290 of a seal | seal raw - zero | #10000 | 12 | begins s10000 | piece=35 write=% room=20000
writes 291..291 of a seal | seal raw - zero | #10000 | 0 | s10000 | piece=35 write=% room=20000
writes 1..2 of a seal | seal raw - zero | #10000 | 12 | begins s10000 | piece=1 write=% room=20000
writes 24..26 of a seal | seal raw - zero | #10000 | 12 | begins s10000 | piece=1 write=% room=20000
writes 4096..4098 of a seal | seal raw - zero | #10000 | 12 | begins s10000 | piece=1 write=% room=20000
writes 10119..10120 of a seal | seal raw - zero | #10000 | 12 | begins s10000 | piece=1 write=% room=20000
writes 10121..10121 of a seal | seal raw - zero | #10000 | 0 | s10000 | piece=1 write=% room=20000
reads 1..5 of an open | open raw - | s10000 | 11 | begins t10000 0 4040 8104 | piece=5000 read=% room=20000
reads 6..6 of an open | open raw - | s10000 | 0 | t10000 | piece=5000 read=% room=20000
reads 1..7 of an open | open raw - | s10000 | 11 | begins t10000 0 4040 8104 | piece=4000 read=% room=20000
reads 8..8 of an open | open raw - | s10000 | 0 | t10000 | piece=4000 read=% room=20000
reads 1..2 of an open | open raw - | s10000 | 11 | begins t10000 0 4040 8104 | piece=35 read=% room=20000
reads 116..118 of an open | open raw - | s10000 | 11 | begins t10000 0 4040 8104 | piece=35 read=% room=20000
reads 292..293 of an open | open raw - | s10000 | 11 | begins t10000 0 4040 8104 | piece=35 read=% room=20000
reads 294..294 of an open | open raw - | s10000 | 0 | t10000 | piece=35 read=% room=20000
reads 1..2 of an open | open raw - | s10000 | 11 | begins t10000 0 4040 8104 | piece=1 read=% room=20000
reads 24..26 of an open | open raw - | s10000 | 11 | begins t10000 0 4040 8104 | piece=1 read=% room=20000
reads 4096..4098 of an open | open raw - | s10000 | 11 | begins t10000 0 4040 8104 | piece=1 read=% room=20000
reads 10120..10121 of an open | open raw - | s10000 | 11 | begins t10000 0 4040 8104 | piece=1 read=% room=20000
reads 10122..10122 of an open | open raw - | s10000 | 0 | t10000 | piece=1 read=% room=20000
writes 1..2 of an open | open raw - | s10000 | 12 | begins t10000 | piece=5000 write=% room=20000
writes 3..3 of an open | open raw - | s10000 | 0 | t10000 | piece=5000 write=% room=20000
writes 1..3 of an open | open raw - | s10000 | 12 | begins t10000 | piece=4000 write=% room=20000
writes 4..4 of an open | open raw - | s10000 | 0 | t10000 | piece=4000 write=% room=20000
writes 1..2 of an open | open raw - | s10000 | 12 | begins t10000 | piece=35 write=% room=20000
writes 115..117 of an open | open raw - | s10000 | 12 | begins t10000 | piece=35 write=% room=20000
writes 285..286 of an open | open raw - | s10000 | 12 | begins t10000 | piece=35 write=% room=20000
writes 287..287 of an open | open raw - | s10000 | 0 | t10000 | piece=35 write=% room=20000
writes 1..2 of an open | open raw - | s10000 | 12 | begins t10000 | piece=1 write=% room=20000
writes 4040..4042 of an open | open raw - | s10000 | 12 | begins t10000 | piece=1 write=% room=20000
writes 8105..8106 of an open | open raw - | s10000 | 12 | begins t10000 | piece=1 write=% room=20000
writes 9999..10000 of an open | open raw - | s10000 | 12 | begins t10000 | piece=1 write=% room=20000
writes 10001..10001 of an open | open raw - | s10000 | 0 | t10000 | piece=1 write=% room=20000

ways: | piece=1; | piece=35; | piece=4000; | piece=5000
room for 0..1 bytes of a seal | seal raw - zero | #10000 | 12 | begins s10000 % | room=%
room for 23..25 bytes of a seal | seal raw - zero | #10000 | 12 | begins s10000 % | room=%
room for 4040..4040 bytes of a seal | seal raw - zero | #10000 | 12 | begins s10000 % | room=%
room for 4095..4097 bytes of a seal | seal raw - zero | #10000 | 12 | begins s10000 % | room=%
room for 8192..8192 bytes of a seal | seal raw - zero | #10000 | 12 | begins s10000 % | room=%
room for 9999..9999 bytes of a seal | seal raw - zero | #10000 | 12 | begins s10000 % | room=%
room for all of a seal | seal raw - zero | #10000 | 0 | s10000 | room=10120
room for 0..1 bytes of an open | open raw - | s10000 | 12 | begins t10000 % | room=%
room for 23..25 bytes of an open | open raw - | s10000 | 12 | begins t10000 % | room=%
room for 4040..4040 bytes of an open | open raw - | s10000 | 12 | begins t10000 % | room=%
room for 4095..4097 bytes of an open | open raw - | s10000 | 12 | begins t10000 % | room=%
room for 8192..8192 bytes of an open | open raw - | s10000 | 12 | begins t10000 % | room=%
room for 9999..9999 bytes of an open | open raw - | s10000 | 12 | begins t10000 % | room=%
room for all of an open | open raw - | s10000 | 0 | t10000 | room=10000
a larger key is tried first | open bothkinds - | s12168 | 0 | #12168 | room=12168
"#;
