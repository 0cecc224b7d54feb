//! Streams that are moved to another keyset.

/// - Moved, refused, and words that spell no such command.
/// - Streams of both kinds and of several sizes of segments, by the draws of the setting.
/// - How many draws a move takes, and the refusals that leave all of them.
/// - What is moved is the stream that a seal of its text makes.
/// - Streams that are cut or changed, and ends that fail. What was written ends in no last segment.
pub const TABLES: &str = r#"
ways:
a stream moved to another keyset | rewrap raw - gcm aabb zero | s4041 | 0 | length 4081 | keep=moved
what was moved | open gcm aabb | moved | 0 | #4041
what was moved, without the new data | open gcm - | moved | 21 |
a stream moved to its own keyset by its own seed | rewrap raw - raw - zero | s4041 | 0 | s4041
a longer stream moved | rewrap raw - gcm aabb zero | s12168 | 0 | any | keep=moved3
what was moved of it | open gcm aabb | moved3 | 0 | #12168
a cut stream | rewrap raw - gcm aabb zero | s4041/0/4097 | 23 1 | begins moved 24
its last byte changed | rewrap raw - gcm aabb zero | s12168/0/12287 s12168/12287/1/1 | 22 2 | begins moved3 4096
other data than the old | rewrap raw aabb gcm aabb zero | s4041 | 21 |
the keysets exchanged | rewrap gcm aabb raw - zero | s4041 | 21 |
no second keyset | rewrap raw - - aabb zero | s4041 | 14 |
the first keyset before the second | rewrap 08 - - aabb zero | s4041 | 13 |
the first two writes 1..2 of a move | rewrap raw - gcm aabb zero | s4041 | 12 | begins moved | piece=4000 write=% room=20000
no seed | rewrap raw - gcm aabb | | 2 |
one word more | rewrap raw - gcm aabb zero zero | | 2 |
data of no pairs | rewrap raw - gcm aab zero | | 2 |

ways: | draws=1024
0 bytes under raw | seal raw - | #0 | 0 | length 56 | left=1001 segments=1 bytes=0 keep=raw.0
1 bytes under raw | seal raw - | #1 | 0 | length 57 | left=1001 segments=1 bytes=1 keep=raw.1
60 bytes under raw | seal raw - | #60 | 0 | length 116 | left=1001 segments=1 bytes=60 keep=raw.60
4,041 bytes under raw | seal raw - | #4041 | 0 | length 4129 | left=1001 segments=2 bytes=4041 keep=raw.4041
0 bytes under gcm and aabb | seal gcm aabb | #0 | 0 | length 40 | left=1001 segments=1 bytes=0 keep=gcmaabb.0
1 bytes under gcm and aabb | seal gcm aabb | #1 | 0 | length 41 | left=1001 segments=1 bytes=1 keep=gcmaabb.1
60 bytes under gcm and aabb | seal gcm aabb | #60 | 0 | length 100 | left=1001 segments=1 bytes=60 keep=gcmaabb.60
4,041 bytes under gcm and aabb | seal gcm aabb | #4041 | 0 | length 4081 | left=1001 segments=1 bytes=4041 keep=gcmaabb.4041
0 bytes under small | seal small - | #0 | 0 | length 34 | left=1001 segments=1 bytes=0 keep=small.0
1 bytes under small | seal small - | #1 | 0 | length 35 | left=1001 segments=1 bytes=1 keep=small.1
60 bytes under small | seal small - | #60 | 0 | length 124 | left=1001 segments=4 bytes=60 keep=small.60
4,041 bytes under small | seal small - | #4041 | 0 | length 5695 | left=1001 segments=163 bytes=4041 keep=small.4041
0 bytes under gcm41 | seal gcm41 - | #0 | 0 | length 40 | left=1001 segments=1 bytes=0 keep=gcm41.0
1 bytes under gcm41 | seal gcm41 - | #1 | 0 | length 41 | left=1001 segments=1 bytes=1 keep=gcm41.1
60 bytes under gcm41 | seal gcm41 - | #60 | 0 | length 148 | left=1001 segments=4 bytes=60 keep=gcm41.60
4,041 bytes under gcm41 | seal gcm41 - | #4041 | 0 | length 6673 | left=1001 segments=163 bytes=4041 keep=gcm41.4041
0 bytes under gcm41 and 00 | seal gcm41 00 | #0 | 0 | length 40 | left=1001 segments=1 bytes=0 keep=gcm4100.0
1 bytes under gcm41 and 00 | seal gcm41 00 | #1 | 0 | length 41 | left=1001 segments=1 bytes=1 keep=gcm4100.1
60 bytes under gcm41 and 00 | seal gcm41 00 | #60 | 0 | length 148 | left=1001 segments=4 bytes=60 keep=gcm4100.60
4,041 bytes under gcm41 and 00 | seal gcm41 00 | #4041 | 0 | length 6673 | left=1001 segments=163 bytes=4041 keep=gcm4100.4041
0 bytes under small and 01 | seal small 01 | #0 | 0 | length 34 | left=1001 segments=1 bytes=0 keep=small01.0
1 bytes under small and 01 | seal small 01 | #1 | 0 | length 35 | left=1001 segments=1 bytes=1 keep=small01.1
60 bytes under small and 01 | seal small 01 | #60 | 0 | length 124 | left=1001 segments=4 bytes=60 keep=small01.60
4,041 bytes under small and 01 | seal small 01 | #4041 | 0 | length 5695 | left=1001 segments=163 bytes=4041 keep=small01.4041
0 bytes under small and ff | seal small ff | #0 | 0 | length 34 | left=1001 segments=1 bytes=0 keep=smallff.0
1 bytes under small and ff | seal small ff | #1 | 0 | length 35 | left=1001 segments=1 bytes=1 keep=smallff.1
60 bytes under small and ff | seal small ff | #60 | 0 | length 124 | left=1001 segments=4 bytes=60 keep=smallff.60
4,041 bytes under small and ff | seal small ff | #4041 | 0 | length 5695 | left=1001 segments=163 bytes=4041 keep=smallff.4041
0 bytes under ctr5000 and ff | seal ctr5000 ff | #0 | 0 | length 40 | left=1001 segments=1 bytes=0 keep=ctr5000ff.0
1 bytes under ctr5000 and ff | seal ctr5000 ff | #1 | 0 | length 41 | left=1001 segments=1 bytes=1 keep=ctr5000ff.1
60 bytes under ctr5000 and ff | seal ctr5000 ff | #60 | 0 | length 100 | left=1001 segments=1 bytes=60 keep=ctr5000ff.60
4,041 bytes under ctr5000 and ff | seal ctr5000 ff | #4041 | 0 | length 4081 | left=1001 segments=1 bytes=4041 keep=ctr5000ff.4041
0 bytes under ctr5000 | seal ctr5000 - | #0 | 0 | length 40 | left=1001 segments=1 bytes=0 keep=ctr5000.0
1 bytes under ctr5000 | seal ctr5000 - | #1 | 0 | length 41 | left=1001 segments=1 bytes=1 keep=ctr5000.1
60 bytes under ctr5000 | seal ctr5000 - | #60 | 0 | length 100 | left=1001 segments=1 bytes=60 keep=ctr5000.60
4,041 bytes under ctr5000 | seal ctr5000 - | #4041 | 0 | length 4081 | left=1001 segments=1 bytes=4041 keep=ctr5000.4041
0 bytes under gcmprefixed and aabb | seal gcmprefixed aabb | #0 | 0 | length 61 | left=985 segments=1 bytes=0 keep=gcmprefixedaabb.0
1 bytes under gcmprefixed and aabb | seal gcmprefixed aabb | #1 | 0 | length 62 | left=985 segments=1 bytes=1 keep=gcmprefixedaabb.1
60 bytes under gcmprefixed and aabb | seal gcmprefixed aabb | #60 | 0 | length 137 | left=985 segments=2 bytes=60 keep=gcmprefixedaabb.60
4,041 bytes under gcmprefixed and aabb | seal gcmprefixed aabb | #4041 | 0 | length 4870 | left=985 segments=49 bytes=4041 keep=gcmprefixedaabb.4041
0 bytes under gcmprefixed | seal gcmprefixed - | #0 | 0 | length 61 | left=985 segments=1 bytes=0 keep=gcmprefixed.0
1 bytes under gcmprefixed | seal gcmprefixed - | #1 | 0 | length 62 | left=985 segments=1 bytes=1 keep=gcmprefixed.1
60 bytes under gcmprefixed | seal gcmprefixed - | #60 | 0 | length 137 | left=985 segments=2 bytes=60 keep=gcmprefixed.60
4,041 bytes under gcmprefixed | seal gcmprefixed - | #4041 | 0 | length 4870 | left=985 segments=49 bytes=4041 keep=gcmprefixed.4041
0 bytes under gcmprefixed and 00 | seal gcmprefixed 00 | #0 | 0 | length 61 | left=985 segments=1 bytes=0 keep=gcmprefixed00.0
1 bytes under gcmprefixed and 00 | seal gcmprefixed 00 | #1 | 0 | length 62 | left=985 segments=1 bytes=1 keep=gcmprefixed00.1
60 bytes under gcmprefixed and 00 | seal gcmprefixed 00 | #60 | 0 | length 137 | left=985 segments=2 bytes=60 keep=gcmprefixed00.60
4,041 bytes under gcmprefixed and 00 | seal gcmprefixed 00 | #4041 | 0 | length 4870 | left=985 segments=49 bytes=4041 keep=gcmprefixed00.4041

ways:
too few draws | rewrap small - gcm41 - | small.1 | 255 random fault | | draws=22 left=22
draws for a salt and a prefix | rewrap small - gcm41 - | small.1 | 0 | length 41 | draws=23 left=0 segments=1 bytes=1
to no keyset | rewrap raw - - - | raw.4041 | 14 | | draws=1024 left=1024
to a keyset that is cut off | rewrap raw - 08 - | raw.4041 | 13 | | draws=1024 left=1024
to a keyset without keys | rewrap raw - 0801 - | raw.0 | 14 | | draws=1024 left=1024
the first keyset before the second | rewrap 08 - - - | | 13 | | draws=0 left=0
a stream of segments of 1, 25, 25 and 9 bytes of text, without its first byte | bytes | small.60/1/999 | 0 | length 123 | keep=small.rest

ways: | draws=1024
0 bytes from raw to gcm | rewrap raw - gcm aabb | raw.0 | 0 | gcmaabb.0 | left=1001 segments=1 bytes=0
1 bytes from raw to gcm | rewrap raw - gcm aabb | raw.1 | 0 | gcmaabb.1 | left=1001 segments=1 bytes=1
60 bytes from raw to gcm | rewrap raw - gcm aabb | raw.60 | 0 | gcmaabb.60 | left=1001 segments=1 bytes=60
4,041 bytes from raw to gcm | rewrap raw - gcm aabb | raw.4041 | 0 | gcmaabb.4041 | left=1001 segments=1 bytes=4041
0 bytes from gcm to raw | rewrap gcm aabb raw - | gcmaabb.0 | 0 | raw.0 | left=1001 segments=1 bytes=0
1 bytes from gcm to raw | rewrap gcm aabb raw - | gcmaabb.1 | 0 | raw.1 | left=1001 segments=1 bytes=1
60 bytes from gcm to raw | rewrap gcm aabb raw - | gcmaabb.60 | 0 | raw.60 | left=1001 segments=1 bytes=60
4,041 bytes from gcm to raw | rewrap gcm aabb raw - | gcmaabb.4041 | 0 | raw.4041 | left=1001 segments=2 bytes=4041
0 bytes from small to gcm41 | rewrap small - gcm41 - | small.0 | 0 | gcm41.0 | left=1001 segments=1 bytes=0
1 bytes from small to gcm41 | rewrap small - gcm41 - | small.1 | 0 | gcm41.1 | left=1001 segments=1 bytes=1
60 bytes from small to gcm41 | rewrap small - gcm41 - | small.60 | 0 | gcm41.60 | left=1001 segments=4 bytes=60
4,041 bytes from small to gcm41 | rewrap small - gcm41 - | small.4041 | 0 | gcm41.4041 | left=1001 segments=163 bytes=4041
0 bytes from gcm41 to small | rewrap gcm41 00 small 01 | gcm4100.0 | 0 | small01.0 | left=1001 segments=1 bytes=0
1 bytes from gcm41 to small | rewrap gcm41 00 small 01 | gcm4100.1 | 0 | small01.1 | left=1001 segments=1 bytes=1
60 bytes from gcm41 to small | rewrap gcm41 00 small 01 | gcm4100.60 | 0 | small01.60 | left=1001 segments=4 bytes=60
4,041 bytes from gcm41 to small | rewrap gcm41 00 small 01 | gcm4100.4041 | 0 | small01.4041 | left=1001 segments=163 bytes=4041
0 bytes from small to ctr5000 | rewrap small ff ctr5000 ff | smallff.0 | 0 | ctr5000ff.0 | left=1001 segments=1 bytes=0
1 bytes from small to ctr5000 | rewrap small ff ctr5000 ff | smallff.1 | 0 | ctr5000ff.1 | left=1001 segments=1 bytes=1
60 bytes from small to ctr5000 | rewrap small ff ctr5000 ff | smallff.60 | 0 | ctr5000ff.60 | left=1001 segments=1 bytes=60
4,041 bytes from small to ctr5000 | rewrap small ff ctr5000 ff | smallff.4041 | 0 | ctr5000ff.4041 | left=1001 segments=1 bytes=4041
0 bytes from ctr5000 to small | rewrap ctr5000 - small - | ctr5000.0 | 0 | small.0 | left=1001 segments=1 bytes=0
1 bytes from ctr5000 to small | rewrap ctr5000 - small - | ctr5000.1 | 0 | small.1 | left=1001 segments=1 bytes=1
60 bytes from ctr5000 to small | rewrap ctr5000 - small - | ctr5000.60 | 0 | small.60 | left=1001 segments=4 bytes=60
4,041 bytes from ctr5000 to small | rewrap ctr5000 - small - | ctr5000.4041 | 0 | small.4041 | left=1001 segments=163 bytes=4041
0 bytes from gcm41 to gcmprefixed | rewrap gcm41 - gcmprefixed aabb | gcm41.0 | 0 | gcmprefixedaabb.0 | left=985 segments=1 bytes=0
1 bytes from gcm41 to gcmprefixed | rewrap gcm41 - gcmprefixed aabb | gcm41.1 | 0 | gcmprefixedaabb.1 | left=985 segments=1 bytes=1
60 bytes from gcm41 to gcmprefixed | rewrap gcm41 - gcmprefixed aabb | gcm41.60 | 0 | gcmprefixedaabb.60 | left=985 segments=2 bytes=60
4,041 bytes from gcm41 to gcmprefixed | rewrap gcm41 - gcmprefixed aabb | gcm41.4041 | 0 | gcmprefixedaabb.4041 | left=985 segments=49 bytes=4041
0 bytes from gcmprefixed to gcm41 | rewrap gcmprefixed - gcm41 - | gcmprefixed.0 | 0 | gcm41.0 | left=1001 segments=1 bytes=0
1 bytes from gcmprefixed to gcm41 | rewrap gcmprefixed - gcm41 - | gcmprefixed.1 | 0 | gcm41.1 | left=1001 segments=1 bytes=1
60 bytes from gcmprefixed to gcm41 | rewrap gcmprefixed - gcm41 - | gcmprefixed.60 | 0 | gcm41.60 | left=1001 segments=4 bytes=60
4,041 bytes from gcmprefixed to gcm41 | rewrap gcmprefixed - gcm41 - | gcmprefixed.4041 | 0 | gcm41.4041 | left=1001 segments=163 bytes=4041
0 bytes from gcmprefixed to gcmprefixed | rewrap gcmprefixed - gcmprefixed 00 | gcmprefixed.0 | 0 | gcmprefixed00.0 | left=985 segments=1 bytes=0
1 bytes from gcmprefixed to gcmprefixed | rewrap gcmprefixed - gcmprefixed 00 | gcmprefixed.1 | 0 | gcmprefixed00.1 | left=985 segments=1 bytes=1
60 bytes from gcmprefixed to gcmprefixed | rewrap gcmprefixed - gcmprefixed 00 | gcmprefixed.60 | 0 | gcmprefixed00.60 | left=985 segments=2 bytes=60
4,041 bytes from gcmprefixed to gcmprefixed | rewrap gcmprefixed - gcmprefixed 00 | gcmprefixed.4041 | 0 | gcmprefixed00.4041 | left=985 segments=49 bytes=4041

ways: | draws=1024
the text that an empty last segment ends | seal gcm41 - | #26 | 0 | length 82 | left=1001 segments=2 bytes=26 keep=gcm41.26
an empty last segment is left out | rewrap small - gcm41 - | emptylast | 0 | gcm41.26 | left=1001 segments=2 bytes=26
three segments | seal raw - | #12168 | 0 | length 12288 | left=1001 segments=3 bytes=12168 keep=raw.12168
three segments under gcm and aabb | seal gcm aabb | #12168 | 0 | length 12240 | left=1001 segments=3 bytes=12168 keep=gcmaabb.12168
cut in the second segment | rewrap raw - gcm aabb | raw.4041/0/4097 | 23 1 | begins gcmaabb.4041 24 | left=1001
the last byte of the third segment | rewrap raw - gcm aabb | raw.12168/0/12287 raw.12168/12287/1/1 | 22 2 | begins gcmaabb.12168 4096 | left=1001
cut, to its own keyset | rewrap raw - raw - | raw.4041/0/4097 | 23 1 | begins raw.4041 24 | left=1001
the first byte of the third segment, to its own keyset | rewrap raw - raw - | raw.12168/0/8192 raw.12168/8192/1/1 raw.12168/8193/9999 | 22 2 | begins raw.12168 4096 | left=1001
the header alone | rewrap raw - gcm aabb | raw.4041/0/24 | 21 | | left=1001
no stream | rewrap raw - gcm aabb | | 21 | | left=1001
a byte of the salt | rewrap gcm aabb gcm aabb | gcmaabb.4041/0/1 gcmaabb.4041/1/1/1 gcmaabb.4041/2/9999 | 21 | | left=1001
to SHA-224 | rewrap raw - sha224 - | raw.4041 | 19 | | left=1001
to SHA-224, no stream | rewrap raw - sha224 - | | 19 | | left=1001
of no key, into a sink that would fail at once | rewrap small - gcm41 - | #60 | 21 | | left=1001 piece=7 write=1
a byte is changed, 0..34 | rewrap small - gcm41 - | small.60/0/% small.60/%/1/1 small.rest/%/999 | 21 | | left=1001
a byte is changed, 35..69 | rewrap small - gcm41 - | small.60/0/% small.60/%/1/1 small.rest/%/999 | 22 1 | begins gcm41.60 24 | left=1001
a byte is changed, 70..104 | rewrap small - gcm41 - | small.60/0/% small.60/%/1/1 small.rest/%/999 | 22 2 | begins gcm41.60 41 | left=1001
a byte is changed, 105..123 | rewrap small - gcm41 - | small.60/0/% small.60/%/1/1 small.rest/%/999 | 22 3 | begins gcm41.60 82 | left=1001
bytes are left, 0..35 | rewrap small - gcm41 - | small.60/0/% | 21 | | left=1001
bytes are left, 36..44 | rewrap small - gcm41 - | small.60/0/% | 23 1 | begins gcm41.60 24 | left=1001
bytes are left, 45..70 | rewrap small - gcm41 - | small.60/0/% | 22 1 | begins gcm41.60 24 | left=1001
bytes are left, 71..79 | rewrap small - gcm41 - | small.60/0/% | 23 2 | begins gcm41.60 41 | left=1001
bytes are left, 80..105 | rewrap small - gcm41 - | small.60/0/% | 22 2 | begins gcm41.60 41 | left=1001
bytes are left, 106..114 | rewrap small - gcm41 - | small.60/0/% | 23 3 | begins gcm41.60 82 | left=1001
bytes are left, 115..123 | rewrap small - gcm41 - | small.60/0/% | 22 3 | begins gcm41.60 82 | left=1001
reads 1..125 of a byte | rewrap small - gcm41 - | small.60 | 11 | begins gcm41.60 0 24 41 82 | left=1001 piece=1 read=%
no reads 126..200 of a byte | rewrap small - gcm41 - | small.60 | 0 | gcm41.60 | left=1001 segments=4 bytes=60 piece=1 read=%
reads 1..20 of seven bytes | rewrap small - gcm41 - | small.60 | 11 | begins gcm41.60 0 24 41 82 | left=1001 piece=7 read=%
no reads 21..200 of seven bytes | rewrap small - gcm41 - | small.60 | 0 | gcm41.60 | left=1001 segments=4 bytes=60 piece=7 read=%
reads 1..6 of a hundred bytes | rewrap small - gcm41 - | small.60 | 11 | begins gcm41.60 0 24 41 82 | left=1001 piece=100 read=%
no reads 7..200 of a hundred bytes | rewrap small - gcm41 - | small.60 | 0 | gcm41.60 | left=1001 segments=4 bytes=60 piece=100 read=%
writes 1..148 of a byte | rewrap small - gcm41 - | small.60 | 12 | begins gcm41.60 | left=1001 piece=1 write=%
no writes 149..200 of a byte | rewrap small - gcm41 - | small.60 | 0 | gcm41.60 | left=1001 segments=4 bytes=60 piece=1 write=%
writes 1..22 of seven bytes | rewrap small - gcm41 - | small.60 | 12 | begins gcm41.60 | left=1001 piece=7 write=%
no writes 23..200 of seven bytes | rewrap small - gcm41 - | small.60 | 0 | gcm41.60 | left=1001 segments=4 bytes=60 piece=7 write=%
writes 1..2 of a hundred bytes | rewrap small - gcm41 - | small.60 | 12 | begins gcm41.60 | left=1001 piece=100 write=%
no writes 3..200 of a hundred bytes | rewrap small - gcm41 - | small.60 | 0 | gcm41.60 | left=1001 segments=4 bytes=60 piece=100 write=%
"#;
