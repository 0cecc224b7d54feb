//! Damaged streams of three segments: each is refused by its kind, and what is read before is a prefix of the text.

use crate::streams::{encrypt_in_pieces, key_of, opens};
use std::alloc::Global;
use test_util::Verdict;
use tink_io::{Kind, TinkError};
use tink_proto::HashType;
use tink_streaming_keys::StreamKind;

const TEXT: &[u8; 36] = b"thirty-six bytes in three segments..";

// How many bytes of the text stand before each of the segments.
const BEFORE: [usize; 3] = [0, 1, 26];

// Where the header and each of the segments end in a stream, and the bytes of a tag.
struct Layout {
    ends: [usize; 4],
    tag: usize,
}

const IN_COUNTER_MODE: &Layout = &Layout {
    ends: [24, 35, 70, 90],
    tag: 10,
};

const BY_GCM: &Layout = &Layout {
    ends: [24, 41, 82, 108],
    tag: 16,
};

// The first place where two streams differ, or where one of them ends.
fn first_difference(a: &[u8], b: &[u8]) -> usize {
    let n = a.len().min(b.len());
    for place in 0..n {
        if a[place] != b[place] {
            return place;
        }
    }
    n
}

// The number of the segment in which a place lies, and where that segment begins. The header is taken for the first
// one.
fn segment_at(ends: &[usize; 4], place: usize) -> (u32, usize) {
    if place < ends[1] {
        (0, ends[0])
    } else if place < ends[2] {
        (1, ends[1])
    } else {
        (2, ends[2])
    }
}

// By what a damaged stream is to be refused: by the first segment that is damaged or missing, or by that at whose end a
// stream was cut.
fn wanted_kind(layout: &Layout, stream: &[u8], damaged: &[u8]) -> (Kind, u32) {
    let place = first_difference(stream, damaged);
    if place == 0 || damaged.len() < layout.ends[0] {
        return (Kind::NoMatchingKey, 0);
    }
    let seen = if place == damaged.len() {
        place - 1
    } else {
        place
    };
    let (number, begin) = segment_at(&layout.ends, seen);
    if damaged.len().saturating_sub(begin) < layout.tag {
        (Kind::Truncated(number), number)
    } else {
        (Kind::BadSegment(number), number)
    }
}

// A key with the layout of its streams, and two of its streams.
#[derive(Drop)]
struct Sample {
    key: StreamKind,
    layout: &'static Layout,
    stream: Vec<u8>,
    other: Vec<u8>,
}

fn sample_of(alloc: Global, in_counter_mode: bool) -> Result<Sample, TinkError> {
    let (segment, layout) = if in_counter_mode {
        (35, IN_COUNTER_MODE)
    } else {
        (41, BY_GCM)
    };
    let key = key_of(alloc, in_counter_mode, HashType::Sha256, segment)?;
    let stream = encrypt_in_pieces(alloc, &key, &[7; 23], TEXT, 36)?;
    let other = encrypt_in_pieces(alloc, &key, &[8; 23], TEXT, 36)?;
    Ok(Sample {
        key,
        layout,
        stream,
        other,
    })
}

// Whether a damaged stream is refused by its kind, behind the text of the segments before.
fn is_refused(alloc: Global, sample: &Sample, damaged: &[u8]) -> Result<bool, TinkError> {
    let (kind, number) = wanted_kind(sample.layout, &sample.stream, damaged);
    let before = BEFORE.get(number as usize).copied().unwrap_or(0);
    let text = TEXT.get(..before).unwrap_or(&[]);
    opens(alloc, &sample.key, damaged, &[], (text, Some(kind)))
}

// Whether the stream itself opens to the text, and has the length of its layout.
fn is_whole(alloc: Global, sample: &Sample) -> Result<bool, TinkError> {
    let is_long = sample.stream.len() == sample.layout.ends[3];
    Ok(opens(alloc, &sample.key, &sample.stream, &[], (TEXT, None))? && is_long)
}

// Whether the stream with any bit exchanged is refused. Each is then exchanged back.
fn refuses_flips(alloc: Global, sample: &Sample, damaged: &mut [u8]) -> Result<bool, TinkError> {
    for place in 0..8 * sample.layout.ends[3].min(200) {
        flip(damaged, place);
        if !is_refused(alloc, sample, damaged)? {
            return Ok(false);
        }
        flip(damaged, place);
    }
    Ok(true)
}

fn flip(bytes: &mut [u8], place: usize) {
    if let Some(byte) = bytes.get_mut(place / 8) {
        *byte ^= [1, 2, 4, 8, 16, 32, 64, 128][place % 8];
    }
}

// Whether the stream cut at any length is refused.
fn refuses_cuts(alloc: Global, sample: &Sample) -> Result<bool, TinkError> {
    for n in 0..sample.stream.len() {
        if !is_refused(alloc, sample, &sample.stream[..n])? {
            return Ok(false);
        }
    }
    Ok(true)
}

// Numbers of parts: 0 is the header and 1 to 3 are the segments of the stream, 4 to 7 those of the other one. In turn
// a part is repeated, exchanged with another and dropped, and the two streams are joined.
const ORDERS: &[&[usize]] = &[
    &[0, 0, 1, 2, 3],
    &[0, 1, 1, 2, 3],
    &[0, 1, 2, 2, 3],
    &[0, 1, 2, 3, 3],
    &[1, 0, 2, 3],
    &[0, 2, 1, 3],
    &[0, 3, 2, 1],
    &[0, 1, 3, 2],
    &[1, 2, 3],
    &[0, 2, 3],
    &[0, 1, 3],
    &[0, 1, 2],
    &[0, 1, 2, 3, 4, 5, 6, 7],
    &[0, 1, 2, 3, 5, 6, 7],
    &[0, 1, 2, 6, 7],
    &[0, 1, 2, 7],
    &[0, 1, 6, 3],
    &[0, 1, 6, 7],
    &[0, 5, 2, 3],
    &[0, 5, 6, 7],
    &[4, 1, 2, 3],
];

// A part of one of the two streams.
fn part_of(sample: &Sample, part: usize) -> &[u8] {
    let stream = if part < 4 {
        &sample.stream
    } else {
        &sample.other
    };
    let number = part % 4;
    let end = sample.layout.ends[number];
    let begin = if number == 0 {
        0
    } else {
        sample.layout.ends[number - 1]
    };
    stream.get(begin..end).unwrap_or(&[])
}

fn add_parts(parts: &mut Vec<u8>, sample: &Sample, order: &[usize]) -> Result<(), TinkError> {
    parts.clear();
    for part in order {
        parts.extend_from_slice(part_of(sample, *part))?;
    }
    Ok(())
}

// Whether the streams of parts in a wrong order are refused.
fn refuses_orders(alloc: Global, sample: &Sample, parts: &mut Vec<u8>) -> Result<bool, TinkError> {
    for order in ORDERS {
        add_parts(parts, sample, order)?;
        if !is_refused(alloc, sample, parts)? {
            return Ok(false);
        }
    }
    Ok(true)
}

// What is done to a stream.
#[derive(Clone, Copy)]
enum Damage {
    Nothing,
    Flips,
    Cuts,
    Orders,
}

// Whether the stream opens, or each of these damages is refused.
fn holds(alloc: Global, sample: &Sample, damage: Damage) -> Result<bool, TinkError> {
    let mut damaged = sample.stream.to_vec(alloc)?;
    match damage {
        Damage::Nothing => is_whole(alloc, sample),
        Damage::Flips => refuses_flips(alloc, sample, &mut damaged),
        Damage::Cuts => refuses_cuts(alloc, sample),
        Damage::Orders => refuses_orders(alloc, sample, &mut damaged),
    }
}

// In counter mode, or by GCM.
fn answer_row(alloc: Global, in_counter_mode: bool, damage: Damage) -> Result<bool, TinkError> {
    match sample_of(alloc, in_counter_mode) {
        Ok(sample) => holds(alloc, &sample, damage),
        Err(e) => Err(e),
    }
}

const ROWS: &[(&str, bool, Damage)] = &[
    ("whole, in counter mode", true, Damage::Nothing),
    ("flips, in counter mode", true, Damage::Flips),
    ("cuts, in counter mode", true, Damage::Cuts),
    ("orders, in counter mode", true, Damage::Orders),
    ("whole, by GCM", false, Damage::Nothing),
    ("flips, by GCM", false, Damage::Flips),
    ("cuts, by GCM", false, Damage::Cuts),
    ("orders, by GCM", false, Damage::Orders),
];

pub fn no_damage_passes(alloc: Global, verdict: &mut Verdict) {
    for (row, in_counter_mode, damage) in ROWS {
        verdict.expect(answer_row(alloc, *in_counter_mode, *damage), Ok(true), row);
    }
}
