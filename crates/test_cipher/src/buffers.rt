//! Buffers.

use crate::rows;
use crate::rows::Row;
use cipher::{InOut, InOutBuf, InOutBufReserved};

// what a buffer reads, and what it writes, xor ones
fn read_and_xor() -> ([u8; 5], [u8; 5]) {
    let mut output = [0; 5];
    let mut read = [0; 5];
    let mut buffer = InOutBuf::new(&[1, 2, 3, 4, 5], &mut output).unwrap();
    buffer.xor_in2out(&[1; 5]);
    read.copy_from_slice(buffer.get_in());
    (read, output)
}

// whether another length, and a message that does not fit, are refused
fn refuses(asked: Asked, output: &mut [u8; 5]) -> bool {
    match asked {
        Asked::Unequal => InOutBuf::new(&[1, 2], output).is_err(),
        Asked::TooLongInFront => InOutBufReserved::from_mut_slice(output, 6).is_err(),
        _ => InOutBufReserved::from_slices(&[7; 6], output).is_err(),
    }
}

// whether they are, and the output is left as it was
fn refuses_and_keeps(asked: Asked) -> bool {
    let mut output = [1, 2, 3, 4, 5];
    refuses(asked, &mut output) && output == [1, 2, 3, 4, 5]
}

// the lengths of the parts before and behind the third place, and whether the second is empty
fn split() -> (usize, usize, bool) {
    let mut output = [0; 5];
    let buffer = InOutBuf::new(&[1, 2, 3, 4, 5], &mut output).unwrap();
    let (front, back) = buffer.split_at(3);
    (front.len(), back.len(), back.is_empty())
}

// the pair and the rest that are read in three places
fn chunks() -> ([u8; 2], u8) {
    let mut output = [0; 3];
    let buffer = InOutBuf::new(&[1, 2, 3], &mut output).unwrap();
    let (chunks, rest) = buffer.into_chunks::<2>();
    (chunks.get_in()[0], rest.get_in()[0])
}

// what a place reads, what it holds and what its second part reads
fn one_place() -> ([u8; 2], [u8; 2], u8) {
    let input = [1, 2];
    let mut output = [8, 9];
    let mut place = InOut::new(&input, &mut output);
    place.xor_in2out(&[1, 1]);
    let held = *place.get_out();
    let read = *place.reborrow().get_in();
    let part = *place.get(1).get_in();
    (read, held, part)
}

// what is read again after a part of a place was written
fn written_in_part() -> [u8; 2] {
    let mut output = [0, 3];
    let mut place = InOut::from(&mut output);
    *place.get(1).get_out() = 5;
    *place.get_in()
}

// two places written one by one, with what the second held
fn written_singly() -> ([u8; 2], u8) {
    let mut output = [0, 5];
    let read = *InOutBuf::from(&mut output[..]).get(1).get_in();
    *InOutBuf::from(&mut output[..]).get(0).get_out() = 4;
    InOutBuf::from(&mut output[..]).reborrow().get_out()[1] = 6;
    (output, read)
}

// the length of a message in front, whether it is empty, what is read, and what stands behind after a write
fn message_in_front() -> (usize, bool, [u8; 2], [u8; 3]) {
    let mut output = [1, 2, 3];
    let mut read = [0; 2];
    let mut buffer = InOutBufReserved::from_mut_slice(&mut output, 2).unwrap();
    let (len, empty) = (buffer.len(), buffer.is_empty());
    read.copy_from_slice(buffer.get_in());
    buffer.get_out()[2] = 9;
    (len, empty, read, output)
}

// what is read of a message elsewhere, and what the output holds
fn message_elsewhere() -> ([u8; 1], [u8; 3]) {
    let mut output = [1, 2, 9];
    let mut read = [0; 1];
    let buffer = InOutBufReserved::from_slices(&[7], &mut output).unwrap();
    read.copy_from_slice(buffer.get_in());
    (read, output)
}

const SEVEN: &[u8] = &[7];

const ONE: &[u8] = &[1];

const TWO_THREE: &[u8] = &[2, 3];

// of a message of three in front of five places that is parted behind its first place: the lengths of both parts and of
// the room of the second, whether they are read, and the places, of which the first part has the first and the room the
// last
fn parted_message() -> ([usize; 3], bool, bool, [u8; 5]) {
    let mut output = [1, 2, 3, 4, 5];
    let buffer = InOutBufReserved::from_mut_slice(&mut output, 3).unwrap();
    let (mut front, mut back) = buffer.split_at(1);
    let first = front.get_in() == ONE;
    let others = back.get_in() == TWO_THREE;
    front.get_out()[0] = 7;
    back.get_out()[3] = 9;
    let lengths = [front.len(), back.len(), back.get_out().len()];
    (lengths, first, others, output)
}

// whether a message of three elsewhere has one pair and a rest
fn chunks_of_a_message() -> bool {
    let mut output = [0; 5];
    let buffer = InOutBufReserved::from_slices(&[1, 2, 3], &mut output).unwrap();
    let (chunks, rest) = buffer.into_chunks::<2>();
    let pair = chunks.get_in() == PAIR;
    pair && rest.get_in() == THREE
}

const PAIR: &[[u8; 2]] = &[[1, 2]];

const THREE: &[u8] = &[3];

// whether a message that is lent for a while is read and written
fn lends_a_message() -> bool {
    let mut output = [0; 2];
    let mut buffer = InOutBufReserved::from_slices(SEVEN, &mut output).unwrap();
    let mut lent = buffer.reborrow();
    lent.get_out()[1] = 6;
    let read = lent.len() == 1 && lent.get_in() == SEVEN;
    read && output == [0, 6]
}

// writes to some of five places: the first and the last through two parts, a pair and the rest, the third, or a pair and
// the rest of a message of three
fn write(asked: Asked, output: &mut [u8; 5]) {
    match asked {
        Asked::Parts => {
            let (mut front, mut back) = InOutBuf::from(&mut output[..]).split_at(2);
            front.get_out()[0] = 7;
            back.get_out()[2] = 9;
        }
        Asked::Pair => {
            let (mut chunks, mut rest) = InOutBuf::from(&mut output[..]).into_chunks::<2>();
            chunks.get_out()[1] = [6, 7];
            rest.get_out()[0] = 9;
        }
        Asked::Middle => *InOutBuf::from(&mut output[..]).get(2).get_out() = 9,
        _ => {
            let buffer = InOutBufReserved::from_mut_slice(output, 3).unwrap();
            let (mut chunks, mut rest) = buffer.into_chunks::<2>();
            chunks.get_out()[0] = [6, 7];
            rest.get_out()[0] = 9;
        }
    }
}

// what five places are then
fn output_of(asked: Asked) -> [u8; 5] {
    let mut output = [1, 2, 3, 4, 5];
    write(asked, &mut output);
    output
}

/// What is asked.
#[derive(Clone, Copy)]
pub enum Asked {
    Unequal,
    Xor,
    Lengths,
    Chunks,
    OnePlace,
    APart,
    TwoPlaces,
    Empty,
    BehindItsFirst,
    Pairs,
    Lent,
    TooLongInFront,
    TooLongElsewhere,
    InFront,
    Elsewhere,
    Parts,
    Pair,
    Middle,
    MessagePair,
}

/// Whether it is so.
pub fn holds(asked: Asked) -> bool {
    match asked {
        Asked::Unequal | Asked::TooLongInFront | Asked::TooLongElsewhere => {
            refuses_and_keeps(asked)
        }
        Asked::Xor => read_and_xor() == ([1, 2, 3, 4, 5], [0, 3, 2, 5, 4]),
        Asked::Lengths => split() == (3, 2, false),
        Asked::Chunks => chunks() == ([1, 2], 3),
        Asked::OnePlace => one_place() == ([1, 2], [0, 3], 2),
        Asked::APart => written_in_part() == [0, 5],
        Asked::TwoPlaces => written_singly() == ([4, 6], 5),
        Asked::Empty => !InOutBuf::from(&mut [0; 2][..]).is_empty(),
        Asked::BehindItsFirst => parted_message() == ([1, 2, 4], true, true, [7, 2, 3, 4, 9]),
        Asked::Pairs => chunks_of_a_message(),
        Asked::Lent => lends_a_message(),
        Asked::InFront => message_in_front() == (2, false, [1, 2], [1, 2, 9]),
        Asked::Elsewhere => message_elsewhere() == ([7], [1, 2, 9]),
        Asked::Parts => output_of(asked) == [7, 2, 3, 4, 9],
        Asked::Pair => output_of(asked) == [1, 2, 6, 7, 9],
        Asked::Middle => output_of(asked) == [1, 2, 9, 4, 5],
        Asked::MessagePair => output_of(asked) == [6, 7, 9, 4, 5],
    }
}

/// Rows of buffers.
pub const ROWS: &[Row] = &[
    Row("unequal lengths", rows::Asked::Buffer(Asked::Unequal)),
    Row("xor", rows::Asked::Buffer(Asked::Xor)),
    Row("the lengths of parts", rows::Asked::Buffer(Asked::Lengths)),
    Row("chunks", rows::Asked::Buffer(Asked::Chunks)),
    Row("one place", rows::Asked::Buffer(Asked::OnePlace)),
    Row("a part of a place", rows::Asked::Buffer(Asked::APart)),
    Row("two places", rows::Asked::Buffer(Asked::TwoPlaces)),
    Row(
        "two places are not empty",
        rows::Asked::Buffer(Asked::Empty),
    ),
    Row(
        "a message behind its first place",
        rows::Asked::Buffer(Asked::BehindItsFirst),
    ),
    Row("pairs of a message", rows::Asked::Buffer(Asked::Pairs)),
    Row("a message that is lent", rows::Asked::Buffer(Asked::Lent)),
    Row(
        "too long in front",
        rows::Asked::Buffer(Asked::TooLongInFront),
    ),
    Row(
        "too long elsewhere",
        rows::Asked::Buffer(Asked::TooLongElsewhere),
    ),
    Row("a message in front", rows::Asked::Buffer(Asked::InFront)),
    Row("a message elsewhere", rows::Asked::Buffer(Asked::Elsewhere)),
    Row("writes in two parts", rows::Asked::Buffer(Asked::Parts)),
    Row("a write of a pair", rows::Asked::Buffer(Asked::Pair)),
    Row("a write between others", rows::Asked::Buffer(Asked::Middle)),
    Row(
        "a write of a message's pair",
        rows::Asked::Buffer(Asked::MessagePair),
    ),
];
