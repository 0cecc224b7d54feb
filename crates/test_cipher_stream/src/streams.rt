//! The buffer over a core.

ghost use Rattle.cipher_stream.specs.ByteStream.{to_come};
ghost use Rattle.cipher_stream.specs.Keystream.{xored};
ghost use Rattle.std.specs.Prelude.{OnOk, ◌≡◌, ◌≤◌};

use crate::cores::{Constant, Mixed, Numbers};
use crate::rows;
use crate::rows::Row;
use cipher::{InOutBuf, KeyIvInit};
use cipher_stream::dev::stream::{TestVector, stream_cipher_test};
use cipher_stream::{
    OverflowError, StreamCipher, StreamCipherCoreWrapper, StreamCipherError, StreamCipherSeek,
};
use std::alloc::AllocError;

/// A key.
pub const KEY: [u8; 4] = [0, 1, 2, 3];

/// An initialization vector.
pub const IV: [u8; 4] = [4, 5, 6, 7];

/// The first bytes of the keystream.
pub const FIRST: [u8; 20] = [
    0xe8, 0x23, 0x93, 0x54, 0x3c, 0xc9, 0x60, 0x89, 0x30, 0x51, 0x16, 0x00, 0x3a, 0x41, 0x7a, 0xcc,
    0xd0, 0x73, 0x38, 0x4a,
];

// the keystream from place 500 on, and that xor the first bytes
const LATER: [u8; 20] = [
    0x83, 0x22, 0xdf, 0x3e, 0x00, 0xfe, 0x0b, 0x9a, 0xf4, 0x23, 0x13, 0x90, 0xe8, 0x20, 0x3d, 0x09,
    0x3b, 0x80, 0x0c, 0x8f,
];

const BOTH: [u8; 20] = [
    0x6b, 0x01, 0x4c, 0x6a, 0x3c, 0x37, 0x6b, 0x13, 0xc4, 0x72, 0x05, 0x90, 0xd2, 0x61, 0x47, 0xc5,
    0xeb, 0xf3, 0x34, 0xc5,
];

/// The buffer over a core with a counter.
pub(crate) type Cipher = StreamCipherCoreWrapper<Mixed, 16>;

type StreamResult = Result<(), StreamCipherError>;

/// One that has given nothing.
pub(crate) fn fresh() -> Cipher
    ensures next { result.0.next ≡ 0 }
    ensures rest { result.1 ≡ 0 }
{
    Cipher::new(&KEY, &IV)
}

// the first bytes, and with the bytes from place 500 on
fn written_and_applied() -> [[u8; 20]; 2] {
    let mut cipher = fresh();
    let mut bytes = [0; 20];
    cipher.write_keystream(&mut bytes);
    let first = bytes;
    cipher.seek(500u32);
    cipher.apply_keystream(&mut bytes);
    [first, bytes]
}

// what is answered, the bytes from place 500 on, and the place behind them
fn written_from_a_place() -> (
    StreamResult,
    StreamResult,
    [u8; 20],
    Result<u64, OverflowError>,
) {
    let mut cipher = fresh();
    let mut bytes = [0; 20];
    let sought = cipher.try_seek(500i32);
    let told = cipher.try_write_keystream(&mut bytes);
    (sought, told, bytes, cipher.try_current_pos::<u64>())
}

fn in_pieces<C: StreamCipher>(cipher: &mut C, bytes: &mut [u8], size: usize) -> StreamResult
    requires { 1 ≤ size }
{
    for piece in bytes.chunks_mut(size) {
        cipher.try_apply_keystream(piece)?;
    }
    Ok(())
}

// whether pieces of a size give what one call writes
fn pieces_give(size: usize, whole: &[u8; 300]) -> bool
    requires { 1 ≤ size }
{
    let mut cipher = fresh();
    let mut bytes = [0; 300];
    let told = in_pieces(&mut &mut cipher, &mut bytes, size);
    told == Ok(()) && bytes == *whole
}

// whether pieces of each size do
fn pieces_give_the_whole() -> bool {
    let (whole, told) = written_whole();
    let mut same = told == Ok(());
    for size in 1..50 {
        same = same && pieces_give(size, &whole);
    }
    same
}

fn written_whole() -> ([u8; 300], StreamResult) {
    let mut bytes = [0; 300];
    let told = fresh().try_write_keystream(&mut bytes);
    (bytes, told)
}

/// How twenty bytes are handed to a cipher.
#[derive(Clone, Copy)]
pub enum How {
    Elsewhere,
    ToABuffer,
    TriedOnABuffer,
    TriedOnUnequalLengths,
    Unchecked,
    UncheckedElsewhere,
    UncheckedByABuffer,
    UncheckedWritten,
}

// whether the call succeeds
fn goes(how: How, bytes: &mut [u8; 20]) -> bool {
    let mut cipher = fresh();
    match how {
        How::Elsewhere => {
            cipher.apply_keystream_b2b(&[0; 20], bytes);
            true
        }
        How::ToABuffer => {
            cipher.apply_keystream_inout(InOutBuf::from(bytes.as_mut_slice()));
            true
        }
        How::TriedOnABuffer => {
            let buffer = InOutBuf::from(bytes.as_mut_slice());
            cipher.try_apply_keystream_inout(buffer).is_ok()
        }
        How::TriedOnUnequalLengths => cipher.try_apply_keystream_b2b(&[0; 3], bytes).is_ok(),
        How::Unchecked => {
            cipher.unchecked_apply_keystream(bytes);
            true
        }
        How::UncheckedElsewhere => cipher.unchecked_apply_keystream_b2b(&BOTH, bytes).is_ok(),
        How::UncheckedByABuffer => {
            cipher.unchecked_apply_keystream_inout(InOutBuf::from(bytes.as_mut_slice()));
            true
        }
        How::UncheckedWritten => {
            cipher.unchecked_write_keystream(bytes);
            true
        }
    }
}

// whether these bytes become those by a call, which succeeds or is refused
fn becomes(how: How, from: &[u8; 20], to: &[u8; 20], told: bool) -> bool {
    let mut bytes = *from;
    goes(how, &mut bytes) == told && bytes == *to
}

// the place of the greatest block, from which no byte is given
const END: u128 = (1 << 68) - 16;

fn seek_fresh(place: u128) -> (StreamResult, Cipher) {
    let mut cipher = fresh();
    let told = cipher.try_seek(place);
    (told, cipher)
}

// one byte, no byte, and the place after both
fn tried_at_the_end() -> (
    StreamResult,
    StreamResult,
    Result<u128, OverflowError>,
    Result<u64, OverflowError>,
) {
    let (_, mut cipher) = seek_fresh(END);
    let one = cipher.try_apply_keystream(&mut [9]);
    let none = cipher.try_apply_keystream(&mut []);
    let place = cipher.try_current_pos::<u128>();
    (one, none, place, cipher.try_current_pos::<u64>())
}

// what seeks past the end and below 0 answer, and the place after them
fn sought_outside() -> ([StreamResult; 3], u128) {
    let mut cipher = fresh();
    let past = cipher.try_seek(END + 1);
    let far = cipher.try_seek(END + 16);
    let below = cipher.try_seek(-1);
    ([past, far, below], cipher.current_pos::<u128>())
}

// whether two bytes are refused, what one byte answers, and that byte xor 9
fn last_byte() -> (bool, StreamResult, u8) {
    let (_, mut cipher) = seek_fresh(END - 1);
    let mut byte = [9];
    let refused = cipher.check_remaining(2).is_err();
    let told = cipher.try_apply_keystream(&mut byte);
    (refused, told, byte[0])
}

// the keystream's last 20 bytes before the greatest block
const LAST: [u8; 20] = [
    0x3a, 0x1a, 0x6f, 0x17, 0x18, 0xdc, 0x6c, 0xab, 0xc3, 0x36, 0x9f, 0x76, 0x18, 0x75, 0x2c, 0xf0,
    0xe3, 0x7f, 0xb3, 0x3c,
];

// room bytes, at most 20, from as many before the end on: one more is refused and changes nothing, and none is left
fn gives_no_more(room: usize) -> bool {
    let room = room.min(20);
    let (told, mut cipher) = seek_fresh(END - room as u128);
    told == Ok(()) && ends_after(&mut cipher, room)
}

// the same of a cipher that is lent
fn ends_after(cipher: &mut Cipher, room: usize) -> bool
    requires { room ≤ 20 }
{
    let mut bytes = [0; 21];
    let refused = cipher.try_apply_keystream(&mut bytes[..room + 1]);
    let same = bytes == [0; 21] && cipher.try_current_pos::<u128>() == Ok(END - room as u128);
    let given = cipher.try_apply_keystream(&mut bytes[..room]);
    let left = cipher.check_remaining(1);
    [refused, given, left] == [Err(StreamCipherError), Ok(()), Err(StreamCipherError)]
        && same
        && bytes[..room] == LAST[20 - room..]
}

// that from each of the last 20 places, and at the greatest block
fn no_more_is_left() -> bool {
    let mut same = true;
    for room in 0..21 {
        same = same && gives_no_more(room);
    }
    same
}

const GREATEST: u64 = ((1 << 32) - 1) * 4;

type NumberCipher = StreamCipherCoreWrapper<Numbers, 4>;

// what a seek behind the greatest block answers, and one to it
fn at_the_greatest() -> ([StreamResult; 2], NumberCipher) {
    let mut cipher = NumberCipher::from_core(Numbers { next: 7 });
    let behind = cipher.try_seek(GREATEST + 1);
    let there = cipher.try_seek(GREATEST);
    ([behind, there], cipher)
}

// n bytes, at most 9, from the greatest block on, and the place behind them
fn bytes_behind(n: usize) -> (StreamResult, [u8; 9], Result<u128, OverflowError>) {
    let (_, mut cipher) = at_the_greatest();
    let mut bytes = [0; 9];
    let told = cipher.try_apply_keystream(&mut bytes[..n.min(9)]);
    (told, bytes, cipher.try_current_pos::<u128>())
}

// the place as an i32 after three bytes
fn place_behind_three() -> Result<i32, OverflowError> {
    let (_, mut cipher) = at_the_greatest();
    let _told = cipher.try_apply_keystream(&mut [0; 3]);
    cipher.try_current_pos::<i32>()
}

// nine bytes in two pieces, the second behind the rest of the greatest block
fn two_pieces_behind() -> (StreamResult, StreamResult, [u8; 9]) {
    let (_, mut cipher) = at_the_greatest();
    let mut bytes = [0; 9];
    let first = cipher.try_apply_keystream(&mut bytes[..3]);
    let second = cipher.try_apply_keystream(&mut bytes[3..]);
    (first, second, bytes)
}

// bytes in their places, over any cipher
fn in_place<C: StreamCipher>(cipher: &mut C, bytes: &mut [u8]) -> Result<(), StreamCipherError>
    ensures { OnOk result (bytes.new ≡ xored (to_come (C.stream cipher.old)) bytes.old) }
{
    cipher.try_apply_keystream(bytes)
}

/// Whether a clone after seven bytes goes on.
pub fn a_clone_goes_on() -> Result<bool, AllocError> {
    let mut cipher = fresh();
    let _told = cipher.try_apply_keystream(&mut [0; 7]);
    let mut other = cipher.clone()?;
    let mut bytes = [0; 13];
    let told = in_place(&mut other, &mut bytes);
    Ok(told == Ok(()) && bytes[..] == FIRST[7..])
}

type Short = StreamCipherCoreWrapper<Constant, 5>;

fn run_vector(vector: &TestVector) -> Result<(), &'static str> {
    stream_cipher_test::<Short, 1, 1>(vector)
}

const PLAIN: &[u8] = &[0, 1, 2, 3, 4, 5, 6, 7, 8, 9];

const GOOD: &[u8] = &[3, 2, 1, 0, 7, 6, 5, 4, 11, 10];

const BAD: &[u8] = &[3, 2, 1, 1, 7, 6, 5, 4, 11, 10];

/// What is asked.
pub enum Asked {
    Written,
    WrittenFromAPlace,
    Pieces,
    // Bytes that are handed to a fresh cipher, what they become, and whether that succeeds.
    Call(How, [u8; 20], [u8; 20], bool),
    FreshPlace,
    // A vector, and what is told.
    Vector(TestVector, Result<(), &'static str>),
    SoughtEnd,
    TriedAtTheEnd,
    SoughtOutside,
    LastByte,
    NoMoreIsLeft,
    SoughtBehindTheGreatest,
    // So many bytes from the greatest block on, and the place behind them.
    BehindTheGreatest(usize, [u8; 9], Result<u128, OverflowError>),
    PlaceBehindThree,
    TwoPiecesBehind,
}

/// Whether it is so.
pub fn holds(asked: &Asked) -> bool {
    match asked {
        Asked::Written => written_and_applied() == [FIRST, BOTH],
        Asked::WrittenFromAPlace => written_from_a_place() == (Ok(()), Ok(()), LATER, Ok(520)),
        Asked::Pieces => pieces_give_the_whole(),
        Asked::Call(how, from, to, told) => becomes(*how, from, to, *told),
        Asked::FreshPlace => fresh().get_core().next == 0,
        Asked::Vector(vector, want) => run_vector(vector) == *want,
        _ => holds_at_ends(asked),
    }
}

fn holds_at_ends(asked: &Asked) -> bool {
    let outside = Err(StreamCipherError);
    match asked {
        Asked::SoughtEnd => seek_fresh(END).0 == Ok(()),
        Asked::TriedAtTheEnd => {
            tried_at_the_end() == (outside, Ok(()), Ok(END), Err(OverflowError))
        }
        Asked::SoughtOutside => sought_outside() == ([outside; 3], 0),
        Asked::LastByte => last_byte() == (true, Ok(()), 9 ^ 60),
        Asked::NoMoreIsLeft => no_more_is_left(),
        Asked::SoughtBehindTheGreatest => at_the_greatest().0 == [outside, Ok(())],
        Asked::BehindTheGreatest(n, bytes, place) => bytes_behind(*n) == (Ok(()), *bytes, *place),
        Asked::PlaceBehindThree => place_behind_three() == Err(OverflowError),
        _ => two_pieces_behind() == (Ok(()), Ok(()), NINE),
    }
}

// the rest of the greatest block, with block 0 behind it
const NINE: [u8; 9] = [0xff, 0xfe, 0xfd, 0xfc, 0, 1, 2, 3, 1];

/// Rows of streams.
pub const ROWS: &[Row] = &[
    ("from the start", rows::Asked::Stream(Asked::Written)),
    (
        "from a place",
        rows::Asked::Stream(Asked::WrittenFromAPlace),
    ),
    ("in pieces of each size", rows::Asked::Stream(Asked::Pieces)),
    (
        "elsewhere",
        rows::Asked::Stream(Asked::Call(How::Elsewhere, [1; 20], FIRST, true)),
    ),
    (
        "to a buffer",
        rows::Asked::Stream(Asked::Call(How::ToABuffer, FIRST, [0; 20], true)),
    ),
    (
        "tried on a buffer",
        rows::Asked::Stream(Asked::Call(How::TriedOnABuffer, [0; 20], FIRST, true)),
    ),
    (
        "unequal lengths",
        rows::Asked::Stream(Asked::Call(How::TriedOnUnequalLengths, [1; 20], [1; 20], false)),
    ),
    (
        "in place without a test",
        rows::Asked::Stream(Asked::Call(How::Unchecked, [0; 20], FIRST, true)),
    ),
    (
        "elsewhere without a test",
        rows::Asked::Stream(Asked::Call(How::UncheckedElsewhere, [1; 20], LATER, true)),
    ),
    (
        "by a buffer without a test",
        rows::Asked::Stream(Asked::Call(How::UncheckedByABuffer, LATER, BOTH, true)),
    ),
    (
        "written without a test",
        rows::Asked::Stream(Asked::Call(How::UncheckedWritten, [1; 20], FIRST, true)),
    ),
    (
        "the place of a fresh core",
        rows::Asked::Stream(Asked::FreshPlace),
    ),
    (
        "a right vector",
        rows::Asked::Stream(Asked::Vector(
            TestVector {
                key: &[3],
                iv: &[2],
                plaintext: PLAIN,
                ciphertext: GOOD,
            },
            Ok(()),
        )),
    ),
    (
        "a vector past the end of the keystream",
        rows::Asked::Stream(Asked::Vector(
            TestVector {
                key: &[3],
                iv: &[1],
                plaintext: PLAIN,
                ciphertext: GOOD,
            },
            Err("end of keystream reached"),
        )),
    ),
    (
        "a vector that differs before the end",
        rows::Asked::Stream(Asked::Vector(
            TestVector {
                key: &[3],
                iv: &[1],
                plaintext: PLAIN,
                ciphertext: BAD,
            },
            Err("ciphertext mismatch"),
        )),
    ),
    (
        "a vector without a key",
        rows::Asked::Stream(Asked::Vector(
            TestVector {
                key: &[],
                iv: &[1],
                plaintext: PLAIN,
                ciphertext: BAD,
            },
            Err("cipher initialization failure"),
        )),
    ),
    (
        "a vector of two lengths",
        rows::Asked::Stream(Asked::Vector(
            TestVector {
                key: &[],
                iv: &[1],
                plaintext: &[],
                ciphertext: BAD,
            },
            Err("mismatch of plaintext and ciphertext lengths"),
        )),
    ),
    ("the end is sought", rows::Asked::Stream(Asked::SoughtEnd)),
    (
        "a byte and none at the end",
        rows::Asked::Stream(Asked::TriedAtTheEnd),
    ),
    (
        "seeks past the end and below 0",
        rows::Asked::Stream(Asked::SoughtOutside),
    ),
    ("the last byte", rows::Asked::Stream(Asked::LastByte)),
    (
        "no more from the last 20 places",
        rows::Asked::Stream(Asked::NoMoreIsLeft),
    ),
    (
        "a seek behind the greatest block",
        rows::Asked::Stream(Asked::SoughtBehindTheGreatest),
    ),
    (
        "three bytes from the greatest block",
        rows::Asked::Stream(Asked::BehindTheGreatest(
            3,
            [0xff, 0xfe, 0xfd, 0, 0, 0, 0, 0, 0],
            Err(OverflowError),
        )),
    ),
    (
        "the place behind three as an i32",
        rows::Asked::Stream(Asked::PlaceBehindThree),
    ),
    (
        "nine bytes from the greatest block",
        rows::Asked::Stream(Asked::BehindTheGreatest(9, NINE, Ok(5))),
    ),
    (
        "nine bytes in two pieces",
        rows::Asked::Stream(Asked::TwoPiecesBehind),
    ),
];
