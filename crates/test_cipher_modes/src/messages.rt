//! Paddings, and messages that are padded.

use crate::chained::{decrypter, encrypter};
use crate::rows;
use crate::rows::Row;
use cipher::{InOutBuf, InOutBufReserved};
use cipher_modes::{
    BlockModeDecrypt, BlockModeEncrypt, NoPadding, PadError, PaddedVecError, Padding, Pkcs7,
    ZeroPadding,
};
use std::alloc::Global;

const MADE: [u8; 8] = [2, 3, 4, 5, 7, 8, 1, 2];

const PADDED: [u8; 9] = [1, 2, 3, 4, 4, 4, 4, 4, 9];

// whether the answer is these bytes
fn gives<E: Drop>(answer: Result<&[u8], E>, want: &[u8]) -> bool {
    match answer {
        Ok(bytes) => bytes == want,
        Err(_) => false,
    }
}

// whether a buffer of nines whose first `len` are padded becomes this, and the answer is that
fn pads<P: Padding>(len: usize, made: &[u8; 10], want: Result<usize, PadError>) -> bool {
    let mut buffer = [9; 10];
    let told = P::pad(&mut buffer, len, 4);
    told == want && buffer == *made
}

const TEXT: &[u8] = &[1, 2, 3, 4];

/// How a message goes.
#[derive(Clone, Copy)]
pub enum How {
    InPlace,
    Elsewhere,
    // There with room behind it, or back by places.
    ByPlaces,
    // A part of a block without padding.
    Part,
}

// whether a message that is encrypted in, or to, a buffer gives the blocks, or is refused
fn encrypts(how: How, buffer: &mut [u8; 9]) -> bool {
    match how {
        How::InPlace => gives(encrypter().encrypt_padded::<Pkcs7>(buffer, 4), &MADE),
        How::Elsewhere => gives(encrypter().encrypt_padded_b2b::<Pkcs7>(TEXT, buffer), &MADE),
        How::ByPlaces => match InOutBufReserved::from_mut_slice(buffer, 4) {
            Ok(message) => gives(encrypter().encrypt_padded_inout::<Pkcs7>(message), &MADE),
            Err(_) => false,
        },
        How::Part => encrypter()
            .encrypt_padded_b2b::<NoPadding>(&[1, 2, 3, 4, 5], buffer)
            .is_err(),
    }
}

// whether the blocks that are decrypted in the front of a buffer, or to it, give the message
fn decrypts(how: How, buffer: &mut [u8; 9]) -> bool {
    match how {
        How::InPlace => gives(decrypter().decrypt_padded::<Pkcs7>(&mut buffer[..8]), TEXT),
        How::Elsewhere => gives(decrypter().decrypt_padded_b2b::<Pkcs7>(&MADE, buffer), TEXT),
        _ => gives(
            decrypter().decrypt_padded_inout::<Pkcs7>(InOutBuf::from(&mut buffer[..8])),
            TEXT,
        ),
    }
}

/// What a length is told of: a message elsewhere that is encrypted in the first bytes of a buffer, a message that has all
/// of them, the blocks that are deciphered into them, and they themselves deciphered.
#[derive(Clone, Copy)]
pub enum By {
    There,
    WithoutRoom,
    Into,
    InPlace,
}

// the length, if any, where the first n bytes are taken
fn length_by(by: By, n: usize, buffer: &mut [u8; 9]) -> Option<usize> {
    let bytes = &mut buffer[..n.min(9)];
    match by {
        By::There => match InOutBufReserved::from_slices(TEXT, bytes) {
            Ok(message) => encrypter().encrypt_padded_len::<Pkcs7>(message).ok(),
            Err(_) => Some(0),
        },
        By::WithoutRoom => match InOutBufReserved::from_mut_slice(bytes, n) {
            Ok(message) => encrypter().encrypt_padded_len::<Pkcs7>(message).ok(),
            Err(_) => Some(0),
        },
        By::Into => decrypter()
            .decrypt_padded_b2b_len::<Pkcs7>(&MADE, bytes)
            .ok(),
        By::InPlace => decrypter()
            .decrypt_padded_len::<Pkcs7>(InOutBuf::from(bytes))
            .ok(),
    }
}

// whether this is the length, and the buffer becomes that
fn has_length(by: By, n: usize, from: &[u8; 9], to: &[u8; 9], want: Option<usize>) -> bool {
    let mut buffer = *from;
    length_by(by, n, &mut buffer) == want && buffer == *to
}

// whether the vector is these bytes
fn holds_bytes(made: Result<Vec<u8>, PaddedVecError>, want: &[u8]) -> bool {
    match made {
        Ok(bytes) => bytes.as_slice() == want,
        Err(_) => false,
    }
}

/// What is asked.
pub enum Asked {
    // A padding of the first so many of nines, what they become, and the answer.
    Pkcs7(usize, [u8; 10], Result<usize, PadError>),
    Zeros(usize, [u8; 10], Result<usize, PadError>),
    NoPadding(usize, [u8; 10], Result<usize, PadError>),
    PaddedLength,
    NoBytes,
    FoursOff,
    ZerosOff,
    // A message that goes there or back by a buffer of these bytes.
    There(How, [u8; 9]),
    Back(How, [u8; 9]),
    // A length, if any, of so many of the first bytes of a buffer, which becomes another.
    Length(By, usize, [u8; 9], [u8; 9], Option<usize>),
    // Vectors there, back, and refused.
    VectorThere,
    VectorBack,
    VectorOfFive,
    VectorOfSeven,
}

/// Whether it is so.
pub fn holds(alloc: Global, asked: &Asked) -> bool {
    match asked {
        Asked::Pkcs7(len, made, want) => pads::<Pkcs7>(*len, made, *want),
        Asked::Zeros(len, made, want) => pads::<ZeroPadding>(*len, made, *want),
        Asked::NoPadding(len, made, want) => pads::<NoPadding>(*len, made, *want),
        Asked::PaddedLength => Pkcs7::padded_len(4, 4) == Some(8),
        Asked::NoBytes => Pkcs7::unpad(&[], 4).is_err(),
        Asked::FoursOff => gives(Pkcs7::unpad(&[4; 8], 4), &[4; 4]),
        Asked::ZerosOff => gives(ZeroPadding::unpad(ZEROS, 4), &ZEROS[..5]),
        Asked::There(how, bytes) => {
            let mut buffer = *bytes;
            encrypts(*how, &mut buffer)
        }
        Asked::Back(how, bytes) => {
            let mut buffer = *bytes;
            decrypts(*how, &mut buffer)
        }
        Asked::Length(by, n, from, to, want) => has_length(*by, *n, from, to, *want),
        _ => vector_holds(alloc, asked),
    }
}

const ZEROS: &[u8; 8] = &[0, 0, 0, 0, 5, 0, 0, 0];

fn vector_holds(alloc: Global, asked: &Asked) -> bool {
    match asked {
        Asked::VectorThere => holds_bytes(
            encrypter().encrypt_padded_vec::<Pkcs7>(alloc, TEXT),
            &MADE,
        ),
        Asked::VectorBack => holds_bytes(
            decrypter().decrypt_padded_vec::<Pkcs7>(alloc, &MADE),
            TEXT,
        ),
        Asked::VectorOfFive => {
            let made = encrypter().encrypt_padded_vec::<NoPadding>(alloc, &[1, 2, 3, 4, 5]);
            made.err() == Some(PaddedVecError::Pad)
        }
        _ => {
            let made = decrypter().decrypt_padded_vec::<Pkcs7>(alloc, &MADE[..7]);
            made.err() == Some(PaddedVecError::Unpad)
        }
    }
}

const IN_FRONT: [u8; 9] = [1, 2, 3, 4, 0, 0, 0, 0, 9];

const DIGITS: [u8; 9] = [1, 2, 3, 4, 5, 6, 7, 8, 9];

// the ciphertext with another last byte
const BAD: [u8; 9] = [2, 3, 4, 5, 7, 8, 1, 3, 9];

const MADE_IN_FRONT: [u8; 9] = [2, 3, 4, 5, 7, 8, 1, 2, 9];

/// Rows of messages.
pub const ROWS: &[Row] = &[
    Row(
        "PKCS #7 of 4",
        rows::Asked::Message(Asked::Pkcs7(4, [9, 9, 9, 9, 4, 4, 4, 4, 9, 9], Ok(8))),
    ),
    Row(
        "PKCS #7 of 0",
        rows::Asked::Message(Asked::Pkcs7(0, [4, 4, 4, 4, 9, 9, 9, 9, 9, 9], Ok(4))),
    ),
    Row(
        "zeros of 4",
        rows::Asked::Message(Asked::Zeros(4, [9; 10], Ok(4))),
    ),
    Row(
        "no padding of 5",
        rows::Asked::Message(Asked::NoPadding(5, [9; 10], Err(PadError))),
    ),
    Row(
        "the length of PKCS #7",
        rows::Asked::Message(Asked::PaddedLength),
    ),
    Row("no bytes come off", rows::Asked::Message(Asked::NoBytes)),
    Row("PKCS #7 comes off", rows::Asked::Message(Asked::FoursOff)),
    Row("zeros come off", rows::Asked::Message(Asked::ZerosOff)),
    Row(
        "there in place",
        rows::Asked::Message(Asked::There(How::InPlace, IN_FRONT)),
    ),
    Row(
        "there elsewhere",
        rows::Asked::Message(Asked::There(How::Elsewhere, [0; 9])),
    ),
    Row(
        "there with room",
        rows::Asked::Message(Asked::There(How::ByPlaces, IN_FRONT)),
    ),
    Row(
        "five bytes without padding",
        rows::Asked::Message(Asked::There(How::Part, [0; 9])),
    ),
    Row(
        "back in place",
        rows::Asked::Message(Asked::Back(How::InPlace, MADE_IN_FRONT)),
    ),
    Row(
        "back elsewhere",
        rows::Asked::Message(Asked::Back(How::Elsewhere, [0; 9])),
    ),
    Row(
        "back by places",
        rows::Asked::Message(Asked::Back(How::ByPlaces, MADE_IN_FRONT)),
    ),
    Row(
        "an encrypted length",
        rows::Asked::Message(Asked::Length(By::There, 9, [9; 9], MADE_IN_FRONT, Some(8))),
    ),
    Row(
        "without room",
        rows::Asked::Message(Asked::Length(By::WithoutRoom, 8, DIGITS, DIGITS, None)),
    ),
    Row(
        "a decrypted length elsewhere",
        rows::Asked::Message(Asked::Length(By::Into, 8, [9; 9], PADDED, Some(4))),
    ),
    Row(
        "too short a place",
        rows::Asked::Message(Asked::Length(By::Into, 7, [9; 9], [9; 9], None)),
    ),
    Row(
        "a decrypted length in place",
        rows::Asked::Message(Asked::Length(By::InPlace, 8, MADE_IN_FRONT, PADDED, Some(4))),
    ),
    Row(
        "a malformed padding",
        rows::Asked::Message(Asked::Length(By::InPlace, 8, BAD, [1, 2, 3, 4, 4, 4, 4, 7, 9], None)),
    ),
    Row(
        "a part of a block",
        rows::Asked::Message(Asked::Length(By::InPlace, 7, BAD, BAD, None)),
    ),
    Row("a vector there", rows::Asked::Message(Asked::VectorThere)),
    Row("a vector back", rows::Asked::Message(Asked::VectorBack)),
    Row(
        "a vector of five bytes without padding",
        rows::Asked::Message(Asked::VectorOfFive),
    ),
    Row(
        "a vector of seven bytes back",
        rows::Asked::Message(Asked::VectorOfSeven),
    ),
];
