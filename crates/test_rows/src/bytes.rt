//! Bytes and words by their text.

use std::alloc::{AllocError, Global};
use tink_io::{Kind, TinkError};

/// The templates of streams, and then the others, by their number.
const TEMPLATES: &[&str] = &[
    "AES128_CTR_HMAC_SHA256_4KB",
    "AES128_CTR_HMAC_SHA256_1MB",
    "AES256_CTR_HMAC_SHA256_4KB",
    "AES256_CTR_HMAC_SHA256_1MB",
    "AES128_GCM_HKDF_4KB",
    "AES128_GCM_HKDF_1MB",
    "AES256_GCM_HKDF_4KB",
    "AES256_GCM_HKDF_1MB",
    "HKDF_SHA256",
    "HMAC_SHA256_PRF",
    "HMAC_SHA512_PRF",
    "AES_CMAC_PRF",
    "HMAC_SHA256_128BITTAG",
    "HMAC_SHA256_256BITTAG",
    "HMAC_SHA512_256BITTAG",
    "HMAC_SHA512_512BITTAG",
    "AES_CMAC",
    "AES128_GCM",
    "AES256_GCM",
    "AES256_GCM_NO_PREFIX",
    "AES128_GCM_SIV",
    "AES256_GCM_SIV",
    "AES256_GCM_SIV_NO_PREFIX",
    "AES128_CTR_HMAC_SHA256",
    "AES256_CTR_HMAC_SHA256",
    "AES256_SIV",
];

/// Bytes that have a name.
#[derive(Drop)]
pub struct Named {
    pub name: String,
    pub bytes: Vec<u8>,
}

/// The number that a text spells, or 0.
pub fn number(text: &str) -> usize {
    text.parse::<usize>().unwrap_or(0)
}

/// The parts of a text before and behind a letter. Without the letter they are the whole text, and this one.
pub fn cut<'a>(text: &'a str, at: char, otherwise: &'a str) -> (&'a str, &'a str) {
    text.split_once(at).unwrap_or((text, otherwise))
}

/// The bytes that were last given a name.
pub fn bytes_named<'a>(kept: &'a [Named], name: &str) -> Option<&'a [u8]> {
    let mut found = None;
    for item in kept {
        if item.name.as_str() == name {
            found = Some(item.bytes.as_slice());
        }
    }
    found
}

/// The bytes of hexadecimal digits.
pub fn of_digits(alloc: Global, digits: &[u8]) -> Result<Vec<u8>, TinkError> {
    match hex::decode(alloc, digits) {
        Ok(bytes) => Ok(bytes),
        Err(_) => Err(TinkError::new(Kind::BadJson)),
    }
}

/// Puts the words of a text, apart by blanks: in place of a name the digits of its bytes, of `@n` a template, of `''`
/// no text and of `␣` a blank.
pub fn put_words(
    alloc: Global,
    kept: &[Named],
    text: &str,
    words: &mut Vec<String>,
) -> Result<(), TinkError> {
    if !text.is_empty() {
        for word in text.split(' ') {
            words.push(word_of(alloc, kept, word)?)?;
        }
    }
    Ok(())
}

fn word_of(alloc: Global, kept: &[Named], word: &str) -> Result<String, AllocError> {
    if let Some(bytes) = bytes_named(kept, word) {
        return hex::encode(alloc, bytes);
    }
    match word.strip_prefix('@') {
        Some(place) => String::from_str(alloc, template(number(place))),
        None if word == "''" => Ok(String::new(alloc)),
        None => word.replace(alloc, '␣', " "),
    }
}

fn template(place: usize) -> &'static str {
    match TEMPLATES.get(place) {
        Some(name) => name,
        None => "",
    }
}

/// Puts the bytes of a text: of `'` and letters these; else of terms apart by blanks.
pub fn put_bytes(
    alloc: Global,
    kept: &[Named],
    text: &str,
    bytes: &mut Vec<u8>,
) -> Result<(), TinkError> {
    if let Some(letters) = text.strip_prefix('\'') {
        return Ok(bytes.extend_from_slice(letters.as_bytes())?);
    }
    for term in text.split(' ') {
        put_term(alloc, kept, term, bytes)?;
    }
    Ok(())
}

// Puts the bytes of a term: of `#n` the counted text of n bytes; of a name or of hexadecimal digits these bytes, of which
// `/at/count/mask` takes so many from a place, each changed by a mask; a count of `-n` leaves out the last n.
fn put_term(
    alloc: Global,
    kept: &[Named],
    term: &str,
    bytes: &mut Vec<u8>,
) -> Result<(), TinkError> {
    if let Some(count) = term.strip_prefix('#') {
        return put_counted(bytes, number(count));
    }
    let (name, place) = cut(term, '/', "0/-0");
    match bytes_named(kept, name) {
        Some(whole) => put_part(bytes, whole, place),
        None => put_part(bytes, &of_digits(alloc, name.as_bytes())?, place),
    }
}

// Puts the part of bytes from a place.
fn put_part(bytes: &mut Vec<u8>, whole: &[u8], place: &str) -> Result<(), TinkError> {
    let (at, rest) = cut(place, '/', "");
    let (count, mask) = cut(rest, '/', "0");
    let at = number(at).min(whole.len());
    let end = at
        .saturating_add(count_of(count, whole.len()))
        .min(whole.len());
    put_masked(bytes, &whole[at..end], mask.parse::<u8>().unwrap_or(0))
}

fn count_of(count: &str, all: usize) -> usize {
    match count.strip_prefix('-') {
        Some(last) => all.saturating_sub(number(last)),
        None => number(count),
    }
}

fn put_masked(bytes: &mut Vec<u8>, part: &[u8], mask: u8) -> Result<(), TinkError> {
    for byte in part {
        bytes.push(*byte ^ mask)?;
    }
    Ok(())
}

/// A text whose bytes count up from 0 to 250, over and over.
pub fn put_counted(bytes: &mut Vec<u8>, count: usize) -> Result<(), TinkError> {
    let mut byte = 0u8;
    for _ in 0..count {
        bytes.push(byte)?;
        byte = if byte < 250 { byte + 1 } else { 0 };
    }
    Ok(())
}
