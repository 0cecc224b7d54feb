//! Paddings, which fill a message up to whole blocks.

ghost use Rattle.std.specs.Prelude.{◌≡◌, ◌↔◌, ◌≢◌, ℕ, ◌+◌, ◌-◌, ◌*◌, ◌%◌, ◌^◌, ◌<◌, ◌≤◌, ◌++◌, List, Some, None, Option, IsOk, IfOk, OnErr, MatchResult, MatchOption, length, take, drop, replicate, ⊤, ◌==◌};
ghost use Rattle.std.specs.List.{list_all};
ghost use Rattle.cipher_modes.specs.Paddings.{Fits, IsPadded, EndsInNoZero, missing, pkcs7_padding, zero_padding, no_padding, pkcs7_unpadded, zero_unpadded, no_unpadded, without_zeros};

use std::fmt;

/// A message that cannot be padded: the room is short, or it isn't whole blocks and nothing may be added.
#[derive(Clone, Copy, Debug, PartialEq, Eq)]
pub struct PadError;

impl fmt::Display for PadError {
    ghost use Rattle.std.specs.Prelude.{Some, codes};

    ghost output = { λ _. Some (codes "Padding error") };

    fn fmt<W: fmt::Write>(&self, f: &mut fmt::Formatter<W>) -> fmt::Result {
        f.write_str("Padding error")
    }
}

impl std::error::Error for PadError {}

/// Bytes that are no padded message.
#[derive(Clone, Copy, Debug, PartialEq, Eq)]
pub struct UnpadError;

impl fmt::Display for UnpadError {
    ghost use Rattle.std.specs.Prelude.{Some, codes};

    ghost output = { λ _. Some (codes "Unpadding error") };

    fn fmt<W: fmt::Write>(&self, f: &mut fmt::Formatter<W>) -> fmt::Result {
        f.write_str("Unpadding error")
    }
}

impl std::error::Error for UnpadError {}

/// A way to fill a message up to whole blocks of `block_size` bytes, which is from 1 to 255, and to find it again.
pub trait Padding {
    // what is added to a message of so many bytes, or nothing where it cannot be padded: block size, length
    ghost padding: { ℕ → ℕ → Option (List ℕ) };

    // the length with it
    ghost padded_length: { ℕ → ℕ → ℕ };

    // the message of padded bytes, or nothing where they are malformed: block size, bytes
    ghost unpadded: { ℕ → List ℕ → Option (List ℕ) };

    // the messages that unpadding gives back
    ghost comes_back: { List ℕ → Type 0 };

    /// The padded length of a message of `len` bytes, or `None` exactly where that is no usize.
    fn padded_len(len: usize, block_size: usize) -> Option<usize>
        requires { (1 ≤ block_size) × (block_size < 256) }
        ensures told { MatchOption result
            (2 ^ 64 ≤ padded_length block_size len)
            (λ n. n ≡ padded_length block_size len) };

    /// Pads the message that is the first `len` bytes of a buffer, and answers its padded length.
    ///
    /// # Errors
    /// `PadError` exactly if the buffer is too short or the message cannot be padded. Nothing is written then.
    fn pad(buffer: &mut [u8], len: usize, block_size: usize) -> Result<usize, PadError>
        requires { (1 ≤ block_size) × (block_size < 256) }
        ensures ok { IsOk result ↔ Fits (padding block_size len) len (length buffer.old) }
        ensures value { IfOk result (λ n. IsPadded (padding block_size len) len n buffer.old buffer.new) }
        ensures err { OnErr result (buffer.new ≡ buffer.old) };

    /// The message of padded bytes.
    ///
    /// # Errors
    /// `UnpadError` exactly if they are malformed.
    fn unpad(bytes: &[u8], block_size: usize) -> Result<&[u8], UnpadError>
        requires { (1 ≤ block_size) × (block_size < 256) }
        ensures told { MatchResult result (λ message. unpadded block_size bytes.now ≡ Some message.now)
            (λ _. unpadded block_size bytes.now ≡ None) }
        ensures front { IfOk result (λ message. (length message.now ≤ length bytes.now)
            × (message.now ≡ take (length message.now) bytes.now)) };

    // a padded message is whole blocks
    ghost whole: { (B n : ℕ) (tail : List ℕ) → 1 ≤ B → padding B n ≡ Some tail
        → ((n + length tail) % B ≡ 0) × (padded_length B n ≡ n + length tail) };

    // the message of a padded message is that message
    ghost back: { (B : ℕ) (message tail : List ℕ) → 1 ≤ B → comes_back message → padding B (length message) ≡ Some tail
        → unpadded B (message ++ tail) ≡ Some message };
}

/// Nothing is added: a message is whole blocks.
#[derive(Clone, Copy, Debug)]
pub struct NoPadding;

/// Zeros up to the end of the last block. The zeros that end the last block come off again,
/// so a message that ends in zeros isn't found.
#[derive(Clone, Copy, Debug)]
pub struct ZeroPadding;

/// PKCS #7 (RFC 5652, section 6.3): n bytes of value n, n being from 1 to the block size.
#[derive(Clone, Copy, Debug)]
pub struct Pkcs7;

impl Padding for NoPadding {
    ghost use Rattle.cipher_modes.specs.PaddingLaws.{no_padding-whole, no_padding-back};

    ghost padding = { no_padding };

    ghost padded_length = { λ _ n. n };

    ghost unpadded = { no_unpadded };

    ghost comes_back = { λ _. ⊤ };

    fn padded_len(len: usize, block_size: usize) -> Option<usize> {
        Some(len)
    }

    fn pad(buffer: &mut [u8], len: usize, block_size: usize) -> Result<usize, PadError> {
        if len % block_size != 0 || len > buffer.len() {
            return Err(PadError);
        }
        Ok(len)
    }

    fn unpad(bytes: &[u8], block_size: usize) -> Result<&[u8], UnpadError> {
        if bytes.len() % block_size != 0 {
            return Err(UnpadError);
        }
        Ok(bytes)
    }

    ghost whole = { no_padding-whole };

    ghost back = { no_padding-back };
}

impl Padding for ZeroPadding {
    ghost use Rattle.cipher_modes.specs.PaddingLaws.{zero_padding-whole, zero_padding-back};

    ghost padding = { zero_padding };

    ghost padded_length = { λ B n. n + missing B n % B };

    ghost unpadded = { zero_unpadded };

    ghost comes_back = { EndsInNoZero };

    fn padded_len(len: usize, block_size: usize) -> Option<usize> {
        len.checked_add(missing(len, block_size) % block_size)
    }

    fn pad(buffer: &mut [u8], len: usize, block_size: usize) -> Result<usize, PadError> {
        fill_behind(buffer, len, missing(len, block_size) % block_size, 0)
    }

    fn unpad(bytes: &[u8], block_size: usize) -> Result<&[u8], UnpadError> {
        if bytes.len() % block_size != 0 {
            return Err(UnpadError);
        }
        let front = bytes.len().saturating_sub(block_size);
        Ok(&bytes[..end_of_text(bytes, front)])
    }

    ghost whole = { zero_padding-whole };

    ghost back = { zero_padding-back };
}

impl Padding for Pkcs7 {
    ghost use Rattle.cipher_modes.specs.PaddingLaws.{pkcs7_padding-whole, pkcs7_padding-back};

    ghost padding = { pkcs7_padding };

    ghost padded_length = { λ B n. n + missing B n };

    ghost unpadded = { pkcs7_unpadded };

    ghost comes_back = { λ _. ⊤ };

    fn padded_len(len: usize, block_size: usize) -> Option<usize> {
        len.checked_add(missing(len, block_size))
    }

    fn pad(buffer: &mut [u8], len: usize, block_size: usize) -> Result<usize, PadError> {
        let count = missing(len, block_size);
        fill_behind(buffer, len, count, count as u8)
    }

    fn unpad(bytes: &[u8], block_size: usize) -> Result<&[u8], UnpadError> {
        if bytes.is_empty() {
            return Err(UnpadError);
        }
        if bytes.len() % block_size != 0 {
            return Err(UnpadError);
        }
        let count = bytes[bytes.len() - 1];
        if count == 0 || count as usize > block_size {
            return Err(UnpadError);
        }
        let end = bytes.len() - count as usize;
        let alike = all_are(&bytes[end..], count);
        if !alike {
            return Err(UnpadError);
        }
        Ok(&bytes[..end])
    }

    ghost whole = { pkcs7_padding-whole };

    ghost back = { pkcs7_padding-back };
}

// the bytes that a message is short of more blocks, from 1 to the block size
fn missing(len: usize, block_size: usize) -> usize
    requires { 1 ≤ block_size }
    ensures value { result ≡ missing block_size len }
    ensures some { 1 ≤ result }
    ensures within { result ≤ block_size }
{
    block_size - len % block_size
}

// so many bytes of a value behind the first `len` bytes
fn fill_behind(buffer: &mut [u8], len: usize, count: usize, value: u8) -> Result<usize, PadError>
    ensures ok { IsOk result ↔ (len + count ≤ length buffer.old) }
    ensures value { IfOk result (λ n. (n ≡ len + count)
        × (buffer.new ≡ take len buffer.old ++ replicate count value ++ drop n buffer.old)) }
    ensures err { OnErr result (buffer.new ≡ buffer.old) }
{
    if len > buffer.len() || count > buffer.len() - len {
        return Err(PadError);
    }
    buffer[len..len + count].fill(value);
    Ok(len + count)
}

// where the zeros begin that end the bytes from the front on
fn end_of_text(bytes: &[u8], front: usize) -> usize
    requires { front ≤ length bytes.now }
    ensures within { result ≤ length bytes.now }
    ensures value { take result bytes.now ≡ take front bytes.now ++ without_zeros (drop front bytes.now) }
{
    let mut end = bytes.len();
    while end > front && bytes[end - 1] == 0 {
        end -= 1;
    }
    end
}

// whether each byte has this value
fn all_are(bytes: &[u8], value: u8) -> bool
    ensures value { result ≡ list_all (λ x. x == value) bytes.now }
{
    bytes.iter().all(|x| *x == value)
}
