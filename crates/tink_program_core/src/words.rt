//! The words of the program.

ghost use Rattle.std.specs.Prelude.{◌≡◌, List, ◌∷◌, ℕ, IfOk, IfErr, IfSome, IfNone, codes};
ghost use Rattle.tink_io.specs.declared.error.Kind.TheVariants.{OutOfMemory};
ghost use Rattle.tink_program_core.specs.Draws.{draws_in};
ghost use Rattle.tink_program_core.specs.Words.{IsBytesWord, IsNumberWord, WordsAreRead, IsReadAs, SpellNothing, Spells, asked_of, told};
ghost use Rattle.tink_cli_words.specs.Forms.{words_of};
ghost use Rattle.tink_cli_words.specs.Lines.{words_in};

use hex::{FromHex, FromHexError};
use rand_chacha::ChaCha20Rng;
use rand_core::SeedableRng;
use rand_core::utils::NextWord;
use std::alloc::Global;
use tink_io::{Kind, TinkError};

/// What draws are made from.
pub type Seed = [u8; 32];

// The last number of a large text.
const LAST_LARGE: u64 = 999_999;

// The seed of a command that draws nothing.
const NO_SEED: Seed = [0; 32];

/// What `seal KEYSET AAD SEED` spells beside its seed.
#[derive(Drop)]
pub struct SealArgs {
    /// The bytes of the keyset.
    pub keyset: Vec<u8>,
    /// The associated data.
    pub aad: Vec<u8>,
}

/// What `open KEYSET AAD` spells.
#[derive(Drop)]
pub struct OpenArgs {
    /// The bytes of the keyset.
    pub keyset: Vec<u8>,
    /// The associated data.
    pub aad: Vec<u8>,
}

/// What `rotate KEYSET TEMPLATE SEED` spells beside its seed.
#[derive(Drop)]
pub struct RotateArgs {
    /// The bytes of the keyset.
    pub keyset: Vec<u8>,
    /// The name of the template.
    pub template: String,
}

/// What `range KEYSET AAD START LEN` spells.
#[derive(Drop)]
pub struct RangeArgs {
    /// The bytes of the keyset.
    pub keyset: Vec<u8>,
    /// The associated data.
    pub aad: Vec<u8>,
    /// The first byte of the range, from 0 on.
    pub start: u64,
    /// The bytes of the range at most.
    pub len: u64,
}

/// What `rewrap KEYSET AAD KEYSET AAD SEED` spells beside its seed.
#[derive(Drop)]
pub struct RewrapArgs {
    /// The bytes of the keyset that decrypts.
    pub from: Vec<u8>,
    /// The associated data of the stream that is read.
    pub from_aad: Vec<u8>,
    /// The bytes of the keyset that encrypts.
    pub to: Vec<u8>,
    /// The associated data of the new stream.
    pub to_aad: Vec<u8>,
}

/// A command with its values, but for its seed.
#[derive(Drop)]
pub enum Parsed {
    Seal(SealArgs),
    Open(OpenArgs),
    Keygen(String),
    Rotate(RotateArgs),
    Large(u32),
    Range(RangeArgs),
    Sign(Vec<u8>),
    Verify(Vec<u8>),
    Rewrap(RewrapArgs),
}

// Why words were not read.
#[derive(Clone, Copy)]
enum Unread {
    // They spell no such thing.
    Nothing,
    // There is no memory for what they spell.
    NoMemory,
}

/// Reads the words of a command and its seed, which is one of zeros if they have none. `None` if they spell no
/// command.
///
/// # Errors
/// `OutOfMemory` alone.
pub fn parse(alloc: Global, words: &Vec<String>) -> Result<Option<(Parsed, Seed)>, TinkError>
    ensures found { IfOk result (λ o. IfSome o (λ p. Spells (words_of words.now) (asked_of p.0 p.1))) }
    ensures none { IfOk result (λ o. IfNone o (SpellNothing (words_of words.now))) }
    ensures refused { IfErr result (λ e. e ≡ record { kind = OutOfMemory }) }
{
    none_if_nothing(read(alloc, words.as_slice()))
}

// What was read, where there was something.
fn none_if_nothing<T>(answer: Result<T, Unread>) -> Result<Option<T>, TinkError>
    ensures { result ≡ told answer }
{
    match answer {
        Ok(value) => Ok(Some(value)),
        Err(Unread::Nothing) => Ok(None),
        Err(Unread::NoMemory) => Err(TinkError::new(Kind::OutOfMemory)),
    }
}

// Reads all words.
fn read(alloc: Global, words: &[String]) -> Result<(Parsed, Seed), Unread>
    ensures { WordsAreRead (words_in words.now) result }
{
    let [name, behind @ ..] = words else {
        return Err(Unread::Nothing);
    };
    match name.as_str() {
        "seal" => read_seal(alloc, behind),
        "open" => read_open(alloc, behind),
        "keygen" => read_keygen(alloc, behind),
        "rotate" => read_rotate(alloc, behind),
        "large" => read_large(alloc, behind),
        "range" => read_range(alloc, behind),
        "sign" => read_sign(alloc, behind),
        "verify" => read_verify(alloc, behind),
        "rewrap" => read_rewrap(alloc, behind),
        _ => Err(Unread::Nothing),
    }
}

// Reads the words behind `seal`.
fn read_seal(alloc: Global, words: &[String]) -> Result<(Parsed, Seed), Unread>
    ensures { WordsAreRead (codes "seal" ∷ words_in words.now) result }
{
    let [keyset, aad, seed] = words else {
        return Err(Unread::Nothing);
    };
    let Ok(seed) = <[u8; 32] as FromHex>::from_hex(seed.as_str()) else {
        return Err(Unread::Nothing);
    };
    match two_of(alloc, keyset.as_str(), aad.as_str()) {
        Ok((keyset, aad)) => Ok((Parsed::Seal(SealArgs { keyset, aad }), seed)),
        Err(e) => Err(e),
    }
}

// Reads the words behind `open`.
fn read_open(alloc: Global, words: &[String]) -> Result<(Parsed, Seed), Unread>
    ensures { WordsAreRead (codes "open" ∷ words_in words.now) result }
{
    let [keyset, aad] = words else {
        return Err(Unread::Nothing);
    };
    match two_of(alloc, keyset.as_str(), aad.as_str()) {
        Ok((keyset, aad)) => Ok((Parsed::Open(OpenArgs { keyset, aad }), NO_SEED)),
        Err(e) => Err(e),
    }
}

// Reads the words behind `keygen`.
fn read_keygen(alloc: Global, words: &[String]) -> Result<(Parsed, Seed), Unread>
    ensures { WordsAreRead (codes "keygen" ∷ words_in words.now) result }
{
    let [template, seed] = words else {
        return Err(Unread::Nothing);
    };
    let Ok(seed) = <[u8; 32] as FromHex>::from_hex(seed.as_str()) else {
        return Err(Unread::Nothing);
    };
    match String::from_str(alloc, template.as_str()) {
        Ok(template) => Ok((Parsed::Keygen(template), seed)),
        Err(_) => Err(Unread::NoMemory),
    }
}

// Reads the words behind `rotate`.
fn read_rotate(alloc: Global, words: &[String]) -> Result<(Parsed, Seed), Unread>
    ensures { WordsAreRead (codes "rotate" ∷ words_in words.now) result }
{
    let [keyset, template, seed] = words else {
        return Err(Unread::Nothing);
    };
    let Ok(seed) = <[u8; 32] as FromHex>::from_hex(seed.as_str()) else {
        return Err(Unread::Nothing);
    };
    let Ok(template) = String::from_str(alloc, template.as_str()) else {
        return Err(Unread::NoMemory);
    };
    match bytes_of(alloc, keyset.as_str()) {
        Ok(keyset) => Ok((Parsed::Rotate(RotateArgs { keyset, template }), seed)),
        Err(e) => Err(e),
    }
}

// Reads the words behind `large`.
fn read_large(alloc: Global, words: &[String]) -> Result<(Parsed, Seed), Unread>
    ensures { WordsAreRead (codes "large" ∷ words_in words.now) result }
{
    let [number] = words else {
        return Err(Unread::Nothing);
    };
    match number_in(alloc, number.as_str(), LAST_LARGE) {
        Ok(n) => Ok((Parsed::Large(n as u32), NO_SEED)),
        Err(e) => Err(e),
    }
}

// Reads the words behind `range`.
fn read_range(alloc: Global, words: &[String]) -> Result<(Parsed, Seed), Unread>
    ensures { WordsAreRead (codes "range" ∷ words_in words.now) result }
{
    let [keyset, aad, start, len] = words else {
        return Err(Unread::Nothing);
    };
    let start = number_in(alloc, start.as_str(), u64::MAX)?;
    let len = number_in(alloc, len.as_str(), u64::MAX)?;
    match two_of(alloc, keyset.as_str(), aad.as_str()) {
        Ok((keyset, aad)) => {
            let args = RangeArgs {
                keyset,
                aad,
                start,
                len,
            };
            Ok((Parsed::Range(args), NO_SEED))
        }
        Err(e) => Err(e),
    }
}

// Reads the words behind `sign`.
fn read_sign(alloc: Global, words: &[String]) -> Result<(Parsed, Seed), Unread>
    ensures { WordsAreRead (codes "sign" ∷ words_in words.now) result }
{
    let [keyset] = words else {
        return Err(Unread::Nothing);
    };
    match bytes_of(alloc, keyset.as_str()) {
        Ok(keyset) => Ok((Parsed::Sign(keyset), NO_SEED)),
        Err(e) => Err(e),
    }
}

// Reads the words behind `verify`.
fn read_verify(alloc: Global, words: &[String]) -> Result<(Parsed, Seed), Unread>
    ensures { WordsAreRead (codes "verify" ∷ words_in words.now) result }
{
    let [keyset] = words else {
        return Err(Unread::Nothing);
    };
    match bytes_of(alloc, keyset.as_str()) {
        Ok(keyset) => Ok((Parsed::Verify(keyset), NO_SEED)),
        Err(e) => Err(e),
    }
}

// Reads the words behind `rewrap`.
fn read_rewrap(alloc: Global, words: &[String]) -> Result<(Parsed, Seed), Unread>
    ensures { WordsAreRead (codes "rewrap" ∷ words_in words.now) result }
{
    let [from, from_aad, to, to_aad, seed] = words else {
        return Err(Unread::Nothing);
    };
    let Ok(seed) = <[u8; 32] as FromHex>::from_hex(seed.as_str()) else {
        return Err(Unread::Nothing);
    };
    match two_of(alloc, from.as_str(), from_aad.as_str()) {
        Ok((from, from_aad)) => match two_of(alloc, to.as_str(), to_aad.as_str()) {
            Ok((to, to_aad)) => {
                let args = RewrapArgs {
                    from,
                    from_aad,
                    to,
                    to_aad,
                };
                Ok((Parsed::Rewrap(args), seed))
            }
            Err(e) => Err(e),
        },
        Err(e) => Err(e),
    }
}

/// The number that a word writes as it is printed: at most this many decimal digits, with no zero before them.
///
/// # Errors
/// `OutOfMemory`.
pub fn number_of(alloc: Global, word: &str, most: u64) -> Result<Option<u64>, TinkError>
    ensures found { IfOk result (λ o. IfSome o (λ n. IsNumberWord most word.now n)) }
    ensures none { IfOk result (λ o. IfNone o ((n : ℕ) → IsNumberWord most word.now n → ⊥)) }
    ensures refused { IfErr result (λ e. e ≡ record { kind = OutOfMemory }) }
{
    none_if_nothing(number_in(alloc, word, most))
}

// The number of a word.
fn number_in(alloc: Global, word: &str, most: u64) -> Result<u64, Unread>
    ensures { IsReadAs (λ n. IsNumberWord most word.now n) ((n : ℕ) → IsNumberWord most word.now n → ⊥) result }
{
    let Ok(n) = word.parse::<u64>() else {
        return Err(Unread::Nothing);
    };
    let Ok(printed) = n.to_string(alloc) else {
        return Err(Unread::NoMemory);
    };
    if n > most || printed.as_str() != word {
        return Err(Unread::Nothing);
    }
    Ok(n)
}

// The bytes of two words.
fn two_of(alloc: Global, first: &str, second: &str) -> Result<(Vec<u8>, Vec<u8>), Unread>
    ensures { IsReadAs (λ p. IsBytesWord first.now p.0.items × IsBytesWord second.now p.1.items)
        ((v w : List ℕ) → IsBytesWord first.now v → IsBytesWord second.now w → ⊥) result }
{
    match bytes_of(alloc, first) {
        Ok(first) => match bytes_of(alloc, second) {
            Ok(second) => Ok((first, second)),
            Err(e) => Err(e),
        },
        Err(e) => Err(e),
    }
}

// The bytes of a hexadecimal word, or none of a dash.
fn bytes_of(alloc: Global, word: &str) -> Result<Vec<u8>, Unread>
    ensures { IsReadAs (λ v. IsBytesWord word.now v.items) ((v : List ℕ) → IsBytesWord word.now v → ⊥) result }
{
    if word == "-" {
        return Ok(Vec::new(alloc));
    }
    if word.len() < 2 {
        return Err(Unread::Nothing);
    }
    match hex::decode(alloc, word) {
        Ok(bytes) => Ok(bytes),
        Err(FromHexError::OutOfMemory) => Err(Unread::NoMemory),
        Err(_) => Err(Unread::Nothing),
    }
}

/// The bytes of the first 256 words of the seed's ChaCha20 stream, 1,024 in all.
///
/// # Errors
/// `OutOfMemory` alone.
pub fn first_draws(alloc: Global, seed: Seed) -> Result<Vec<u8>, TinkError>
    ensures draws { IfOk result (λ v. v.items ≡ draws_in seed 256) }
    ensures refused { IfErr result (λ e. e ≡ record { kind = OutOfMemory }) }
{
    let mut rng = ChaCha20Rng::from_seed(seed);
    let mut bytes = Vec::new(alloc);
    for place in 0..256u32 {
        let _ = place;
        bytes.extend_from_slice(&rng.next_word().to_le_bytes())?;
    }
    Ok(bytes)
}
