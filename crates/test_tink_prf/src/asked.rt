//! What rows ask of functions and of their keys.

ghost use Rattle.std.specs.Prelude.{Ok, take};
ghost use Rattle.hash_keys.specs.declared.Hash.TheVariants as hashes;
ghost use Rattle.hash_keys.specs.Hash.{hmac_of};
ghost use Rattle.tink_io.specs.Answering.{Answers};

use std::alloc::Global;
use test_util::{Answer, Ask, draws_of, gives, succeeds};
use tink_io::{Draws, TinkError};
use tink_prf::subtle::{
    AesCmacPrf, HkdfPrf, HmacPrf, validate_aes_cmac_prf_params, validate_hkdf_prf_params,
    validate_hmac_prf_params,
};
use tink_prf::{AesCmacPrfKeyManager, HkdfPrfKeyManager, HmacPrfKeyManager, PrfKind, PrfKinds};
use tink_primitives::{CloneIn, Prf, Primitive};
use tink_proto::{Bytes, HashType};
use tink_registry::KeyManager;

/// What a function is made of: the bytes of a key by its standard, that of HKDF with its salt, or the encoding of one.
pub enum Of {
    AesCmac,
    Hkdf(HashType, &'static [u8]),
    Hmac(HashType),
    AesCmacKey,
    HkdfKey,
    HmacKey,
}

/// A request of a row.
pub enum Asked {
    /// Whether the function of a key makes this of a text.
    Output(Of, &'static [u8], &'static [u8], &'static [u8]),
    /// Whether a function whose key has this number of bytes 7 makes this number of bytes of `abc`.
    Length(Of, usize, usize),
    /// Whether a key of this format is made of these draws, this number of them is left, also of a refusal, and its
    /// function makes this of `abc`.
    Make(Of, &'static [u8], &'static [u8], usize, &'static [u8]),
    /// Params of a key that is made: its hash and its size.
    AesCmacParams(usize),
    HkdfParams(HashType, usize),
    HmacParams(HashType, usize),
    /// Whether this is a code of a key and a text.
    Code(&'static [u8], &'static [u8], &'static [u8]),
}

/// A name, a request, and the answer.
pub type Row = (&'static str, Asked, Answer);

/// The text of most rows.
pub const ABC: &[u8] = b"abc";

// The first 16 bytes of HMAC with SHA-256.
fn code_of(alloc: Global, key: &[u8], text: &[u8]) -> Result<Bytes, TinkError>
    ensures { Answers result (Ok (take 16 (hmac_of hashes.Sha256 key.now text.now))) }
{
    let prf = HmacPrf::new(alloc, HashType::Sha256, key)?;
    prf.compute_prf(alloc, text, 16)
}

fn prf_of(built: Result<Primitive<PrfKinds>, TinkError>) -> Result<PrfKind, TinkError> {
    match built {
        Ok(p) => p.into_prf(),
        Err(e) => Err(e),
    }
}

fn new_prf(alloc: Global, of: &Of, key: &[u8]) -> Result<PrfKind, TinkError> {
    match *of {
        Of::AesCmac => Ok(PrfKind::AesCmac(AesCmacPrf::new(alloc, key)?)),
        Of::Hkdf(hash, salt) => Ok(PrfKind::Hkdf(HkdfPrf::new(alloc, hash, key, salt)?)),
        Of::Hmac(hash) => Ok(PrfKind::Hmac(HmacPrf::new(alloc, hash, key)?)),
        Of::AesCmacKey => prf_of(AesCmacPrfKeyManager::new().primitive(alloc, key)),
        Of::HkdfKey => prf_of(HkdfPrfKeyManager::new().primitive(alloc, key)),
        Of::HmacKey => prf_of(HmacPrfKeyManager::new().primitive(alloc, key)),
    }
}

// A prepared copy of a copy, which was a primitive on its way.
fn copy_of(alloc: Global, prf: Result<PrfKind, TinkError>) -> Result<PrfKind, TinkError> {
    match prf {
        Ok(prf) => match prf.try_clone(alloc) {
            Ok(copy) => prf_of(Primitive::<PrfKinds>::Prf(copy).try_prepared(alloc)),
            Err(e) => Err(e),
        },
        Err(e) => Err(e),
    }
}

// So many bytes of what a function makes of a text.
fn compute(
    alloc: Global,
    prf: Result<PrfKind, TinkError>,
    text: &[u8],
    length: usize,
) -> Result<Bytes, TinkError> {
    match prf {
        Ok(prf) => prf.compute_prf(alloc, text, length),
        Err(e) => Err(e),
    }
}

fn has_length(output: Result<Bytes, TinkError>, length: usize) -> Result<bool, TinkError> {
    match output {
        Ok(bytes) => Ok(bytes.as_slice().len() == length),
        Err(e) => Err(e),
    }
}

fn new_key(alloc: Global, of: &Of, format: &[u8], draws: &mut Draws) -> Result<Bytes, TinkError> {
    match *of {
        Of::HmacKey => HmacPrfKeyManager::new().new_key(alloc, format, draws),
        Of::HkdfKey => HkdfPrfKeyManager::new().new_key(alloc, format, draws),
        _ => AesCmacPrfKeyManager::new().new_key(alloc, format, draws),
    }
}

// Whether a key's function makes this of `abc`.
fn has_output(
    alloc: Global,
    of: &Of,
    key: Result<Bytes, TinkError>,
    want: &[u8],
) -> Result<bool, TinkError> {
    match key {
        Ok(key) => gives(
            compute(alloc, new_prf(alloc, of, key.as_slice()), ABC, want.len()),
            want,
        ),
        Err(e) => Err(e),
    }
}

// The same of a new key, of which so many draws are left.
fn is_made(
    alloc: Global,
    of: &Of,
    format: &[u8],
    draws: Result<Draws, TinkError>,
    left: usize,
    want: &[u8],
) -> Result<bool, TinkError> {
    match draws {
        Ok(mut draws) => {
            let got = has_output(alloc, of, new_key(alloc, of, format, &mut draws), want);
            if draws.left() == left { got } else { Ok(false) }
        }
        Err(e) => Err(e),
    }
}

// `true` asks a copy of the function.
impl Ask<bool> for Asked {
    fn answer(&self, alloc: Global, of_copy: &mut bool) -> Result<bool, TinkError> {
        match *self {
            Asked::Output(ref of, key, text, want) => {
                let own = new_prf(alloc, of, key);
                let prf = if *of_copy { copy_of(alloc, own) } else { own };
                gives(compute(alloc, prf, text, want.len()), want)
            }
            Asked::Length(ref of, size, length) => has_length(
                compute(
                    alloc,
                    new_prf(alloc, of, &[7; 64][..size.min(64)]),
                    ABC,
                    length,
                ),
                length,
            ),
            Asked::Make(ref of, format, draws, left, want) => {
                is_made(alloc, of, format, draws_of(alloc, draws), left, want)
            }
            Asked::AesCmacParams(size) => succeeds(validate_aes_cmac_prf_params(size)),
            Asked::HkdfParams(hash, size) => succeeds(validate_hkdf_prf_params(hash, size, b"")),
            Asked::HmacParams(hash, size) => succeeds(validate_hmac_prf_params(hash, size)),
            Asked::Code(key, text, want) => gives(code_of(alloc, key, text), want),
        }
    }
}
