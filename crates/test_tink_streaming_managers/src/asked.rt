//! What is asked of the managers and templates of keys of streams, and the one answer.

use std::alloc::Global;
use test_util::{Answer, Ask, draws_of, gives, succeeds};
use tink_io::{Draws, Kind, TinkError};
use tink_primitives::Primitive;
use tink_proto::{Bytes, HashType, KeyTemplate};
use tink_registry::KeyManager;
use tink_streaming_keys::{AesGcmHkdf, DerivesStreams, StreamKind, StreamKinds};
use tink_streaming_managers::{
    AesCtrHmacKeyManager, AesGcmHkdfKeyManager, aes128_ctr_hmac_sha256_segment_1mb_key_template,
    aes128_ctr_hmac_sha256_segment_4kb_key_template, aes128_gcm_hkdf_1mb_key_template,
    aes128_gcm_hkdf_4kb_key_template, aes256_ctr_hmac_sha256_segment_1mb_key_template,
    aes256_ctr_hmac_sha256_segment_4kb_key_template, aes256_gcm_hkdf_1mb_key_template,
    aes256_gcm_hkdf_4kb_key_template,
};

/// A key in counter mode.
pub const CTR: bool = true;

/// A key by AES-GCM.
pub const GCM: bool = false;

/// A row.
pub type Row = (&'static str, Asked, Answer);

/// A template.
#[derive(Clone, Copy)]
pub enum Template {
    Ctr128In4Kb,
    Ctr128In1Mb,
    Ctr256In4Kb,
    Ctr256In1Mb,
    Gcm128In4Kb,
    Gcm128In1Mb,
    Gcm256In4Kb,
    Gcm256In1Mb,
}

/// Of how many draws, all of them sevens, a new key is made, how many of them are left, and the key's bytes. Where none is
/// made, so many are left.
pub struct New {
    pub draws: usize,
    pub left: usize,
    pub key: &'static [u8],
}

// No key.
const NONE: New = New {
    draws: 40,
    left: 40,
    key: b"",
};

/// What is asked of a template.
pub enum Of {
    /// That it is a RAW one of this URL and format.
    Is(&'static str, &'static [u8]),
    /// That this key is made of it, in counter mode or by AES-GCM.
    Makes(bool, New),
}

/// What is asked of keys in counter mode, or by AES-GCM.
pub enum Asked {
    /// That a key builds of these bytes.
    Key(bool, &'static [u8]),
    /// That no key is made of a format.
    Format(bool, &'static [u8]),
    /// That this key is made of a format.
    Made(bool, &'static [u8], New),
    /// That the key of these bytes has this main key and these sizes.
    Built(bool, &'static [u8], &'static [u8], &'static [usize; 6]),
    /// That a key that leaves a hundred bytes of its first segment free has these sizes, and so long a header.
    Offset(&'static [usize; 6], usize),
    /// Of a template.
    Template(Template, Of),
}

// The sizes that a key tells: of a header, a segment, the first segment, what a segment has more than its text, a
// derived key and a nonce.
fn sizes_of(key: &StreamKind) -> [usize; 6] {
    [
        key.header_length(),
        key.segment_size() as usize,
        key.first_segment_size() as usize,
        key.overhead(),
        key.derived_key_size(),
        key.nonce_size(),
    ]
}

fn offset(alloc: Global, sizes: &[usize; 6], header: usize) -> Result<bool, TinkError> {
    match AesGcmHkdf::new(alloc, &[7; 32], HashType::Sha256, 32, 4096, 100) {
        Ok(key) => {
            let is_long = key.header_length() == header;
            Ok((sizes_of(&StreamKind::GcmHkdf(key)) == *sizes) & is_long)
        }
        Err(e) => Err(e),
    }
}

fn primitive(
    alloc: Global,
    in_counter_mode: bool,
    bytes: &[u8],
) -> Result<Primitive<StreamKinds>, TinkError> {
    if in_counter_mode {
        AesCtrHmacKeyManager::new().primitive(alloc, bytes)
    } else {
        AesGcmHkdfKeyManager::new().primitive(alloc, bytes)
    }
}

fn key_of(alloc: Global, in_counter_mode: bool, bytes: &[u8]) -> Result<StreamKind, TinkError> {
    match primitive(alloc, in_counter_mode, bytes) {
        Ok(p) => p.into_streaming_aead(),
        Err(e) => Err(e),
    }
}

fn is_built(
    key: Result<StreamKind, TinkError>,
    main: &[u8],
    sizes: &[usize; 6],
) -> Result<bool, TinkError> {
    match key {
        Ok(key) => Ok((key.main_key() == main) & (sizes_of(&key) == *sizes)),
        Err(e) => Err(e),
    }
}

fn new_key(
    alloc: Global,
    in_counter_mode: bool,
    format: &[u8],
    draws: &mut Draws,
) -> Result<Bytes, TinkError> {
    if in_counter_mode {
        AesCtrHmacKeyManager::new().new_key(alloc, format, draws)
    } else {
        AesGcmHkdfKeyManager::new().new_key(alloc, format, draws)
    }
}

fn makes(
    alloc: Global,
    in_counter_mode: bool,
    format: &[u8],
    new: &New,
) -> Result<bool, TinkError> {
    match draws_of(alloc, &[7; 40][..new.draws.min(40)]) {
        Ok(mut draws) => {
            let told = gives(new_key(alloc, in_counter_mode, format, &mut draws), new.key);
            if draws.left() == new.left {
                told
            } else {
                Ok(false)
            }
        }
        Err(e) => Err(e),
    }
}

fn template_of(alloc: Global, of: Template) -> Result<KeyTemplate, TinkError> {
    match of {
        Template::Ctr128In4Kb => aes128_ctr_hmac_sha256_segment_4kb_key_template(alloc),
        Template::Ctr128In1Mb => aes128_ctr_hmac_sha256_segment_1mb_key_template(alloc),
        Template::Ctr256In4Kb => aes256_ctr_hmac_sha256_segment_4kb_key_template(alloc),
        Template::Ctr256In1Mb => aes256_ctr_hmac_sha256_segment_1mb_key_template(alloc),
        Template::Gcm128In4Kb => aes128_gcm_hkdf_4kb_key_template(alloc),
        Template::Gcm128In1Mb => aes128_gcm_hkdf_1mb_key_template(alloc),
        Template::Gcm256In4Kb => aes256_gcm_hkdf_4kb_key_template(alloc),
        Template::Gcm256In1Mb => aes256_gcm_hkdf_1mb_key_template(alloc),
    }
}

fn is_so(alloc: Global, kt: &KeyTemplate, asked: &Of) -> Result<bool, TinkError> {
    match *asked {
        Of::Is(url, format) => Ok(
            (kt.type_url.as_str() == url)
                & (kt.value.as_slice() == format)
                & (kt.output_prefix_type == 3),
        ),
        Of::Makes(mode, ref new) => makes(alloc, mode, kt.value.as_slice(), new),
    }
}

fn template_is(alloc: Global, of: Template, asked: &Of) -> Result<bool, TinkError> {
    match template_of(alloc, of) {
        Ok(kt) => is_so(alloc, &kt, asked),
        Err(e) => Err(e),
    }
}

impl Ask<()> for Asked {
    fn answer(&self, alloc: Global, _of: &mut ()) -> Result<bool, TinkError> {
        match *self {
            Asked::Key(mode, bytes) => succeeds(key_of(alloc, mode, bytes)),
            Asked::Format(mode, format) => makes(alloc, mode, format, &NONE),
            Asked::Made(mode, format, ref new) => makes(alloc, mode, format, new),
            Asked::Built(mode, bytes, main, sizes) => {
                is_built(key_of(alloc, mode, bytes), main, sizes)
            }
            Asked::Offset(sizes, header) => offset(alloc, sizes, header),
            Asked::Template(of, ref asked) => template_is(alloc, of, asked),
        }
    }
}
