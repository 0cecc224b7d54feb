//! What seals and opens, as the tests call it, and values of pyca/cryptography 48 over texts and data of all lengths.

ghost use Rattle.std.specs.Prelude.{◌≡◌, ◌≤◌, ◌+◌, ◌-◌, length};

use crate::rows;
use crate::rows::Row;
use aes_block::{Aes128, Aes256};
use cipher::{BlockCipherEncrypt, KeyInit};
use gcm::{Gcm, GcmError, GcmResult, GcmSiv};

/// GCM or GCM-SIV under a key.
pub trait Sealer {
    /// Seals a text.
    fn seal(&self, nonce: &[u8], aad: &[u8], text: &[u8], out: &mut [u8]) -> GcmResult
        requires nonce { length nonce.now ≡ 12 }
        requires room { length out.old ≡ length text.now + 16 };

    /// Opens what was sealed.
    fn open(&self, nonce: &[u8], aad: &[u8], sealed: &[u8], out: &mut [u8]) -> GcmResult
        requires nonce { length nonce.now ≡ 12 }
        requires room { length out.old ≡ length sealed.now - 16 };
}

impl<C: BlockCipherEncrypt<16>> Sealer for Gcm<C> {
    fn seal(&self, nonce: &[u8], aad: &[u8], text: &[u8], out: &mut [u8]) -> GcmResult {
        self.seal_into(nonce, aad, text, out)
    }

    fn open(&self, nonce: &[u8], aad: &[u8], sealed: &[u8], out: &mut [u8]) -> GcmResult {
        self.open_into(nonce, aad, sealed, out)
    }
}

impl<C: KeyInit<K> + BlockCipherEncrypt<16> + Drop, const K: usize> Sealer for GcmSiv<C, K> {
    fn seal(&self, nonce: &[u8], aad: &[u8], text: &[u8], out: &mut [u8]) -> GcmResult {
        self.seal_into(nonce, aad, text, out)
    }

    fn open(&self, nonce: &[u8], aad: &[u8], sealed: &[u8], out: &mut [u8]) -> GcmResult {
        self.open_into(nonce, aad, sealed, out)
    }
}

// GCM that seals a text in its place.
#[derive(Drop)]
struct InPlace(Gcm<Aes128>);

impl Sealer for InPlace {
    fn seal(&self, nonce: &[u8], aad: &[u8], text: &[u8], out: &mut [u8]) -> GcmResult {
        out[..text.len()].copy_from_slice(text);
        self.0.seal_in_place(nonce, aad, out)
    }

    fn open(&self, nonce: &[u8], aad: &[u8], sealed: &[u8], out: &mut [u8]) -> GcmResult {
        self.0.open_into(nonce, aad, sealed, out)
    }
}

/// Whether the text, of at most 300 bytes, is sealed to 16 bytes more that end so, and they are opened to it.
pub fn seals<S: Sealer>(s: &S, nonce: &[u8; 12], aad: &[u8], text: &[u8], end: &[u8]) -> bool {
    let n = text.len().min(300);
    let text = &text[..n];
    let mut room = [0u8; 316];
    let mut other = [0u8; 300];
    let sealed = &mut room[..n + 16];
    let opened = &mut other[..n];
    let told = s.seal(nonce, aad, text, sealed);
    let back = s.open(nonce, aad, sealed, opened);
    told.is_ok() & back.is_ok() & sealed.ends_with(end) & (*opened == *text)
}

/// Byte i is 7 i modulo 256.
pub const BYTES: &[u8; 300] =
    b"\x00\x07\x0e\x15\x1c\x23\x2a\x31\x38\x3f\x46\x4d\x54\x5b\x62\x69\x70\x77\x7e\x85\x8c\x93\x9a\xa1\xa8\xaf\xb6\xbd\xc4\xcb\xd2\xd9\
\xe0\xe7\xee\xf5\xfc\x03\x0a\x11\x18\x1f\x26\x2d\x34\x3b\x42\x49\x50\x57\x5e\x65\x6c\x73\x7a\x81\x88\x8f\x96\x9d\xa4\xab\xb2\xb9\
\xc0\xc7\xce\xd5\xdc\xe3\xea\xf1\xf8\xff\x06\x0d\x14\x1b\x22\x29\x30\x37\x3e\x45\x4c\x53\x5a\x61\x68\x6f\x76\x7d\x84\x8b\x92\x99\
\xa0\xa7\xae\xb5\xbc\xc3\xca\xd1\xd8\xdf\xe6\xed\xf4\xfb\x02\x09\x10\x17\x1e\x25\x2c\x33\x3a\x41\x48\x4f\x56\x5d\x64\x6b\x72\x79\
\x80\x87\x8e\x95\x9c\xa3\xaa\xb1\xb8\xbf\xc6\xcd\xd4\xdb\xe2\xe9\xf0\xf7\xfe\x05\x0c\x13\x1a\x21\x28\x2f\x36\x3d\x44\x4b\x52\x59\
\x60\x67\x6e\x75\x7c\x83\x8a\x91\x98\x9f\xa6\xad\xb4\xbb\xc2\xc9\xd0\xd7\xde\xe5\xec\xf3\xfa\x01\x08\x0f\x16\x1d\x24\x2b\x32\x39\
\x40\x47\x4e\x55\x5c\x63\x6a\x71\x78\x7f\x86\x8d\x94\x9b\xa2\xa9\xb0\xb7\xbe\xc5\xcc\xd3\xda\xe1\xe8\xef\xf6\xfd\x04\x0b\x12\x19\
\x20\x27\x2e\x35\x3c\x43\x4a\x51\x58\x5f\x66\x6d\x74\x7b\x82\x89\x90\x97\x9e\xa5\xac\xb3\xba\xc1\xc8\xcf\xd6\xdd\xe4\xeb\xf2\xf9\
\x00\x07\x0e\x15\x1c\x23\x2a\x31\x38\x3f\x46\x4d\x54\x5b\x62\x69\x70\x77\x7e\x85\x8c\x93\x9a\xa1\xa8\xaf\xb6\xbd\xc4\xcb\xd2\xd9\
\xe0\xe7\xee\xf5\xfc\x03\x0a\x11\x18\x1f\x26\x2d";

// The tag of the first n bytes as a text and the first m as data, each at most 64, under a nonce that is a prefix of a
// tag.
fn next_tag<S: Sealer>(s: &S, tag: &[u8; 16], n: usize, m: usize) -> [u8; 16]
    requires text { n ≤ 64 }
    requires data { m ≤ 64 }
{
    let mut room = [0u8; 80];
    let out = &mut room[..n + 16];
    let told = s.seal(&tag[..12], &BYTES[..m], &BYTES[..n], out);
    match (told, <&[u8; 16]>::try_from(&out[n..])) {
        (Ok(()), Ok(next)) => *next,
        _ => [0; 16],
    }
}

// The last tag where each length of text and data from 0 to 64 is sealed, and each nonce is a prefix of the tag before.
fn last_tag<S: Sealer>(s: &S) -> [u8; 16] {
    let mut tag = [0u8; 16];
    for n in 0..65usize {
        for m in 0..65usize {
            tag = next_tag(s, &tag, n, m);
        }
    }
    tag
}

// Whether what is given, at most 36 bytes, is refused, and nothing is written.
fn refuses<S: Sealer>(s: &S, nonce: &[u8; 12], aad: &[u8], sealed: &[u8]) -> bool {
    let n = sealed.len().min(36);
    let mut out = [9u8; 20];
    let told = s.open(nonce, aad, &sealed[..n], &mut out[..n.saturating_sub(16)]);
    told == Err(GcmError::DecryptFailed) && out == [9; 20]
}

// Whether a changed bit at each place of what was sealed is refused.
fn refuses_changes<S: Sealer>(s: &S) -> bool {
    let mut sealed = [0u8; 36];
    let mut same = s.seal(&[5; 12], b"data", &[3; 20], &mut sealed).is_ok();
    for i in 0..36 {
        let mut changed = sealed;
        changed[i] ^= 1 << (i % 8);
        same = same && refuses(s, &[5; 12], b"data", &changed);
    }
    same
}

/// A request to a sealer.
#[derive(Drop)]
pub enum Asked {
    /// To seal under a nonce and with data a text to bytes that end so, and to open them.
    Seal([u8; 12], &'static [u8], &'static [u8], &'static [u8]),
    /// To end with that tag where each length is sealed.
    Chain([u8; 16]),
    /// To refuse with that data, under a nonce of zeros, those bytes.
    Refuse(&'static [u8], &'static [u8]),
    /// To refuse each changed bit.
    RefuseChanges,
}

/// The sealer, under a key.
pub enum Of {
    /// GCM.
    Gcm([u8; 16]),
    /// GCM that seals a text in its place.
    GcmInPlace([u8; 16]),
    /// GCM-SIV.
    GcmSiv([u8; 16]),
    /// The same under 32 bytes.
    LargeGcmSiv([u8; 32]),
}

fn does<S: Sealer>(s: &S, asked: &Asked) -> bool {
    match asked {
        Asked::Seal(nonce, aad, text, end) => seals(s, nonce, aad, text, end),
        Asked::Chain(tag) => last_tag(s) == *tag,
        Asked::Refuse(aad, sealed) => refuses(s, &[0; 12], aad, sealed),
        Asked::RefuseChanges => refuses_changes(s),
    }
}

/// Whether the sealer fulfils the request.
pub fn holds(of: &Of, asked: &Asked) -> bool {
    match of {
        Of::Gcm(key) => does(&Gcm::new(Aes128::new(key)), asked),
        Of::GcmInPlace(key) => does(&InPlace(Gcm::new(Aes128::new(key))), asked),
        Of::GcmSiv(key) => does(&GcmSiv::<Aes128, 16>::new(key), asked),
        Of::LargeGcmSiv(key) => does(&GcmSiv::<Aes256, 32>::new(key), asked),
    }
}

const KEY: [u8; 16] = *b"\x00\x01\x02\x03\x04\x05\x06\x07\x08\x09\x0a\x0b\x0c\x0d\x0e\x0f";

/// By pyca/cryptography.
pub const ROWS: &[Row] = &[
    Row(
        "GCM, all lengths",
        rows::Asked::Seal(
            Of::Gcm(KEY),
            Asked::Chain(*b"\xfd\x0d\xd9\x3d\x13\xf1\xb0\x73\x6a\x67\x72\xad\x86\xd9\x1e\xb1"),
        ),
    ),
    Row(
        "GCM-SIV, all lengths",
        rows::Asked::Seal(
            Of::GcmSiv(KEY),
            Asked::Chain(*b"\x03\xc0\xb2\xc2\x4d\x19\x2c\x43\x5a\x01\x03\xa4\xbc\x05\xd0\xc0"),
        ),
    ),
];
