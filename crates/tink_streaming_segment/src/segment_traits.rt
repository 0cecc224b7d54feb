ghost use Rattle.std.specs.Prelude.{◌≡◌, ◌⊎◌, ◌≤◌, ◌<◌, ◌+◌, ◌-◌, ◌^◌, ℕ, List, length, replicate, take, OnOk, OnErr, IfOk, IfErr, vec_len, vec_capacity};
ghost use Rattle.tink_io.specs.declared.error.Kind.TheVariants.{DecryptFailed, OutOfMemory};

use std::alloc::Global;
use tink_io::{Kind, TinkError};
use tink_proto::Bytes;

/// A one-shot map from a nonce and a text to a segment.
pub trait SegmentEncrypter {
    // the segment of a text under a nonce
    ghost seg: { Self → List ℕ → List ℕ → List ℕ };

    ghost overhead_of: { Self → ℕ };

    ghost nonce_length: { Self → ℕ };

    /// How many bytes a segment has more than its text.
    fn overhead(&self) -> usize
        ensures { result ≡ overhead_of self.now };

    /// Makes the segment of a text under a nonce in the text's place: `segment` is the text and behind it as many bytes
    /// as a segment has more, whatever these are. The nonce has the cipher's length, and the text's length fits u32.
    /// Nothing is refused.
    fn encrypt_segment_in_place(&self, segment: &mut [u8], nonce: &[u8])
        requires nonce { length nonce.now ≡ nonce_length self.now }
        requires room { overhead_of self.now ≤ length segment.old }
        requires size { length segment.old - overhead_of self.now < 2 ^ 32 }
        ensures { segment.new ≡ seg self.now nonce.now (take (length segment.old - overhead_of self.now) segment.old) };

    /// Writes the segment of a text under a nonce into `out`, which has its length. The nonce has the cipher's length,
    /// and the text's length fits u32. Nothing is refused.
    final fn encrypt_segment_into(&self, segment: &[u8], nonce: &[u8], out: &mut [u8])
        requires nonce { length nonce.now ≡ nonce_length self.now }
        requires size { length segment.now < 2 ^ 32 }
        requires room { length out.old ≡ length segment.now + overhead_of self.now }
        ensures { out.new ≡ seg self.now nonce.now segment.now }
    {
        out[..segment.len()].copy_from_slice(segment);
        self.encrypt_segment_in_place(out, nonce);
    }

    ghost longer: { (e : Self) (n t : List ℕ) → length (seg e n t) ≡ length t + overhead_of e };

    ghost one_text: { (e : Self) (n t u : List ℕ) → seg e n t ≡ seg e n u → t ≡ u };

    /// The segment of a text under a nonce, in memory of its own, with the conditions of `encrypt_segment_into`.
    ///
    /// # Errors
    /// `OutOfMemory` alone.
    final fn encrypt_segment(
        &self,
        alloc: Global,
        segment: &[u8],
        nonce: &[u8],
    ) -> Result<Bytes, TinkError>
        requires nonce { length nonce.now ≡ nonce_length self.now }
        requires size { length segment.now < 2 ^ 32 }
        ensures value { IfOk result (λ made. made ≡ seg self.now nonce.now segment.now) }
        ensures memory { IfErr result (λ e. e ≡ record { kind = OutOfMemory }) }
    {
        let Some(n) = segment.len().checked_add(self.overhead()) else {
            return Err(TinkError::new(Kind::OutOfMemory));
        };
        let mut out = zeros(alloc, n)?;
        self.encrypt_segment_into(segment, nonce, &mut out);
        Ok(Bytes::from_vec(out))
    }
}

/// `n` zeros, in memory for no more.
///
/// # Errors
/// `OutOfMemory`.
pub fn zeros(alloc: Global, n: usize) -> Result<Vec<u8>, TinkError>
    ensures value { IfOk result (λ bytes. bytes.items ≡ replicate n 0) }
    ensures exact { IfOk result (λ bytes. (vec_len bytes ≡ n) × (vec_capacity bytes ≡ n)) }
    ensures memory { IfErr result (λ e. e ≡ record { kind = OutOfMemory }) }
{
    let mut bytes = Vec::with_capacity(alloc, n)?;
    while bytes.len() < n {
        bytes.push_reserved(0);
    }
    Ok(bytes)
}

/// A one-shot map from a nonce and a text to a segment, by its inverse.
pub trait SegmentDecrypter {
    // the segment of a text under a nonce
    ghost seg: { Self → List ℕ → List ℕ → List ℕ };

    ghost overhead_of: { Self → ℕ };

    ghost nonce_length: { Self → ℕ };

    /// How many bytes a segment has more than its text.
    fn overhead(&self) -> usize
        ensures { result ≡ overhead_of self.now };

    /// Writes the text of a segment under a nonce into `out`, which has its length: no bytes where the segment is
    /// shorter than the overhead. The nonce has the cipher's length, and the text's length fits u32.
    ///
    /// # Errors
    /// `DecryptFailed` exactly if it is the segment of no text. Nothing is written then.
    fn decrypt_segment_into(
        &self,
        segment: &[u8],
        nonce: &[u8],
        out: &mut [u8],
    ) -> Result<(), TinkError>
        requires nonce { length nonce.now ≡ nonce_length self.now }
        requires size { length segment.now - overhead_of self.now < 2 ^ 32 }
        requires room { length out.old ≡ length segment.now - overhead_of self.now }
        ensures ok { OnOk result (seg self.now nonce.now out.new ≡ segment.now) }
        ensures refused { OnErr result ((t : List ℕ) → seg self.now nonce.now t ≡ segment.now → ⊥) }
        ensures kept { OnErr result (out.new ≡ out.old) }
        ensures kind { IfErr result (λ e. e ≡ record { kind = DecryptFailed }) };

    ghost longer: { (d : Self) (n t : List ℕ) → length (seg d n t) ≡ length t + overhead_of d };

    ghost one_text: { (d : Self) (n t u : List ℕ) → seg d n t ≡ seg d n u → t ≡ u };

    /// The text of a segment under a nonce, in memory of its own, with the conditions of `decrypt_segment_into`.
    ///
    /// # Errors
    /// `DecryptFailed` only if it is the segment of no text, or `OutOfMemory`.
    final fn decrypt_segment(
        &self,
        alloc: Global,
        segment: &[u8],
        nonce: &[u8],
    ) -> Result<Bytes, TinkError>
        requires nonce { length nonce.now ≡ nonce_length self.now }
        requires size { length segment.now - overhead_of self.now < 2 ^ 32 }
        ensures ok { IfOk result (λ text. seg self.now nonce.now text ≡ segment.now) }
        ensures refused { IfErr result (λ e. (e ≡ record { kind = OutOfMemory })
            ⊎ ((e ≡ record { kind = DecryptFailed }) × ((t : List ℕ) → seg self.now nonce.now t ≡ segment.now → ⊥))) }
    {
        let mut out = zeros(alloc, segment.len().saturating_sub(self.overhead()))?;
        self.decrypt_segment_into(segment, nonce, &mut out)?;
        Ok(Bytes::from_vec(out))
    }
}
