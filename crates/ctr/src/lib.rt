//! Counter mode (SP 800-38A, section 6.5) over block ciphers, in six flavours.
#![tactic(auto)]

mod ctr_core;
pub mod flavors;

ghost use Rattle.std.specs.Prelude.{◌≡◌, ℕ, List, length};
ghost use Rattle.std.specs.Int.{Width, w32};
ghost use Rattle.standards.specs.Counter.{ctr, plus_be, plus_le};
ghost use Rattle.standards.specs.Gcm.{first_block, gcm_text};
ghost use Rattle.standards.specs.GcmSiv.{counter_block, encryption_key, gcm_siv_text};
ghost use Rattle.cipher_stream.specs.ByteStream.{bytes_from, to_come};
ghost use Rattle.cipher_stream.specs.Keystream.{Keystream, bytes_of, xored};
ghost use Rattle.ctr.specs.Counter.{counter_stream};
ghost use Rattle.ctr.specs.Flavors.{last, first, field_size, plus};

use cipher_stream::StreamCipherCoreWrapper;
pub use ctr_core::{CounterCore, CtrCore};
pub use flavors::CtrFlavor;

/// Counter mode over a cipher on blocks of 16 bytes, with the counter in the last 4 bytes.
pub type Ctr32BE<C> = StreamCipherCoreWrapper<CtrCore<C, flavors::Ctr32BE, 16>, 16>;

/// Counter mode over a cipher on blocks of 16 bytes, with the counter in the first 4 bytes.
pub type Ctr32LE<C> = StreamCipherCoreWrapper<CtrCore<C, flavors::Ctr32LE, 16>, 16>;

/// Counter mode over a cipher on blocks of 16 bytes, with the counter in the last 8 bytes.
pub type Ctr64BE<C> = StreamCipherCoreWrapper<CtrCore<C, flavors::Ctr64BE, 16>, 16>;

/// Counter mode over a cipher on blocks of 16 bytes, with the counter in the first 8 bytes.
pub type Ctr64LE<C> = StreamCipherCoreWrapper<CtrCore<C, flavors::Ctr64LE, 16>, 16>;

/// Counter mode over a cipher on blocks of 16 bytes, which are the counter, high byte first.
pub type Ctr128BE<C> = StreamCipherCoreWrapper<CtrCore<C, flavors::Ctr128BE, 16>, 16>;

/// Counter mode over a cipher on blocks of 16 bytes, which are the counter, low byte first.
pub type Ctr128LE<C> = StreamCipherCoreWrapper<CtrCore<C, flavors::Ctr128LE, 16>, 16>;

/// A text xor a core's keystream, on blocks of 16 bytes, is counter mode as the standards have it. The counter is in
/// the last bytes (SP 800-38A, 6.5 and B.1) or in the first (RFC 8452, 4). GCM (SP 800-38D, 7.1) and GCM-SIV (RFC
/// 8452, 4) use it so. A cipher over a core with no rest applies the core's bytes.
pub fn law_counter_mode()
    ensures last_bytes { (w : Width) (E : List ℕ → List ℕ) (nonce text : List ℕ)
        → ((i : ℕ) → length (E (plus_be w nonce i)) ≡ 16)
        → xored (bytes_of 16 (counter_stream E (plus last w) nonce (field_size w) 0)) text
        ≡ ctr E (plus_be w) nonce text }
    ensures first_bytes { (w : Width) (E : List ℕ → List ℕ) (nonce text : List ℕ)
        → ((i : ℕ) → length (E (plus_le w nonce i)) ≡ 16)
        → xored (bytes_of 16 (counter_stream E (plus first w) nonce (field_size w) 0)) text
        ≡ ctr E (plus_le w) nonce text }
    ensures gcm { (E : List ℕ → List ℕ) (nonce text : List ℕ)
        → ((i : ℕ) → length (E (plus_be w32 (plus_be w32 (first_block nonce) 1) i)) ≡ 16)
        → xored (bytes_of 16 (counter_stream E (plus last w32) (first_block nonce) (field_size w32) 1)) text
        ≡ gcm_text E nonce text }
    ensures gcm_siv { (cipher : List ℕ → List ℕ → List ℕ) (key nonce tag text : List ℕ)
        → ((i : ℕ) → length (cipher (encryption_key cipher key nonce) (plus_le w32 (counter_block tag) i)) ≡ 16)
        → xored (bytes_of 16 (counter_stream (cipher (encryption_key cipher key nonce))
        (plus first w32) (counter_block tag) (field_size w32) 0)) text
        ≡ gcm_siv_text cipher key nonce tag text }
    ensures buffered { (k : Keystream) (text : List ℕ)
        → xored (to_come (bytes_from 16 k 0)) text ≡ xored (bytes_of 16 k) text }
{}
