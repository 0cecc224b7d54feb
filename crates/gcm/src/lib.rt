//! GCM and GCM-SIV over block ciphers, without memory.
#![tactic(auto)]

ghost use Rattle.gcm.specs.Laws.{GcmGivesBack, GcmHasOneText, GcmSivGivesBack, GcmSivHasOneText};

mod bytes;
mod counter;
mod errors;
mod field;
mod hash_key;
mod hashing;
mod large_multiples;
mod limits;
mod long_hash_key;
mod multiples;
mod opened;
mod order;
mod sealing;
mod siv;
mod vectors;

pub use errors::{GcmError, GcmResult};
pub use hashing::{ghash, polyval};
pub use sealing::Gcm;
pub use siv::GcmSiv;

/// Under each one-block map, nonce and data a list of bytes is GCM's encryption of at most one text. Its ciphertext
/// in counter mode is this text, and encrypting the text gives the list again.
pub fn law_gcm_has_one_text()
    ensures one_text { GcmHasOneText }
    ensures gives_back { GcmGivesBack }
{}

/// Under a key, a nonce and data a list of bytes is GCM-SIV's encryption of at most one text. Its ciphertext in
/// counter mode is this text, and encrypting the text gives the list again. The premise: the cipher under the
/// message-encryption key makes blocks of blocks.
pub fn law_gcm_siv_has_one_text()
    ensures one_text { GcmSivHasOneText }
    ensures gives_back { GcmSivGivesBack }
{}
