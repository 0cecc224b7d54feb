// AES in counter mode (SP 800-38A, section 6.5), counting in a block's last eight bytes.
ghost use Rattle.std.specs.Prelude.{◌≡◌, ◌⊎◌, length};
ghost use Rattle.std.specs.Int.{w64};
ghost use Rattle.standards.specs.AesKeys.{aes};
ghost use Rattle.standards.specs.Counter.{ctr, plus_be};
ghost use Rattle.tink_streaming_ciphers.specs.SegmentCiphers.{FitsCipher, cipher_key};

use aes_block::{Aes128, Aes256};
use cipher::{BlockCipherEncrypt, InOutBuf, InnerIvInit, KeyInit};
use cipher_stream::StreamCipherCore;
use ctr::CtrCore;
use ctr::flavors::Ctr64BE;

/// AES (FIPS 197) under a key of 16 or 32 bytes.
#[derive(Drop)]
pub enum SegmentCipher {
    /// With a key of 16 bytes.
    Small(Aes128),
    /// With a key of 32 bytes.
    Large(Aes256),
}

impl SegmentCipher {
    /// The cipher under a key of 16 or 32 bytes.
    pub fn new(key: &[u8]) -> SegmentCipher
        requires { (length key.now ≡ 16) ⊎ (length key.now ≡ 32) }
        ensures key { cipher_key result ≡ key.now }
        ensures sized { FitsCipher result }
    {
        match Aes128::new_from_slice(key) {
            Ok(cipher) => SegmentCipher::Small(cipher),
            Err(_) => large(key),
        }
    }

    /// Applies counter mode (SP 800-38A, section 6.5) from the block `nonce` on to bytes in their place. A second call
    /// undoes the first.
    pub fn apply_in_place(&self, nonce: &[u8; 16], bytes: &mut [u8])
        requires { FitsCipher self.now }
        ensures { bytes.new ≡ ctr (aes (cipher_key self.now)) (plus_be w64) nonce.now bytes.old }
    {
        match self {
            SegmentCipher::Small(cipher) => apply_counter_mode(cipher, nonce, bytes),
            SegmentCipher::Large(cipher) => apply_counter_mode(cipher, nonce, bytes),
        }
    }
}

fn large(key: &[u8]) -> SegmentCipher
    requires { length key.now ≡ 32 }
    ensures key { cipher_key result ≡ key.now }
    ensures sized { FitsCipher result }
{
    match Aes256::new_from_slice(key) {
        Ok(cipher) => SegmentCipher::Large(cipher),
        Err(_) => unreachable!(),
    }
}

fn apply_counter_mode<C: BlockCipherEncrypt<16>>(cipher: &C, nonce: &[u8; 16], bytes: &mut [u8])
    ensures { bytes.new ≡ ctr (C.encrypts cipher.now) (plus_be w64) nonce.now bytes.old }
{
    let core = CtrCore::<&C, Ctr64BE, 16>::inner_iv_init(cipher, nonce);
    core.apply_keystream_partial(InOutBuf {
        output: bytes,
        input: &[],
    });
}
