//! Encryption by cipher block chaining.

ghost use Rattle.std.proofs.Common.{◌∙◌, refl};
ghost use Rattle.std.specs.Prelude.{◌≡◌, ℕ, List};
ghost use Rattle.standards.proofs.ListFacts.{length-xor_bytes};
ghost use Rattle.standards.specs.Lists.{xor_bytes};
ghost use Rattle.cipher_modes.specs.Steps.{run_of};

use cipher::{BlockCipherEncrypt, InOut, InnerIvInit, IvState, KeyInit, KeyIvInit, SetIvState};
use cipher_modes::{BlockModeEncBackend, BlockModeEncClosure, BlockModeEncrypt};

/// A cipher of blocks of B bytes and the block that the next one is added to: the initialization vector, and then the
/// last encrypted block. V is `[u8; B]`.
#[derive(Drop)]
pub struct Encryptor<C, V> {
    cipher: C,
    iv: V,
}

impl<C: BlockCipherEncrypt<B>, const B: usize> BlockModeEncBackend<B> for Encryptor<C, [u8; B]> {
    ghost step = { λ s x. let y = C.encrypts s.cipher (xor_bytes x s.iv) in (y, record s { iv = y }) };

    ghost lanes = { λ _. 1 };

    fn width(&self) -> usize {
        1
    }

    fn encrypt_block(&mut self, block: &mut InOut<'_, '_, [u8; B]>) {
        block.xor_in2out(&self.iv);
        self.cipher.encrypt_block(&mut *block.output);
        self.iv = *block.output;
    }

    ghost block_size = { C.block_size };

    ghost same_width = { λ _ _. refl };
}

impl<C: BlockCipherEncrypt<B> + Drop, const B: usize> BlockModeEncrypt<B>
    for Encryptor<C, [u8; B]> {
    ghost step = { λ s x. let y = C.encrypts s.cipher (xor_bytes x s.iv) in (y, record s { iv = y }) };

    fn encrypt_with_backend<F: BlockModeEncClosure<B>>(&mut self, f: &mut F) {
        f.call(self);
    }

    ghost block_size = { C.block_size };

    ghost sized = { λ s x e. C.sized s.cipher (xor_bytes x s.iv) (length-xor_bytes x s.iv ∙ e) };
}

impl<C: BlockCipherEncrypt<B> + Drop, const B: usize> InnerIvInit<C, B> for Encryptor<C, [u8; B]> {
    ghost with_iv = { λ cipher iv. record { cipher = cipher; iv = iv } };

    fn inner_iv_init(inner: C, iv: &[u8; B]) -> Encryptor<C, [u8; B]>
        ensures value { result ≡ record { cipher = inner; iv = iv.now } }
    {
        Encryptor {
            cipher: inner,
            iv: *iv,
        }
    }

    ghost iv_size = { C.block_size };
}

impl<C: BlockCipherEncrypt<B> + KeyInit<K>, const K: usize, const B: usize> KeyIvInit<K, B>
    for Encryptor<C, [u8; B]> {
    ghost keyed = { λ key iv. record { cipher = C.keyed key; iv = iv } };

    fn new(key: &[u8; K], iv: &[u8; B]) -> Encryptor<C, [u8; B]>
        ensures value { result ≡ record { cipher = C.keyed key.now; iv = iv.now } }
    {
        Encryptor {
            cipher: C::new(key),
            iv: *iv,
        }
    }

    ghost key_size = { C.key_size };

    ghost iv_size = { C.block_size };
}

impl<C: BlockCipherEncrypt<B>, const B: usize> IvState<B> for Encryptor<C, [u8; B]> {
    ghost iv_of = { λ s. s.iv };

    fn iv_state(&self) -> [u8; B] {
        self.iv
    }
}

impl<C: BlockCipherEncrypt<B>, const B: usize> SetIvState<B> for Encryptor<C, [u8; B]> {
    ghost same_key = { λ s t. s.cipher ≡ t.cipher };

    ghost makes = { run_of (λ s x. let y = C.encrypts s.cipher (xor_bytes x s.iv) in (y, record s { iv = y })) };

    ghost restarted = { λ s iv. record s { iv = iv } };

    fn set_iv(&mut self, iv: &[u8; B]) {
        self.iv = *iv;
    }

    ghost anew = { λ s iv other. refl };

    ghost iv_size = { C.block_size };
}
