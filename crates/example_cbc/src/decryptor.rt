//! Decryption by cipher block chaining.

ghost use Rattle.std.proofs.Common.{◌∙◌, refl};
ghost use Rattle.std.specs.Prelude.{◌≡◌, ℕ, List};
ghost use Rattle.standards.proofs.ListFacts.{length-xor_bytes};
ghost use Rattle.standards.specs.Lists.{xor_bytes};

use cipher::{BlockCipherDecrypt, InOut, InnerIvInit, KeyInit, KeyIvInit};
use cipher_modes::{BlockModeDecBackend, BlockModeDecClosure, BlockModeDecrypt};

/// A cipher of blocks of B bytes and the block that the next one is added to: the initialization vector, and then the
/// last encrypted block. V is `[u8; B]`.
#[derive(Drop)]
pub struct Decryptor<C, V> {
    cipher: C,
    iv: V,
}

impl<C: BlockCipherDecrypt<B>, const B: usize> BlockModeDecBackend<B> for Decryptor<C, [u8; B]> {
    ghost step = { λ s x. (xor_bytes (C.decrypts s.cipher x) s.iv, record s { iv = x }) };

    ghost lanes = { λ _. 1 };

    fn width(&self) -> usize {
        1
    }

    fn decrypt_block(&mut self, block: &mut InOut<'_, '_, [u8; B]>) {
        let next = *block.get_in();
        *block.output = next;
        self.cipher.decrypt_block(&mut *block.output);
        add_block(&mut *block.output, &self.iv);
        self.iv = next;
    }

    ghost block_size = { C.block_size };

    ghost same_width = { λ _ _. refl };
}

fn add_block<const B: usize>(output: &mut [u8; B], iv: &[u8; B])
    ensures { output.new ≡ xor_bytes output.old iv.now }
{
    let mut place = InOut { output, input: &[] };
    place.xor_in2out(iv);
}

impl<C: BlockCipherDecrypt<B> + Drop, const B: usize> BlockModeDecrypt<B>
    for Decryptor<C, [u8; B]> {
    ghost step = { λ s x. (xor_bytes (C.decrypts s.cipher x) s.iv, record s { iv = x }) };

    fn decrypt_with_backend<F: BlockModeDecClosure<B>>(&mut self, f: &mut F) {
        f.call(self);
    }

    ghost block_size = { C.block_size };

    ghost sized = { λ s x e. length-xor_bytes (C.decrypts s.cipher x) s.iv ∙ C.sized s.cipher x e };
}

impl<C: BlockCipherDecrypt<B> + Drop, const B: usize> InnerIvInit<C, B> for Decryptor<C, [u8; B]> {
    ghost with_iv = { λ cipher iv. record { cipher = cipher; iv = iv } };

    fn inner_iv_init(inner: C, iv: &[u8; B]) -> Decryptor<C, [u8; B]>
        ensures value { result ≡ record { cipher = inner; iv = iv.now } }
    {
        Decryptor {
            cipher: inner,
            iv: *iv,
        }
    }

    ghost iv_size = { C.block_size };
}

impl<C: BlockCipherDecrypt<B> + KeyInit<K>, const K: usize, const B: usize> KeyIvInit<K, B>
    for Decryptor<C, [u8; B]> {
    ghost keyed = { λ key iv. record { cipher = C.keyed key; iv = iv } };

    fn new(key: &[u8; K], iv: &[u8; B]) -> Decryptor<C, [u8; B]>
        ensures value { result ≡ record { cipher = C.keyed key.now; iv = iv.now } }
    {
        Decryptor {
            cipher: C::new(key),
            iv: *iv,
        }
    }

    ghost key_size = { C.key_size };

    ghost iv_size = { C.block_size };
}
