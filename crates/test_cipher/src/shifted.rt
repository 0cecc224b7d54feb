//! The cipher of the tests.

ghost use Rattle.std.proofs.Common.{lit<, lit≤, ◌∙◌};
ghost use Rattle.std.proofs.lemmas.List.{length-map};
ghost use Rattle.std.specs.Prelude.{◌≡◌, ◌+◌, ◌-◌, ◌%◌, ℕ, List, map, slice_index, slice_index_or, codes, length};

use cipher::{
    AlgorithmName, BlockCipherDecBackend, BlockCipherDecClosure, BlockCipherDecrypt,
    BlockCipherEncBackend, BlockCipherEncClosure, BlockCipherEncrypt, InOut, KeyInit,
};
use std::fmt;

/// Adds the key to each byte of a block of five, three blocks at a time.
#[derive(Drop)]
pub struct Shift {
    key: u8,
    back: u8,
}

impl KeyInit<1> for Shift {
    ghost keyed = { λ key. record { key = slice_index key 0; back = (256 - slice_index key 0) % 256 } };

    fn new(key: &[u8; 1]) -> Shift {
        Shift {
            key: key[0],
            back: negate(key[0]),
        }
    }

    ghost key_size = { (lit≤ tt, lit< tt) };
}

/// What the number adds up to 256 with.
pub fn negate(key: u8) -> u8
    ensures { result ≡ (256 - key) % 256 }
{
    if key == 0 { 0 } else { 255 - key + 1 }
}

impl AlgorithmName for Shift {
    ghost name = { codes "Shift" };

    fn write_alg_name<W: fmt::Write>(f: &mut fmt::Formatter<W>) -> fmt::Result {
        f.write_str("Shift")
    }
}

impl fmt::Display for Shift {
    fn fmt<W: fmt::Write>(&self, f: &mut fmt::Formatter<W>) -> fmt::Result {
        Self::write_alg_name(f)
    }
}

impl BlockCipherEncBackend<5> for Shift {
    ghost encrypts = { λ c xs. map (λ x. (x + c.key) % 256) xs };

    ghost lanes = { λ _. 3 };

    fn width(&self) -> usize {
        3
    }

    fn encrypt_block(&self, block: &mut InOut<'_, '_, [u8; 5]>) {
        add_key(&mut *block.output, block.input, self.key);
    }

    ghost block_size = { (lit≤ tt, lit< tt) };
}

impl BlockCipherEncrypt<5> for Shift {
    ghost encrypts = { λ c xs. map (λ x. (x + c.key) % 256) xs };

    fn encrypt_with_backend<F: BlockCipherEncClosure<5>>(&self, f: &mut F) {
        f.call(self);
    }

    ghost block_size = { (lit≤ tt, lit< tt) };

    ghost sized = { λ c xs e. length-map xs (λ x. (x + c.key) % 256) ∙ e };
}

impl BlockCipherDecBackend<5> for Shift {
    ghost decrypts = { λ c xs. map (λ x. (x + c.back) % 256) xs };

    ghost lanes = { λ _. 3 };

    fn width(&self) -> usize {
        3
    }

    fn decrypt_block(&self, block: &mut InOut<'_, '_, [u8; 5]>) {
        add_key(&mut *block.output, block.input, self.back);
    }

    ghost block_size = { (lit≤ tt, lit< tt) };
}

impl BlockCipherDecrypt<5> for Shift {
    ghost decrypts = { λ c xs. map (λ x. (x + c.back) % 256) xs };

    fn decrypt_with_backend<F: BlockCipherDecClosure<5>>(&self, f: &mut F) {
        f.call(self);
    }

    ghost block_size = { (lit≤ tt, lit< tt) };

    ghost sized = { λ c xs e. length-map xs (λ x. (x + c.back) % 256) ∙ e };
}

fn add_key(output: &mut [u8; 5], input: &[[u8; 5]], key: u8)
    ensures { output.new ≡ map (λ x. (x + key) % 256) (slice_index_or input.now 0 output.old) }
{
    if let Some(input) = input.first() {
        *output = *input;
    }
    add_to_each(output, key);
}

// adds a number to each byte
fn add_to_each(output: &mut [u8], key: u8)
    ensures { output.new ≡ map (λ x. (x + key) % 256) output.old }
{
    for i in 0..output.len() {
        output[i] = output[i].wrapping_add(key);
    }
}
