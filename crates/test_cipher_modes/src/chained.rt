//! The mode of the tests.

ghost use Rattle.std.proofs.Common.{lit<, lit≤, ◌∙◌};
ghost use Rattle.std.proofs.lemmas.List.{length-map};
ghost use Rattle.standards.proofs.ListFacts.{length-xor_bytes};
ghost use Rattle.std.specs.Prelude.{◌≡◌, ◌+◌, ◌%◌, ℕ, List, map, refl, slice_index};
ghost use Rattle.standards.specs.Lists.{xor_bytes};
ghost use Rattle.cipher_modes.specs.Steps.{run_of};

use cipher::{InOut, InnerIvInit, IvState, KeyIvInit, SetIvState};
use cipher_modes::{
    BlockModeDecBackend, BlockModeDecClosure, BlockModeDecrypt, BlockModeEncBackend,
    BlockModeEncClosure, BlockModeEncrypt,
};

/// Cipher block chaining over a cipher that adds the key to each byte of a block of four, three blocks at a time. The way
/// back adds the key too, so that it goes by what the key adds up to 256 with.
#[derive(Drop)]
pub struct Chained {
    key: u8,
    pub(crate) iv: [u8; 4],
}

impl BlockModeEncBackend<4> for Chained {
    ghost step = { λ s x. let y = map (λ b. (b + s.key) % 256) (xor_bytes x s.iv) in (y, record s { iv = y }) };

    ghost lanes = { λ _. 3 };

    fn width(&self) -> usize {
        3
    }

    fn encrypt_block(&mut self, block: &mut InOut<'_, '_, [u8; 4]>) {
        block.xor_in2out(&self.iv);
        add_to_each(&mut *block.output, self.key);
        self.iv = *block.output;
    }

    ghost block_size = { (lit≤ tt, lit< tt) };

    ghost same_width = { λ _ _. refl };
}

impl BlockModeEncrypt<4> for Chained {
    ghost step = { λ s x. let y = map (λ b. (b + s.key) % 256) (xor_bytes x s.iv) in (y, record s { iv = y }) };

    fn encrypt_with_backend<F: BlockModeEncClosure<4>>(&mut self, f: &mut F) {
        f.call(self);
    }

    ghost block_size = { (lit≤ tt, lit< tt) };

    ghost sized = { λ s x e. length-map (xor_bytes x s.iv) (λ b. (b + s.key) % 256) ∙ (length-xor_bytes x s.iv ∙ e) };
}

impl BlockModeDecBackend<4> for Chained {
    ghost step = { λ s x. (xor_bytes (map (λ b. (b + s.key) % 256) x) s.iv, record s { iv = x }) };

    ghost lanes = { λ _. 3 };

    fn width(&self) -> usize {
        3
    }

    fn decrypt_block(&mut self, block: &mut InOut<'_, '_, [u8; 4]>) {
        let next = *block.get_in();
        *block.output = next;
        add_to_each(&mut *block.output, self.key);
        xor_array(&mut *block.output, &self.iv);
        self.iv = next;
    }

    ghost block_size = { (lit≤ tt, lit< tt) };

    ghost same_width = { λ _ _. refl };
}

impl BlockModeDecrypt<4> for Chained {
    ghost step = { λ s x. (xor_bytes (map (λ b. (b + s.key) % 256) x) s.iv, record s { iv = x }) };

    fn decrypt_with_backend<F: BlockModeDecClosure<4>>(&mut self, f: &mut F) {
        f.call(self);
    }

    ghost block_size = { (lit≤ tt, lit< tt) };

    ghost sized = { λ s x e. length-xor_bytes (map (λ b. (b + s.key) % 256) x) s.iv
        ∙ (length-map x (λ b. (b + s.key) % 256) ∙ e) };
}

// adds a number to each byte
fn add_to_each(output: &mut [u8], key: u8)
    ensures { output.new ≡ map (λ x. (x + key) % 256) output.old }
{
    for i in 0..output.len() {
        output[i] = output[i].wrapping_add(key);
    }
}

fn xor_array(output: &mut [u8; 4], iv: &[u8; 4])
    ensures { output.new ≡ xor_bytes output.old iv.now }
{
    let mut place = InOut { output, input: &[] };
    place.xor_in2out(iv);
}

impl KeyIvInit<1, 4> for Chained {
    ghost keyed = { λ key iv. record { key = slice_index key 0; iv = iv } };

    fn new(key: &[u8; 1], iv: &[u8; 4]) -> Chained {
        Chained {
            key: key[0],
            iv: *iv,
        }
    }

    ghost key_size = { (lit≤ tt, lit< tt) };

    ghost iv_size = { (lit≤ tt, lit< tt) };
}

/// A cipher that the mode is made over: it adds the key.
#[derive(Drop)]
pub struct Adding {
    pub(crate) key: u8,
}

impl InnerIvInit<Adding, 4> for Chained {
    ghost with_iv = { λ cipher iv. record { key = cipher.key; iv = iv } };

    fn inner_iv_init(inner: Adding, iv: &[u8; 4]) -> Chained {
        Chained {
            key: inner.key,
            iv: *iv,
        }
    }

    ghost iv_size = { (lit≤ tt, lit< tt) };
}

impl IvState<4> for Chained {
    ghost iv_of = { λ s. s.iv };

    fn iv_state(&self) -> [u8; 4] {
        self.iv
    }
}

impl SetIvState<4> for Chained {
    ghost same_key = { λ s t. s.key ≡ t.key };

    ghost makes = { run_of (λ s x. let y = map (λ b. (b + s.key) % 256) (xor_bytes x s.iv) in
        (y, record s { iv = y })) };

    ghost restarted = { λ s iv. record s { iv = iv } };

    fn set_iv(&mut self, iv: &[u8; 4]) {
        self.iv = *iv;
    }

    ghost anew = { λ s iv other. refl };

    ghost iv_size = { (lit≤ tt, lit< tt) };
}

/// The mode under key 1, from the vector of zeros on.
pub fn encrypter() -> Chained {
    Chained { key: 1, iv: [0; 4] }
}

/// The way back of that.
pub fn decrypter() -> Chained {
    Chained {
        key: 255,
        iv: [0; 4],
    }
}
