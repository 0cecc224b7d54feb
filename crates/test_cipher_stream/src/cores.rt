//! The cores of the tests.

ghost use Rattle.std.proofs.Common.{lit<, lit≤, refl, ◌∙◌};
ghost use Rattle.std.specs.Prelude.{◌≡◌, ℕ, ◌+◌, ◌-◌, ◌%◌, ◌^◌, ◌++◌, List, Some, None, ⊤, replicate, slice_index};
ghost use Rattle.std.specs.Int.{w64, from_le_bytes};
ghost use Rattle.test_cipher_stream.specs.CoreStreams.{mixed_block, mixed, constant, numbers, left_of};

use cipher::KeyIvInit;
use cipher_stream::{
    StreamCipherBackend, StreamCipherClosure, StreamCipherCore, StreamCipherSeekCore,
};

// a core with a counter: its blocks are two numbers, mixed of the key and the block's number, three at a time
#[derive(Clone, Drop)]
pub(crate) struct Mixed {
    pub(crate) key: u64,
    pub(crate) next: u64,
}

fn mixed_block(key: u64, number: u64) -> [u8; 16]
    ensures { result ≡ mixed_block key number }
{
    let b = number ^ 0x4cf5ad432745937f;
    let a = (key ^ 0x87c37b91114253d5).rotate_left(13).wrapping_mul(b);
    let d = b.rotate_left(13).wrapping_mul(a);
    let mut block = [0; 16];
    block[..8].copy_from_slice(&a.to_le_bytes());
    block[8..].copy_from_slice(&d.to_le_bytes());
    block
}

impl KeyIvInit<4, 4> for Mixed {
    ghost keyed = { λ key iv. record { key = from_le_bytes w64 (key ++ iv); next = 0 } };

    fn new(key: &[u8; 4], iv: &[u8; 4]) -> Mixed {
        let mut bytes = [0; 8];
        bytes[..4].copy_from_slice(key);
        bytes[4..].copy_from_slice(iv);
        Mixed {
            key: u64::from_le_bytes(bytes),
            next: 0,
        }
    }

    ghost key_size = { (lit≤ tt, lit< tt) };

    ghost iv_size = { (lit≤ tt, lit< tt) };
}

impl StreamCipherBackend<16> for Mixed {
    ghost keeps = { λ a b. b.key ≡ a.key };

    ghost lanes = { λ _. 3 };

    ghost keystream = { λ c. mixed c.key c.next };

    fn width(&self) -> usize {
        3
    }

    fn gen_ks_block(&mut self, block: &mut [u8; 16]) {
        *block = mixed_block(self.key, self.next);
        self.next = self.next.wrapping_add(1);
    }

    ghost keeps_none = { λ s. refl };

    ghost keeps_both = { λ s t u p q. q ∙ p };

    ghost block_size = { (lit≤ tt, lit< tt) };
}

impl StreamCipherCore<16> for Mixed {
    ghost keystream = { λ c. mixed c.key c.next };

    ghost remaining = { λ c. Some (2 ^ 64 - 1 - c.next) };

    fn remaining_blocks(&self) -> Option<usize> {
        Some((u64::MAX - self.next) as usize)
    }

    fn process_with_backend<F: StreamCipherClosure<16>>(&mut self, f: &mut F) {
        let _before = self.next;
        f.call(self);
        let _after = self.next;
    }

    ghost block_size = { (lit≤ tt, lit< tt) };
}

impl StreamCipherSeekCore<16> for Mixed {
    type Counter = u64;

    ghost remaining_at = { λ n. Some (2 ^ 64 - 1 - n) };

    fn get_block_pos(&self) -> u64 {
        self.next
    }

    fn set_block_pos(&mut self, pos: u64) {
        self.next = pos;
    }

    ghost wraps = { λ c. refl };

    ghost remains = { λ c. refl };
}

// a core without a counter: its blocks are five times the key's byte, eleven at a time. The initialization vector is
// the number of blocks that remain, or 255 where no number does
#[derive(Drop)]
pub(crate) struct Constant {
    byte: u8,
    total: u8,
    used: u64,
}

impl KeyIvInit<1, 1> for Constant {
    ghost keyed = { λ key iv. record { byte = slice_index key 0; total = slice_index iv 0; used = 0 } };

    fn new(key: &[u8; 1], iv: &[u8; 1]) -> Constant {
        Constant {
            byte: key[0],
            total: iv[0],
            used: 0,
        }
    }

    ghost key_size = { (lit≤ tt, lit< tt) };

    ghost iv_size = { (lit≤ tt, lit< tt) };
}

impl StreamCipherBackend<5> for Constant {
    ghost keeps = { λ a b. (b.byte ≡ a.byte) × (b.total ≡ a.total) };

    ghost lanes = { λ _. 11 };

    ghost keystream = { λ c. constant c.byte c.used };

    fn width(&self) -> usize {
        11
    }

    fn gen_ks_block(&mut self, block: &mut [u8; 5]) {
        *block = [self.byte; 5];
        self.used = self.used.wrapping_add(1);
    }

    ghost keeps_none = { λ s. (refl, refl) };

    ghost keeps_both = { λ s t u p q. (q.0 ∙ p.0, q.1 ∙ p.1) };

    ghost block_size = { (lit≤ tt, lit< tt) };
}

impl StreamCipherCore<5> for Constant {
    ghost keystream = { λ c. constant c.byte c.used };

    ghost remaining = { λ c. left_of c.total c.used };

    fn remaining_blocks(&self) -> Option<usize> {
        if self.total == 255 {
            None
        } else {
            Some((self.total as usize).saturating_sub(self.used as usize))
        }
    }

    fn process_with_backend<F: StreamCipherClosure<5>>(&mut self, f: &mut F) {
        let _total = self.total;
        let _before = self.used;
        f.call(self);
        let _after = self.used;
    }

    ghost block_size = { (lit≤ tt, lit< tt) };
}

// a core with a counter of which no number of blocks remains: a block is its number, xor one word
#[derive(Drop)]
pub(crate) struct Numbers {
    pub(crate) next: u32,
}

impl StreamCipherBackend<4> for Numbers {
    ghost keeps = { λ _ _. ⊤ };

    ghost lanes = { λ _. 1 };

    ghost keystream = { λ c. numbers c.next };

    fn width(&self) -> usize {
        1
    }

    fn gen_ks_block(&mut self, block: &mut [u8; 4]) {
        *block = (self.next ^ 0x03020100).to_le_bytes();
        self.next = self.next.wrapping_add(1);
    }

    ghost keeps_none = { λ s. tt };

    ghost keeps_both = { λ s t u p q. tt };

    ghost block_size = { (lit≤ tt, lit< tt) };
}

impl StreamCipherCore<4> for Numbers {
    ghost keystream = { λ c. numbers c.next };

    ghost remaining = { λ _. None };

    fn remaining_blocks(&self) -> Option<usize> {
        None
    }

    fn process_with_backend<F: StreamCipherClosure<4>>(&mut self, f: &mut F) {
        f.call(self);
    }

    ghost block_size = { (lit≤ tt, lit< tt) };
}

impl StreamCipherSeekCore<4> for Numbers {
    type Counter = u32;

    ghost remaining_at = { λ _. None };

    fn get_block_pos(&self) -> u32 {
        self.next
    }

    fn set_block_pos(&mut self, pos: u32) {
        self.next = pos;
    }

    ghost wraps = { λ c. refl };

    ghost remains = { λ c. refl };
}
