ghost use Rattle.std.specs.Prelude.{◌≡◌, ◌⊎◌, ◌+◌, ◌-◌, ◌*◌, ◌/◌, ◌<◌, ◌≤◌, ⊤, length, map, slice_index_or};
ghost use Rattle.cipher.specs.Buffers.{pick};
ghost use Rattle.standards.specs.AesKeys.{aes};
ghost use Rattle.standards.specs.AesInverse.{aes_inverse};
ghost use Rattle.aes_block.specs.Ciphers.{IsKeySize};

use crate::blocks::{Decryption, Direction, Encryption};
use crate::decryption::decipher;
use crate::encryption::encipher;
use crate::key_expansion::{expand, round_keys};
use crate::planes::{
    KeyPlanes, decipher_eight, decipher_sixteen, encipher_eight, encipher_sixteen, round_key_planes,
};
use std::alloc::AllocError;
use std::marker::Model;

// The round keys of a key of 16, 24 or 32 bytes and their planes, which contracts see as the key.
#[derive(Drop)]
pub(crate) struct Schedule {
    round_keys: [[u8; 16]; 15],
    planes: [KeyPlanes; 15],
    rounds: usize,
}

impl Model for Schedule {
    ghost use Rattle.std.specs.Prelude.{List, ℕ};
    ghost use Rattle.aes_block.specs.Schedules.{IsHeld, cipher_key};

    ghost Value = { List ℕ };

    ghost view = { λ s. cipher_key s.round_keys s.rounds };

    ghost invariant = { λ s. IsHeld s.round_keys s.planes s.rounds };
}

impl Schedule {
    pub(crate) fn new(key: &[u8]) -> Schedule
        requires { IsKeySize (length key.now) }
        ensures { result ≡ key.now }
    {
        let n = key.len() / 4;
        let rounds = n + 6;
        let words = expand(n, key);
        let round_keys = round_keys(&words, rounds);
        let planes = round_key_planes(&round_keys, rounds);
        Schedule {
            round_keys,
            planes,
            rounds,
        }
    }

    // Encrypts what is read, or, where nothing is read, what stands in the output.
    pub(crate) fn encrypt(&self, output: &mut [u8; 16], input: &[[u8; 16]])
        ensures { output.new ≡ aes self.now (slice_index_or input.now 0 output.old) }
    {
        *output = encipher(&self.round_keys, self.rounds, read(output, input));
    }

    // Decrypts what is read, or, where nothing is read, what stands in the output.
    pub(crate) fn decrypt(&self, output: &mut [u8; 16], input: &[[u8; 16]])
        ensures { output.new ≡ aes_inverse self.now (slice_index_or input.now 0 output.old) }
    {
        *output = decipher(&self.round_keys, self.rounds, read(output, input));
    }
}

impl Direction for Encryption {
    ghost of = { aes };

    fn one(schedule: &Schedule, block: &[u8; 16]) -> [u8; 16] {
        encipher(&schedule.round_keys, schedule.rounds, block)
    }

    fn eight(schedule: &Schedule, blocks: &[[u8; 16]]) -> [[u8; 16]; 8] {
        encipher_eight(&schedule.planes, schedule.rounds, blocks)
    }

    fn sixteen(schedule: &Schedule, blocks: &[[u8; 16]]) -> [[u8; 16]; 16] {
        encipher_sixteen(&schedule.planes, schedule.rounds, blocks)
    }
}

impl Direction for Decryption {
    ghost of = { aes_inverse };

    fn one(schedule: &Schedule, block: &[u8; 16]) -> [u8; 16] {
        decipher(&schedule.round_keys, schedule.rounds, block)
    }

    fn eight(schedule: &Schedule, blocks: &[[u8; 16]]) -> [[u8; 16]; 8] {
        decipher_eight(&schedule.planes, schedule.rounds, blocks)
    }

    fn sixteen(schedule: &Schedule, blocks: &[[u8; 16]]) -> [[u8; 16]; 16] {
        decipher_sixteen(&schedule.planes, schedule.rounds, blocks)
    }
}

fn read<'a>(output: &'a [u8; 16], input: &'a [[u8; 16]]) -> &'a [u8; 16]
    ensures { result.now ≡ slice_index_or input.now 0 output.now }
{
    match input.first() {
        Some(block) => block,
        None => output,
    }
}

impl Clone for Schedule {
    ghost is_clone = { λ s t. t ≡ s };

    ghost is_infallible = { λ _. ⊤ };

    fn clone(&self) -> Result<Schedule, AllocError> {
        Ok(Schedule {
            round_keys: self.round_keys,
            planes: self.planes,
            rounds: self.rounds,
        })
    }
}
