//! A tweakable cipher.

ghost use Rattle.std.proofs.Common.{lit<, lit≤};
ghost use Rattle.std.specs.Prelude.{◌≡◌, ◌+◌, ◌-◌, ◌%◌, ℕ, [], ◌∷◌, refl, slice_index, slice_index_or, length};

use crate::rows;
use crate::rows::Row;
use crate::shifted::negate;
use cipher::{
    BlockCipherDecrypt, BlockCipherEncrypt, InOut, Tweak, TweakBlockCipherDecBackend,
    TweakBlockCipherDecClosure, TweakBlockCipherDecrypt, TweakBlockCipherEncBackend,
    TweakBlockCipherEncClosure, TweakBlockCipherEncrypt, TweakSizeUser, ZeroTweak,
};

// adds the tweak's three bytes to the first three of a block of four
#[derive(Debug, Drop, Clone, Copy)]
pub struct Tweaked;

impl TweakSizeUser<3> for Tweaked {
    ghost tweak_size = { (lit≤ tt, lit< tt) };
}

impl TweakBlockCipherEncBackend<4, 3> for Tweaked {
    ghost encrypts = { λ _ t xs. (slice_index xs 0 + slice_index t 0) % 256 ∷ (slice_index xs 1 + slice_index t 1) % 256
        ∷ (slice_index xs 2 + slice_index t 2) % 256 ∷ slice_index xs 3 ∷ [] };

    fn encrypt_block_inout(&self, tweak: &[u8; 3], block: &mut InOut<'_, '_, [u8; 4]>) {
        add_bytes(&mut *block.output, block.input, tweak);
    }

    ghost block_size = { (lit≤ tt, lit< tt) };

    ghost tweak_size = { (lit≤ tt, lit< tt) };
}

impl TweakBlockCipherEncrypt<4, 3> for Tweaked {
    ghost encrypts = { λ _ t xs. (slice_index xs 0 + slice_index t 0) % 256 ∷ (slice_index xs 1 + slice_index t 1) % 256
        ∷ (slice_index xs 2 + slice_index t 2) % 256 ∷ slice_index xs 3 ∷ [] };

    fn encrypt_with_backend<F: TweakBlockCipherEncClosure<4, 3>>(&self, f: &mut F) {
        f.call(self);
    }

    ghost block_size = { (lit≤ tt, lit< tt) };

    ghost sized = { λ _ _ _ _ _. refl };
}

impl TweakBlockCipherDecBackend<4, 3> for Tweaked {
    ghost decrypts = { λ _ t xs. (slice_index xs 0 + (256 - slice_index t 0) % 256) % 256
        ∷ (slice_index xs 1 + (256 - slice_index t 1) % 256) % 256
        ∷ (slice_index xs 2 + (256 - slice_index t 2) % 256) % 256 ∷ slice_index xs 3 ∷ [] };

    fn decrypt_block_inout(&self, tweak: &[u8; 3], block: &mut InOut<'_, '_, [u8; 4]>) {
        let back = [negate(tweak[0]), negate(tweak[1]), negate(tweak[2])];
        add_bytes(&mut *block.output, block.input, &back);
    }

    ghost block_size = { (lit≤ tt, lit< tt) };

    ghost tweak_size = { (lit≤ tt, lit< tt) };
}

impl TweakBlockCipherDecrypt<4, 3> for Tweaked {
    ghost decrypts = { λ _ t xs. (slice_index xs 0 + (256 - slice_index t 0) % 256) % 256
        ∷ (slice_index xs 1 + (256 - slice_index t 1) % 256) % 256
        ∷ (slice_index xs 2 + (256 - slice_index t 2) % 256) % 256 ∷ slice_index xs 3 ∷ [] };

    fn decrypt_with_backend<F: TweakBlockCipherDecClosure<4, 3>>(&self, f: &mut F) {
        f.call(self);
    }

    ghost block_size = { (lit≤ tt, lit< tt) };

    ghost sized = { λ _ _ _ _ _. refl };
}

fn add_bytes(output: &mut [u8; 4], input: &[[u8; 4]], tweak: &[u8; 3])
    ensures { let xs = slice_index_or input.now 0 output.old in
        output.new ≡ (slice_index xs 0 + slice_index tweak.now 0) % 256
        ∷ (slice_index xs 1 + slice_index tweak.now 1) % 256
        ∷ (slice_index xs 2 + slice_index tweak.now 2) % 256 ∷ slice_index xs 3 ∷ [] }
{
    if let Some(input) = input.first() {
        *output = *input;
    }
    *output = [
        output[0].wrapping_add(tweak[0]),
        output[1].wrapping_add(tweak[1]),
        output[2].wrapping_add(tweak[2]),
        output[3],
    ];
}

const TWEAK: Tweak<3> = [7, 8, 255];

const PLAIN: [u8; 4] = [1, 2, 3, 255];

const ADDED: [u8; 4] = [8, 10, 2, 255];

/// How a block goes, by the cipher or by its backend.
pub enum How {
    There,
    ThereElsewhere,
    ThereByPlaces,
    Back,
    BackElsewhere,
    BackByPlaces,
    BackendThere,
    BackendThereElsewhere,
    BackendBack,
    BackendBackElsewhere,
}

// what a block becomes
fn block_after(c: &Tweaked, tweak: &Tweak<3>, how: &How, from: &[u8; 4]) -> [u8; 4] {
    let mut block = *from;
    match how {
        How::There => TweakBlockCipherEncrypt::encrypt_block(c, tweak, &mut block),
        How::ThereElsewhere => {
            TweakBlockCipherEncrypt::encrypt_block_b2b(c, tweak, &PLAIN, &mut block);
        }
        How::ThereByPlaces => {
            TweakBlockCipherEncrypt::encrypt_block_inout(c, tweak, InOut::from(&mut block));
        }
        How::Back => TweakBlockCipherDecrypt::decrypt_block(c, tweak, &mut block),
        How::BackElsewhere => {
            TweakBlockCipherDecrypt::decrypt_block_b2b(c, tweak, &ADDED, &mut block);
        }
        How::BackByPlaces => {
            let places = InOut::new(&ADDED, &mut block);
            TweakBlockCipherDecrypt::decrypt_block_inout(c, tweak, places);
        }
        How::BackendThere => TweakBlockCipherEncBackend::encrypt_block(c, tweak, &mut block),
        How::BackendThereElsewhere => {
            TweakBlockCipherEncBackend::encrypt_block_b2b(c, tweak, &PLAIN, &mut block);
        }
        How::BackendBack => TweakBlockCipherDecBackend::decrypt_block(c, tweak, &mut block),
        How::BackendBackElsewhere => {
            TweakBlockCipherDecBackend::decrypt_block_b2b(c, tweak, &ADDED, &mut block);
        }
    }
    block
}

fn zero_tweak_adds_nothing(c: &ZeroTweak<Tweaked, 3>) -> bool {
    let mut blocks = [PLAIN; 2];
    c.encrypt_blocks(&mut blocks);
    let there = blocks == [PLAIN; 2];
    c.decrypt_blocks(&mut blocks);
    there && blocks == [PLAIN; 2]
}

/// The cipher without a tweak.
pub fn zero_tweak() -> ZeroTweak<Tweaked, 3> {
    ZeroTweak(Tweaked)
}

/// What is asked.
pub enum Asked {
    // A block that becomes another.
    Block(How, [u8; 4], [u8; 4]),
    Zero,
}

/// Whether it is so.
pub fn holds(asked: &Asked) -> bool {
    match asked {
        Asked::Block(how, from, to) => block_after(&Tweaked, &TWEAK, how, from) == *to,
        Asked::Zero => match zero_tweak().clone() {
            Ok(c) => zero_tweak_adds_nothing(&c),
            Err(_) => false,
        },
    }
}

/// Rows of tweaks.
pub const ROWS: &[Row] = &[
    Row(
        "a tweak added in place",
        rows::Asked::Tweak(Asked::Block(How::There, PLAIN, ADDED)),
    ),
    Row(
        "a tweak added elsewhere",
        rows::Asked::Tweak(Asked::Block(How::ThereElsewhere, [0; 4], ADDED)),
    ),
    Row(
        "a tweak added by places",
        rows::Asked::Tweak(Asked::Block(How::ThereByPlaces, PLAIN, ADDED)),
    ),
    Row(
        "a tweak subtracted in place",
        rows::Asked::Tweak(Asked::Block(How::Back, ADDED, PLAIN)),
    ),
    Row(
        "a tweak subtracted elsewhere",
        rows::Asked::Tweak(Asked::Block(How::BackElsewhere, [0; 4], PLAIN)),
    ),
    Row(
        "a tweak subtracted by places",
        rows::Asked::Tweak(Asked::Block(How::BackByPlaces, [0; 4], PLAIN)),
    ),
    Row(
        "a tweak added by a backend",
        rows::Asked::Tweak(Asked::Block(How::BackendThere, PLAIN, ADDED)),
    ),
    Row(
        "a tweak added elsewhere by a backend",
        rows::Asked::Tweak(Asked::Block(How::BackendThereElsewhere, [0; 4], ADDED)),
    ),
    Row(
        "a tweak subtracted by a backend",
        rows::Asked::Tweak(Asked::Block(How::BackendBack, ADDED, PLAIN)),
    ),
    Row(
        "a tweak subtracted elsewhere by a backend",
        rows::Asked::Tweak(Asked::Block(How::BackendBackElsewhere, [0; 4], PLAIN)),
    ),
    Row("the zero tweak", rows::Asked::Tweak(Asked::Zero)),
];
