//! Counters of 32 bits.

ghost use Rattle.std.proofs.Common.{refl};
ghost use Rattle.std.specs.Prelude.{◌≡◌, ◌%◌};
ghost use Rattle.std.specs.Int.{w32};
ghost use Rattle.ctr.specs.Flavors.{field_size, plus};
ghost use Rattle.ctr.specs.FlavorLaws.{below_field, plus_repeats, plus-plus, length-plus};

use super::chunks::{BlockSizes, WholeChunks};
use super::counted::{CountedNonce, CounterWord};
use super::ends::{FieldEnd, First, Last};
use super::{CtrFlavor, FlavorName};
use std::marker::PhantomData;

/// A nonce of B bytes and a counter of 32 bits.
pub type CtrNonce32<const B: usize> = CountedNonce<u32, [u8; B]>;

/// A counter of 32 bits, added at the end E of a block.
#[derive(Clone, Copy)]
pub struct Ctr32<E> {
    end: PhantomData<E>,
}

/// A counter of 32 bits in the last 4 bytes, high byte first.
pub type Ctr32BE = Ctr32<Last>;

/// A counter of 32 bits in the first 4 bytes, low byte first.
pub type Ctr32LE = Ctr32<First>;

impl<E: FieldEnd, const B: usize> CtrFlavor<B> for Ctr32<E>
where
    BlockSizes: WholeChunks<4, B>,
{
    type CtrNonce = CtrNonce32<B>;

    type Backend = u32;

    const NAME: FlavorName = E::NAME_32;

    ghost NAME = { E.NAME_32 };

    ghost period = { field_size w32 };

    ghost most = { refl };

    ghost plus = { plus E.end w32 };

    ghost repeats = { plus_repeats E.end w32 };

    ghost adds = { plus-plus E.end w32 };

    ghost sized = { λ xs i e. length-plus E.end w32 B xs i ⟦<BlockSizes as WholeChunks<4, B>>⟧.whole.0 e };

    ghost nonce = { λ cn. cn.nonce };

    ghost counter = { λ cn. cn.ctr % field_size w32 };

    ghost within = { λ cn. below_field w32 cn.ctr };

    ghost started = { λ xs. record { ctr = 0; nonce = xs } };

    ghost starts_at = { λ xs. refl };

    ghost starts_at_0 = { λ xs. refl };

    fn remaining(cn: &CtrNonce32<B>) -> Option<usize> {
        cn.ctr.remaining()
    }

    fn next_block(cn: &mut CtrNonce32<B>) -> [u8; B] {
        let block = cn.counter_block::<E>();
        cn.count();
        block
    }

    fn current_block(cn: &CtrNonce32<B>) -> [u8; B] {
        cn.counter_block::<E>()
    }

    fn from_nonce(block: &[u8; B]) -> CtrNonce32<B> {
        CountedNonce::start(block)
    }

    fn set_from_backend(cn: &mut CtrNonce32<B>, v: u32) {
        cn.ctr = v;
    }

    fn as_backend(cn: &CtrNonce32<B>) -> u32 {
        cn.ctr
    }
}
