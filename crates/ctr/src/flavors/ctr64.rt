//! Counters of 64 bits.

ghost use Rattle.std.proofs.Common.{refl};
ghost use Rattle.std.specs.Prelude.{◌≡◌, ◌%◌};
ghost use Rattle.std.specs.Int.{w64};
ghost use Rattle.ctr.specs.Flavors.{field_size, plus};
ghost use Rattle.ctr.specs.FlavorLaws.{below_field, plus_repeats, plus-plus, length-plus};

use super::chunks::{BlockSizes, WholeChunks};
use super::counted::{CountedNonce, CounterWord};
use super::ends::{FieldEnd, First, Last};
use super::{CtrFlavor, FlavorName};
use std::marker::PhantomData;

/// A nonce of B bytes and a counter of 64 bits.
pub type CtrNonce64<const B: usize> = CountedNonce<u64, [u8; B]>;

/// A counter of 64 bits, added at the end E of a block.
#[derive(Clone, Copy)]
pub struct Ctr64<E> {
    end: PhantomData<E>,
}

/// A counter of 64 bits in the last 8 bytes, high byte first.
pub type Ctr64BE = Ctr64<Last>;

/// A counter of 64 bits in the first 8 bytes, low byte first.
pub type Ctr64LE = Ctr64<First>;

impl<E: FieldEnd, const B: usize> CtrFlavor<B> for Ctr64<E>
where
    BlockSizes: WholeChunks<8, B>,
{
    type CtrNonce = CtrNonce64<B>;

    type Backend = u64;

    const NAME: FlavorName = E::NAME_64;

    ghost NAME = { E.NAME_64 };

    ghost period = { field_size w64 };

    ghost most = { refl };

    ghost plus = { plus E.end w64 };

    ghost repeats = { plus_repeats E.end w64 };

    ghost adds = { plus-plus E.end w64 };

    ghost sized = { λ xs i e. length-plus E.end w64 B xs i ⟦<BlockSizes as WholeChunks<8, B>>⟧.whole.0 e };

    ghost nonce = { λ cn. cn.nonce };

    ghost counter = { λ cn. cn.ctr % field_size w64 };

    ghost within = { λ cn. below_field w64 cn.ctr };

    ghost started = { λ xs. record { ctr = 0; nonce = xs } };

    ghost starts_at = { λ xs. refl };

    ghost starts_at_0 = { λ xs. refl };

    fn remaining(cn: &CtrNonce64<B>) -> Option<usize> {
        cn.ctr.remaining()
    }

    fn next_block(cn: &mut CtrNonce64<B>) -> [u8; B] {
        let block = cn.counter_block::<E>();
        cn.count();
        block
    }

    fn current_block(cn: &CtrNonce64<B>) -> [u8; B] {
        cn.counter_block::<E>()
    }

    fn from_nonce(block: &[u8; B]) -> CtrNonce64<B> {
        CountedNonce::start(block)
    }

    fn set_from_backend(cn: &mut CtrNonce64<B>, v: u64) {
        cn.ctr = v;
    }

    fn as_backend(cn: &CtrNonce64<B>) -> u64 {
        cn.ctr
    }
}
