//! Counters of 128 bits.

ghost use Rattle.std.proofs.Common.{refl};
ghost use Rattle.std.specs.Prelude.{◌≡◌, ◌%◌};
ghost use Rattle.std.specs.Int.{w128};
ghost use Rattle.ctr.specs.Flavors.{field_size, plus};
ghost use Rattle.ctr.specs.FlavorLaws.{below_field, plus_repeats, plus-plus, length-plus};

use super::chunks::{BlockSizes, WholeChunks};
use super::counted::{CountedNonce, CounterWord};
use super::ends::{FieldEnd, First, Last};
use super::{CtrFlavor, FlavorName};
use std::marker::PhantomData;

/// A nonce of B bytes and a counter of 128 bits.
pub type CtrNonce128<const B: usize> = CountedNonce<u128, [u8; B]>;

/// A counter of 128 bits, added at the end E of a block.
#[derive(Clone, Copy)]
pub struct Ctr128<E> {
    end: PhantomData<E>,
}

/// A counter of 128 bits in the last 16 bytes, high byte first.
pub type Ctr128BE = Ctr128<Last>;

/// A counter of 128 bits in the first 16 bytes, low byte first.
pub type Ctr128LE = Ctr128<First>;

impl<E: FieldEnd, const B: usize> CtrFlavor<B> for Ctr128<E>
where
    BlockSizes: WholeChunks<16, B>,
{
    type CtrNonce = CtrNonce128<B>;

    type Backend = u128;

    const NAME: FlavorName = E::NAME_128;

    ghost NAME = { E.NAME_128 };

    ghost period = { field_size w128 };

    ghost most = { refl };

    ghost plus = { plus E.end w128 };

    ghost repeats = { plus_repeats E.end w128 };

    ghost adds = { plus-plus E.end w128 };

    ghost sized = { λ xs i e. length-plus E.end w128 B xs i ⟦<BlockSizes as WholeChunks<16, B>>⟧.whole.0 e };

    ghost nonce = { λ cn. cn.nonce };

    ghost counter = { λ cn. cn.ctr % field_size w128 };

    ghost within = { λ cn. below_field w128 cn.ctr };

    ghost started = { λ xs. record { ctr = 0; nonce = xs } };

    ghost starts_at = { λ xs. refl };

    ghost starts_at_0 = { λ xs. refl };

    fn remaining(cn: &CtrNonce128<B>) -> Option<usize> {
        cn.ctr.remaining()
    }

    fn next_block(cn: &mut CtrNonce128<B>) -> [u8; B] {
        let block = cn.counter_block::<E>();
        cn.count();
        block
    }

    fn current_block(cn: &CtrNonce128<B>) -> [u8; B] {
        cn.counter_block::<E>()
    }

    fn from_nonce(block: &[u8; B]) -> CtrNonce128<B> {
        CountedNonce::start(block)
    }

    fn set_from_backend(cn: &mut CtrNonce128<B>, v: u128) {
        cn.ctr = v;
    }

    fn as_backend(cn: &CtrNonce128<B>) -> u128 {
        cn.ctr
    }
}
