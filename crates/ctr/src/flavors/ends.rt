//! The ends of a block, at which a counter is added.

ghost use Rattle.std.specs.Prelude.{◌≡◌, ◌≤◌, List, ℕ, codes, length};
ghost use Rattle.std.specs.Int.{byte_len};
ghost use Rattle.ctr.specs.Flavors.{End, first, last, plus};

use super::FlavorName;
use super::counted::CounterWord;

/// An end of a block.
pub trait FieldEnd {
    /// The name of the flavour with 32 bits at this end.
    const NAME_32: FlavorName;

    ghost NAME_32: { List ℕ };

    /// The name of the flavour with 64 bits at this end.
    const NAME_64: FlavorName;

    ghost NAME_64: { List ℕ };

    /// The name of the flavour with 128 bits at this end.
    const NAME_128: FlavorName;

    ghost NAME_128: { List ℕ };

    ghost end: { End };

    /// Adds a counter in the bytes at this end.
    fn add<W: CounterWord>(block: &mut [u8], ctr: W)
        requires { byte_len W.width ≤ length block.old }
        ensures value { block.new ≡ plus end W.width block.old (W.value ctr) };
}

const NAME_32BE: FlavorName = FlavorName("32BE");

const NAME_64BE: FlavorName = FlavorName("64BE");

const NAME_128BE: FlavorName = FlavorName("128BE");

const NAME_32LE: FlavorName = FlavorName("32LE");

const NAME_64LE: FlavorName = FlavorName("64LE");

const NAME_128LE: FlavorName = FlavorName("128LE");

/// The last bytes, high byte first.
#[derive(Clone, Copy)]
pub enum Last {}

impl FieldEnd for Last {
    const NAME_32: FlavorName = NAME_32BE;

    ghost NAME_32 = { codes "32BE" };

    const NAME_64: FlavorName = NAME_64BE;

    ghost NAME_64 = { codes "64BE" };

    const NAME_128: FlavorName = NAME_128BE;

    ghost NAME_128 = { codes "128BE" };

    ghost end = { last };

    #[tactic(auto, unfolding(crate::specs::Flavors::plus))]
    fn add<W: CounterWord>(block: &mut [u8], ctr: W) {
        let at = block.len() - W::SIZE;
        ctr.add_be(&mut block[at..]);
    }
}

/// The first bytes, low byte first.
#[derive(Clone, Copy)]
pub enum First {}

impl FieldEnd for First {
    const NAME_32: FlavorName = NAME_32LE;

    ghost NAME_32 = { codes "32LE" };

    const NAME_64: FlavorName = NAME_64LE;

    ghost NAME_64 = { codes "64LE" };

    const NAME_128: FlavorName = NAME_128LE;

    ghost NAME_128 = { codes "128LE" };

    ghost end = { first };

    #[tactic(auto, unfolding(crate::specs::Flavors::plus))]
    fn add<W: CounterWord>(block: &mut [u8], ctr: W) {
        ctr.add_le(&mut block[..W::SIZE]);
    }
}
