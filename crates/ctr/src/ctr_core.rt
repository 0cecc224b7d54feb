//! Counter mode over a block cipher.

mod backend;

ghost use Rattle.std.specs.Prelude.{◌≡◌, ℕ, ◌+◌, ◌-◌, ◌<◌, ◌++◌, List, Some, codes, length, refl};
ghost use Rattle.std.specs.Fmt.{DisplaysOnOk};
ghost use Rattle.cipher_stream.specs.Keystream.{Keystream, xored_blocks, stream_of};
ghost use Rattle.ctr.specs.Counter.{counter_stream};

use crate::flavors::{CtrFlavor, FlavorOn};
use backend::process;
use cipher::{
    AlgorithmName, BlockCipherEncrypt, InnerIvInit, IvState, KeyInit, KeyIvInit, SetIvState,
};
use cipher_stream::{StreamCipherClosure, StreamCipherCore, StreamCipherSeekCore};
use std::fmt;

/// Counter mode of a flavour over a cipher on blocks of B bytes. Block i of the keystream is the cipher's block of the
/// nonce with i added in its field.
pub type CtrCore<C, F, const B: usize> = CounterCore<C, F, [u8; B]>;

/// A `CtrCore`, by the type of its blocks.
#[derive(Drop)]
pub struct CounterCore<C, F: FlavorOn<N>, N> {
    cipher: C,
    ctr_nonce: F::Nonce,
}

impl<C: BlockCipherEncrypt<B> + Drop, F: CtrFlavor<B>, const B: usize> StreamCipherCore<B>
    for CtrCore<C, F, B> {
    ghost keystream = { λ s. counter_stream (C.encrypts s.cipher) F.plus
        (F.nonce s.ctr_nonce) F.period (F.counter s.ctr_nonce) };

    ghost remaining = { λ s. Some (F.period - 1 - F.counter s.ctr_nonce) };

    fn remaining_blocks(&self) -> Option<usize> {
        F::remaining(&self.ctr_nonce)
    }

    fn process_with_backend<G: StreamCipherClosure<B>>(&mut self, f: &mut G) {
        process::<C, F, G, B>(&self.cipher, &mut self.ctr_nonce, f);
    }

    ghost block_size = { C.block_size };
}

impl<C: BlockCipherEncrypt<B> + Drop, F: CtrFlavor<B>, const B: usize> StreamCipherSeekCore<B>
    for CtrCore<C, F, B> {
    type Counter = F::Backend;

    ghost remaining_at = { λ p. Some (F.period - 1 - p) };

    fn get_block_pos(&self) -> F::Backend {
        F::as_backend(&self.ctr_nonce)
    }

    fn set_block_pos(&mut self, pos: F::Backend) {
        F::set_from_backend(&mut self.ctr_nonce, pos);
    }

    ghost wraps = { λ c. F.most };

    ghost remains = { λ c. refl };
}

impl<C: BlockCipherEncrypt<B> + Drop, F: CtrFlavor<B>, const B: usize> InnerIvInit<C, B>
    for CtrCore<C, F, B> {
    ghost with_iv = { λ cipher iv. record { cipher = cipher; ctr_nonce = F.started iv } };

    fn inner_iv_init(cipher: C, iv: &[u8; B]) -> CtrCore<C, F, B> {
        CounterCore {
            cipher,
            ctr_nonce: F::from_nonce(iv),
        }
    }

    ghost iv_size = { C.block_size };
}

impl<C, F, const K: usize, const B: usize> KeyIvInit<K, B> for CtrCore<C, F, B>
where
    C: KeyInit<K> + BlockCipherEncrypt<B> + Drop,
    F: CtrFlavor<B>,
{
    ghost keyed = { λ key iv. record { cipher = C.keyed key; ctr_nonce = F.started iv } };

    fn new(key: &[u8; K], iv: &[u8; B]) -> CtrCore<C, F, B> {
        CounterCore {
            cipher: C::new(key),
            ctr_nonce: F::from_nonce(iv),
        }
    }

    ghost key_size = { C.key_size };

    ghost iv_size = { C.block_size };
}

impl<C: BlockCipherEncrypt<B> + Drop, F: CtrFlavor<B>, const B: usize> IvState<B>
    for CtrCore<C, F, B> {
    ghost iv_of = { λ s. F.plus (F.nonce s.ctr_nonce) (F.counter s.ctr_nonce) };

    fn iv_state(&self) -> [u8; B] {
        F::current_block(&self.ctr_nonce)
    }
}

impl<C: BlockCipherEncrypt<B> + Drop, F: CtrFlavor<B>, const B: usize> SetIvState<B>
    for CtrCore<C, F, B> {
    ghost same_key = { λ s t. C.encrypts t.cipher ≡ C.encrypts s.cipher };

    ghost makes = { λ s. xored_blocks (stream_of (counter_stream (C.encrypts s.cipher) F.plus
        (F.nonce s.ctr_nonce) F.period (F.counter s.ctr_nonce))) };

    ghost restarted = { λ s iv. record s { ctr_nonce = F.started iv } };

    fn set_iv(&mut self, iv: &[u8; B]) {
        self.ctr_nonce = F::from_nonce(iv);
    }

    ghost anew = { λ s iv other. refl };

    ghost iv_size = { C.block_size };
}

impl<C, F, const B: usize> AlgorithmName for CtrCore<C, F, B>
where
    C: AlgorithmName + BlockCipherEncrypt<B> + Drop,
    F: CtrFlavor<B>,
{
    ghost name = { codes "Ctr" ++ (F.NAME ++ (codes "<" ++ (C.name ++ codes ">"))) };

    fn write_alg_name<W: fmt::Write>(f: &mut fmt::Formatter<W>) -> fmt::Result {
        write_name::<C, F, W, B>(f, ">")
    }
}

impl<C, F, const B: usize> fmt::Debug for CtrCore<C, F, B>
where
    C: AlgorithmName + BlockCipherEncrypt<B> + Drop,
    F: CtrFlavor<B>,
{
    ghost debug_output = { λ _. Some (codes "Ctr" ++ (F.NAME ++ (codes "<" ++ (C.name ++ codes "> { ... }")))) };

    fn fmt<W: fmt::Write>(&self, f: &mut fmt::Formatter<W>) -> fmt::Result {
        write_name::<C, F, W, B>(f, "> { ... }")
    }
}

// Writes the name of a flavour over a cipher, closed by `end`.
fn write_name<C: AlgorithmName, F: CtrFlavor<B>, W: fmt::Write, const B: usize>(
    f: &mut fmt::Formatter<W>,
    end: &str,
) -> fmt::Result
    ensures { DisplaysOnOk W.write_str_gives f.old result
        (Some (codes "Ctr" ++ (F.NAME ++ (codes "<" ++ (C.name ++ end.now))))) f.new }
{
    f.write_str("Ctr")?;
    f.write_str(F::NAME.as_str())?;
    f.write_str("<")?;
    C::write_alg_name(f)?;
    f.write_str(end)
}
