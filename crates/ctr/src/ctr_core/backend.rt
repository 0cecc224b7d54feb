//! What a core in counter mode lends to a closure.

ghost use Rattle.std.proofs.Common.{refl, ◌∙◌};
ghost use Rattle.std.specs.Prelude.{◌≡◌, ℕ, ◌+◌, ◌-◌, ◌%◌, ◌<◌, ◌≤◌, List, Some, length, map};
ghost use Rattle.cipher.specs.Transcript.{Transcript, Led};
ghost use Rattle.cipher_stream.specs.Keystream.{Keystream, IsMoved, IsFed, next, stream_of};
ghost use Rattle.ctr.specs.Counter.{counter_stream, counters, IsOfCounters};

use crate::flavors::CtrFlavor;
use cipher::{BlockCipherEncBackend, BlockCipherEncClosure, BlockCipherEncrypt};
use cipher_stream::{StreamCipherBackend, StreamCipherClosure};

// Feeds a closure with the cipher's blocks of the counters that follow.
pub(crate) fn process<C, F, G, const B: usize>(cipher: &C, ctr_nonce: &mut F::CtrNonce, f: &mut G)
where
    C: BlockCipherEncrypt<B>,
    F: CtrFlavor<B>,
    G: StreamCipherClosure<B>,
    ensures kept { G.keeps f.old f.new }
    ensures fed { IsFed G.leads f.old f.new
        (counter_stream (C.encrypts cipher.now) F.plus (F.nonce ctr_nonce.old) F.period (F.counter ctr_nonce.old))
        (counter_stream (C.encrypts cipher.now) F.plus (F.nonce ctr_nonce.new) F.period (F.counter ctr_nonce.new)) }
{
    let mut closure = Closure::<F, G, B> { ctr_nonce, f };
    cipher.encrypt_with_backend(&mut closure);
}

#[derive(Drop)]
struct Closure<'a, F: CtrFlavor<B>, G, const B: usize> {
    ctr_nonce: &'a mut F::CtrNonce,
    f: &'a mut G,
}

impl<F: CtrFlavor<B>, G: StreamCipherClosure<B>, const B: usize> BlockCipherEncClosure<B>
    for Closure<'_, F, G, B> {
    ghost keeps = { λ a b. (b.ctr_nonce.ghost_name ≡ a.ctr_nonce.ghost_name)
        × (b.f.ghost_name ≡ a.f.ghost_name)
        × G.keeps a.f.now b.f.now };

    ghost leads = { λ ts a b. IsOfCounters G.leads ts a.f.now b.f.now
        (counters F.plus (F.nonce a.ctr_nonce.now) F.period (F.counter a.ctr_nonce.now))
        (counters F.plus (F.nonce b.ctr_nonce.now) F.period (F.counter b.ctr_nonce.now)) };

    fn call<K: BlockCipherEncBackend<B>>(&mut self, backend: &K) {
        let mut ctr = Backend::<F, K, B> {
            ctr_nonce: &mut *self.ctr_nonce,
            backend,
        };
        self.f.call(&mut ctr);
    }
}

#[derive(Drop)]
struct Backend<'a, F: CtrFlavor<B>, K, const B: usize> {
    ctr_nonce: &'a mut F::CtrNonce,
    backend: &'a K,
}

impl<F: CtrFlavor<B>, K: BlockCipherEncBackend<B>, const B: usize> StreamCipherBackend<B>
    for Backend<'_, F, K, B> {
    ghost keeps = { λ a b. (b.ctr_nonce.ghost_name ≡ a.ctr_nonce.ghost_name)
        × (F.nonce b.ctr_nonce.now ≡ F.nonce a.ctr_nonce.now)
        × (b.backend ≡ a.backend) };

    ghost lanes = { λ s. K.lanes s.backend.now };

    ghost keystream = { λ s. counter_stream (K.encrypts s.backend.now) F.plus
        (F.nonce s.ctr_nonce.now) F.period (F.counter s.ctr_nonce.now) };

    fn width(&self) -> usize {
        self.backend.width()
    }

    fn gen_ks_block(&mut self, block: &mut [u8; B]) {
        let counter = F::next_block(&mut *self.ctr_nonce);
        encrypt_into(self.backend, &counter, block);
    }

    fn gen_par_ks_blocks(&mut self, blocks: &mut [[u8; B]]) {
        write_counters::<F, B>(&mut *self.ctr_nonce, blocks);
        self.backend.encrypt_par_blocks_inplace(blocks);
    }

    fn gen_tail_blocks(&mut self, blocks: &mut [[u8; B]]) {
        write_counters::<F, B>(&mut *self.ctr_nonce, blocks);
        self.backend.encrypt_tail_blocks_inplace(blocks);
    }

    ghost keeps_none = { λ s. (refl, refl, refl) };

    ghost keeps_both = { λ s t u p q. (q.0 ∙ p.0, q.1 ∙ p.1, q.2 ∙ p.2) };

    ghost block_size = { K.block_size };
}

fn encrypt_into<K: BlockCipherEncBackend<B>, const B: usize>(
    backend: &K,
    counter: &[u8; B],
    block: &mut [u8; B],
)
    ensures { block.new ≡ K.encrypts backend.now counter.now }
{
    *block = *counter;
    backend.encrypt_block_inplace(block);
}

// Writes the counter blocks that follow, and counts them.
fn write_counters<F: CtrFlavor<B>, const B: usize>(
    ctr_nonce: &mut F::CtrNonce,
    blocks: &mut [[u8; B]],
)
    ensures value { blocks.new
        ≡ next (length blocks.old) (counters F.plus (F.nonce ctr_nonce.old) F.period (F.counter ctr_nonce.old)) }
    ensures counter { F.counter ctr_nonce.new ≡ (F.counter ctr_nonce.old + length blocks.old) % F.period }
    ensures same { F.nonce ctr_nonce.new ≡ F.nonce ctr_nonce.old }
{
    'each: for i in 0..blocks.len() {
        blocks[i] = F::next_block(ctr_nonce);
    }
}
