//! The closure behind the calls on one block under a tweak.

ghost use Rattle.std.specs.Prelude.{◌≡◌, ℕ, slice_index_or};
ghost use Rattle.cipher.specs.TweakContexts.{OneTweakedBlock};

use crate::buffers::InOut;
use crate::tweaks::{
    TweakBlockCipherDecBackend, TweakBlockCipherDecClosure, TweakBlockCipherEncBackend,
    TweakBlockCipherEncClosure,
};

#[derive(Drop)]
pub(crate) struct TweakBlockCtx<'i, 'o, const B: usize, const T: usize> {
    pub(crate) output: &'o mut [u8; B],
    pub(crate) input: &'i [[u8; B]],
    pub(crate) tweak: &'i [u8; T],
}

impl<const B: usize, const T: usize> TweakBlockCipherEncClosure<B, T>
    for TweakBlockCtx<'_, '_, B, T> {
    ghost keeps = { λ a b. b.output.ghost_name ≡ a.output.ghost_name };

    ghost leads = { OneTweakedBlock };

    fn call<K: TweakBlockCipherEncBackend<B, T>>(&mut self, backend: &K) {
        encrypt_one(&mut *self.output, self.input, self.tweak, backend);
    }
}

fn encrypt_one<const B: usize, const T: usize, K: TweakBlockCipherEncBackend<B, T>>(
    output: &mut [u8; B],
    input: &[[u8; B]],
    tweak: &[u8; T],
    backend: &K,
)
    ensures value { output.new ≡ K.encrypts backend.now tweak.now (slice_index_or input.now 0 output.old) }
{
    backend.encrypt_block_inout(tweak, &mut InOut { output, input });
}

impl<const B: usize, const T: usize> TweakBlockCipherDecClosure<B, T>
    for TweakBlockCtx<'_, '_, B, T> {
    ghost keeps = { λ a b. b.output.ghost_name ≡ a.output.ghost_name };

    ghost leads = { OneTweakedBlock };

    fn call<K: TweakBlockCipherDecBackend<B, T>>(&mut self, backend: &K) {
        decrypt_one(&mut *self.output, self.input, self.tweak, backend);
    }
}

fn decrypt_one<const B: usize, const T: usize, K: TweakBlockCipherDecBackend<B, T>>(
    output: &mut [u8; B],
    input: &[[u8; B]],
    tweak: &[u8; T],
    backend: &K,
)
    ensures value { output.new ≡ K.decrypts backend.now tweak.now (slice_index_or input.now 0 output.old) }
{
    backend.decrypt_block_inout(tweak, &mut InOut { output, input });
}
