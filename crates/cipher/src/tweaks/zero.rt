//! A tweakable block cipher under the tweak of zeros.

ghost use Rattle.std.specs.Prelude.{◌≡◌, ℕ, replicate, IsOk, IfOk};
ghost use Rattle.std.proofs.lemmas.List.{length-replicate};
ghost use Rattle.cipher.specs.Transcript.{Block, Led};
ghost use Rattle.cipher.specs.TweakContexts.{UnderTweak};

use crate::blocks::backends::{
    BlockCipherDecBackend, BlockCipherDecClosure, BlockCipherEncBackend, BlockCipherEncClosure,
};
use crate::blocks::{BlockCipherDecrypt, BlockCipherEncrypt};
use crate::buffers::InOut;
use crate::tweaks::{
    TweakBlockCipherDecBackend, TweakBlockCipherDecClosure, TweakBlockCipherDecrypt,
    TweakBlockCipherEncBackend, TweakBlockCipherEncClosure, TweakBlockCipherEncrypt,
};
use std::alloc::AllocError;

/// A tweakable block cipher as a block cipher: its tweak of T bytes is all zeros.
#[derive(Debug, Drop)]
pub struct ZeroTweak<C, const T: usize>(pub C);

impl<C: Clone, const T: usize> ZeroTweak<C, T> {
    /// An equal value, if the inner cipher's clone is equal to it.
    ///
    /// # Errors
    /// `AllocError` of the inner cipher's clone. If that always succeeds, so does this call.
    pub fn clone(&self) -> Result<Self, AllocError>
        requires { (c : C) → C.is_clone self.now.0 c → c ≡ self.now.0 }
        ensures value { IfOk result (λ other. other ≡ self.now) }
        ensures succeeds { C.is_infallible self.now.0 → IsOk result }
    {
        Ok(ZeroTweak(self.0.clone()?))
    }
}

impl<C: TweakBlockCipherEncrypt<B, T>, const B: usize, const T: usize> BlockCipherEncrypt<B>
    for ZeroTweak<C, T> {
    ghost encrypts = { λ c. C.encrypts c.0 (replicate T 0) };

    fn encrypt_with_backend<F: BlockCipherEncClosure<B>>(&self, f: &mut F) {
        let mut wrapper = ClosureWrapper { f };
        self.0.encrypt_with_backend(&mut wrapper);
    }

    ghost block_size = { C.block_size };

    ghost sized = { λ c x. C.sized c.0 (replicate T 0) x (length-replicate T 0) };
}

impl<C: TweakBlockCipherDecrypt<B, T>, const B: usize, const T: usize> BlockCipherDecrypt<B>
    for ZeroTweak<C, T> {
    ghost decrypts = { λ c. C.decrypts c.0 (replicate T 0) };

    fn decrypt_with_backend<F: BlockCipherDecClosure<B>>(&self, f: &mut F) {
        let mut wrapper = ClosureWrapper { f };
        self.0.decrypt_with_backend(&mut wrapper);
    }

    ghost block_size = { C.block_size };

    ghost sized = { λ c x. C.sized c.0 (replicate T 0) x (length-replicate T 0) };
}

// a closure on blocks, asked to work under the tweak of zeros
#[derive(Drop)]
struct ClosureWrapper<'f, F> {
    f: &'f mut F,
}

// a tweakable backend under the tweak of zeros
#[derive(Drop)]
struct BackendWrapper<'k, K, const T: usize> {
    backend: &'k K,
}

impl<F: BlockCipherEncClosure<B>, const B: usize, const T: usize> TweakBlockCipherEncClosure<B, T>
    for ClosureWrapper<'_, F> {
    ghost keeps = { λ a b. (b.f.ghost_name ≡ a.f.ghost_name) × F.keeps a.f.now b.f.now };

    ghost leads = { λ ts a b. UnderTweak (replicate T 0) F.leads ts a.f.now b.f.now };

    fn call<K: TweakBlockCipherEncBackend<B, T>>(&mut self, backend: &K) {
        self.f.call(&BackendWrapper::<K, T> { backend });
    }
}

impl<K: TweakBlockCipherEncBackend<B, T>, const B: usize, const T: usize> BlockCipherEncBackend<B>
    for BackendWrapper<'_, K, T> {
    ghost encrypts = { λ w. K.encrypts w.backend.now (replicate T 0) };

    ghost lanes = { λ _. 1 };

    fn width(&self) -> usize {
        1
    }

    fn encrypt_block(&self, block: &mut InOut<'_, '_, [u8; B]>) {
        self.backend.encrypt_block_inout(&[0; T], block);
    }

    ghost block_size = { K.block_size };
}

impl<F: BlockCipherDecClosure<B>, const B: usize, const T: usize> TweakBlockCipherDecClosure<B, T>
    for ClosureWrapper<'_, F> {
    ghost keeps = { λ a b. (b.f.ghost_name ≡ a.f.ghost_name) × F.keeps a.f.now b.f.now };

    ghost leads = { λ ts a b. UnderTweak (replicate T 0) F.leads ts a.f.now b.f.now };

    fn call<K: TweakBlockCipherDecBackend<B, T>>(&mut self, backend: &K) {
        self.f.call(&BackendWrapper::<K, T> { backend });
    }
}

impl<K: TweakBlockCipherDecBackend<B, T>, const B: usize, const T: usize> BlockCipherDecBackend<B>
    for BackendWrapper<'_, K, T> {
    ghost decrypts = { λ w. K.decrypts w.backend.now (replicate T 0) };

    ghost lanes = { λ _. 1 };

    fn width(&self) -> usize {
        1
    }

    fn decrypt_block(&self, block: &mut InOut<'_, '_, [u8; B]>) {
        self.backend.decrypt_block_inout(&[0; T], block);
    }

    ghost block_size = { K.block_size };
}
