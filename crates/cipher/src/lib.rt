//! Traits of block ciphers and tweakable block ciphers, and the buffers that their calls work on.
#![tactic(auto)]

mod blocks;
mod buffers;
pub mod dev;
mod init;
mod tweaks;
mod xor;

pub use blocks::backends::{
    BlockCipherDecBackend, BlockCipherDecClosure, BlockCipherEncBackend, BlockCipherEncClosure,
};
pub use blocks::contexts::{BlockCtx, BlocksCtx};
pub use blocks::{BlockCipherDecrypt, BlockCipherEncrypt};
pub use buffers::{InOut, InOutBuf, InOutBufReserved, NotEqualError, OutIsTooSmallError, part_of};
pub use init::{
    AlgorithmName, InnerIvInit, InvalidLength, IvState, KeyInit, KeyIvInit, SetIvState,
};
pub use tweaks::zero::ZeroTweak;
pub use tweaks::{
    Tweak, TweakBlockCipherDecBackend, TweakBlockCipherDecClosure, TweakBlockCipherDecrypt,
    TweakBlockCipherEncBackend, TweakBlockCipherEncClosure, TweakBlockCipherEncrypt, TweakSizeUser,
};
pub use xor::xor_in_place;

/// A block of B bytes.
pub type Block<const B: usize> = [u8; B];
