//! What ciphers, the cores of counter mode and their nonces are called.

use aes_block::{Aes128, Aes192, Aes256};
use cipher::{AlgorithmName, KeyIvInit};
use ctr::{CtrCore, CtrFlavor, flavors};
use std::alloc::{AllocError, Global};
use std::fmt;
use std::fmt::Display;
use std::marker::PhantomData;

// A cipher or a mode, shown by its name.
#[derive(Drop)]
struct Named<C> {
    ciphers: PhantomData<C>,
}

impl<C: AlgorithmName> Display for Named<C> {
    fn fmt<W: fmt::Write>(&self, f: &mut fmt::Formatter<W>) -> fmt::Result {
        C::write_alg_name(f)
    }
}

type Nonce = <flavors::Ctr32LE as CtrFlavor<16>>::CtrNonce;

fn of_type<C>() -> Named<C> {
    Named {
        ciphers: PhantomData,
    }
}

// A copy of a nonce.
fn copied_nonce() -> Result<Nonce, AllocError> {
    <flavors::Ctr32LE as CtrFlavor<16>>::from_nonce(&[0; 16]).clone()
}

type Core = CtrCore<Aes128, flavors::Ctr128BE, 16>;

/// The names. `Debug` shows the last two.
pub const NAMES: &str =
    "Aes128; Aes192; Aes256; Ctr128BE<Aes128>; Ctr128BE<Aes128> { ... }; CtrNonce32 { ... }";

/// Whether the names of the ciphers and of a core, and how `Debug` shows that core and a nonce, are `NAMES`.
pub fn are_shown(alloc: Global) -> Result<bool, AllocError> {
    let nonce = copied_nonce()?;
    let shown = format!(in alloc;
        "{}; {}; {}; {}; {:?}; {:?}",
        of_type::<Aes128>(),
        of_type::<Aes192>(),
        of_type::<Aes256>(),
        of_type::<Core>(),
        Core::new(&[0; 16], &[0; 16]),
        nonce
    )?;
    Ok(shown.as_str() == NAMES)
}
