//! Requests to an AEAD, and whether it fulfils them.

use std::alloc::Global;
use test_util::{draws_of, gives, kind_of};
use tink_io::{Kind, TinkError};
use tink_primitives::{Aead, CloneIn};

/// Data, a text, and what it is encrypted to.
pub struct Sealed {
    pub data: &'static [u8],
    pub text: &'static [u8],
    pub sealed: &'static [u8],
}

/// A request to an AEAD.
pub enum Asked {
    /// To encrypt the text by the first encrypted bytes, this number of them, as draws. This number of them is left.
    Encrypt(usize, usize),
    /// To decrypt the encrypted bytes without this number of the last ones, with that data or their own, to the text.
    Decrypt(usize, Option<&'static [u8]>),
    /// To decrypt these bytes with that data, to nothing.
    Open(&'static [u8], &'static [u8]),
    /// To encrypt the text by the encrypted bytes as draws, and to decrypt it, by a copy and by a prepared one.
    Copy,
    /// To refuse them by this kind with a bit changed at each place.
    Changes(Kind),
}

fn encrypts<A: Aead>(
    alloc: Global,
    aead: &A,
    of: &Sealed,
    n: usize,
    left: usize,
) -> Result<bool, TinkError> {
    let mut draws = draws_of(alloc, &of.sealed[..of.sealed.len().min(n)])?;
    let sealed = aead.encrypt(alloc, of.text, of.data, &mut draws);
    if draws.left() == left {
        gives(sealed, of.sealed)
    } else {
        Ok(false)
    }
}

fn serves<A: Aead>(alloc: Global, aead: &A, of: &Sealed) -> Result<bool, TinkError> {
    let mut draws = draws_of(alloc, of.sealed)?;
    let sealed = aead.encrypt(alloc, of.text, of.data, &mut draws);
    if !gives(sealed, of.sealed)? {
        return Ok(false);
    }
    gives(aead.decrypt(alloc, of.sealed, of.data), of.text)
}

fn copy_serves<A: Aead + CloneIn>(alloc: Global, aead: &A, of: &Sealed) -> Result<bool, TinkError> {
    match aead.try_clone(alloc) {
        Ok(copy) => serves(alloc, &copy, of),
        Err(e) => Err(e),
    }
}

fn prepared_serves<A: Aead + CloneIn>(
    alloc: Global,
    aead: &A,
    of: &Sealed,
) -> Result<bool, TinkError> {
    match aead.try_prepared(alloc) {
        Ok(prepared) => serves(alloc, &prepared, of),
        Err(e) => Err(e),
    }
}

fn refuses_change<A: Aead>(
    alloc: Global,
    aead: &A,
    of: &Sealed,
    i: usize,
    kind: Kind,
) -> Result<bool, TinkError> {
    let mut changed = of.sealed.to_vec(alloc)?;
    if let Some(byte) = changed.get_mut(i) {
        *byte ^= 1 << (i % 8);
    }
    Ok(kind_of(aead.decrypt(alloc, &changed, of.data)) == Some(kind))
}

fn refuses_changes<A: Aead>(
    alloc: Global,
    aead: &A,
    of: &Sealed,
    kind: Kind,
) -> Result<bool, TinkError> {
    for i in 0..of.sealed.len() {
        if !refuses_change(alloc, aead, of, i, kind)? {
            return Ok(false);
        }
    }
    Ok(true)
}

// Whether an AEAD does what is asked, or how it refuses.
fn does<A: Aead + CloneIn>(
    alloc: Global,
    aead: &A,
    of: &Sealed,
    asked: &Asked,
) -> Result<bool, TinkError> {
    match asked {
        Asked::Encrypt(n, left) => encrypts(alloc, aead, of, *n, *left),
        Asked::Decrypt(less, data) => {
            let input = &of.sealed[..of.sealed.len().saturating_sub(*less)];
            let data = match data {
                Some(data) => *data,
                None => of.data,
            };
            gives(aead.decrypt(alloc, input, data), of.text)
        }
        Asked::Open(input, data) => gives(aead.decrypt(alloc, input, data), b""),
        Asked::Copy => {
            let first = copy_serves(alloc, aead, of)?;
            Ok(first && prepared_serves(alloc, aead, of)?)
        }
        Asked::Changes(kind) => refuses_changes(alloc, aead, of, *kind),
    }
}

/// The same of what was made, or how it was not.
pub fn does_if_made<A: Aead + CloneIn>(
    alloc: Global,
    made: Result<A, TinkError>,
    of: &Sealed,
    asked: &Asked,
) -> Result<bool, TinkError> {
    match made {
        Ok(aead) => does(alloc, &aead, of, asked),
        Err(e) => Err(e),
    }
}
