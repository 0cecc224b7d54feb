// A hasher under any of the hashes, which takes a message piece by piece and can be copied on its way.
ghost use Rattle.std.specs.Prelude.{◌≡◌, ◌++◌, ℕ, List, [], ⊤, take};
ghost use Rattle.hash_keys.specs.Hash.{digest_size, hash_of};

use crate::{Hash, MAX_DIGEST};
use sha1::Sha1;
use sha2::{Digest, Sha224, Sha256, Sha384, Sha512};
use std::alloc::AllocError;

#[derive(Drop)]
pub(crate) enum Hasher {
    Sha1(Sha1),
    Sha224(Sha224),
    Sha256(Sha256),
    Sha384(Sha384),
    Sha512(Sha512),
}

impl Hasher {
    ghost use Rattle.hash_keys.specs.Hashers.{Holds};

    // That of the empty message.
    pub(crate) fn new(h: Hash) -> Hasher
        ensures { Holds h result [] }
    {
        match h {
            Hash::Sha1 => Hasher::Sha1(Sha1::new()),
            Hash::Sha224 => Hasher::Sha224(Sha224::new()),
            Hash::Sha256 => Hasher::Sha256(Sha256::new()),
            Hash::Sha384 => Hasher::Sha384(Sha384::new()),
            Hash::Sha512 => Hasher::Sha512(Sha512::new()),
        }
    }

    // Adds bytes to the message.
    pub(crate) fn update(&mut self, bytes: &[u8])
        ensures { (h : Hash) (m : List ℕ) → Holds h self.old m → Holds h self.new (m ++ bytes.now) }
    {
        match self {
            Hasher::Sha1(hasher) => hasher.update(bytes),
            Hasher::Sha224(hasher) => hasher.update(bytes),
            Hasher::Sha256(hasher) => hasher.update(bytes),
            Hasher::Sha384(hasher) => hasher.update(bytes),
            Hasher::Sha512(hasher) => hasher.update(bytes),
        }
    }

    // The digest of the message, as a prefix of the result.
    pub(crate) fn finalize(self) -> [u8; MAX_DIGEST]
        ensures { (h : Hash) (m : List ℕ) → Holds h self m → take (digest_size h) result ≡ hash_of h m }
    {
        let mut out = [0u8; MAX_DIGEST];
        match self {
            Hasher::Sha1(hasher) => out[..20].copy_from_slice(&hasher.finalize()),
            Hasher::Sha224(hasher) => out[..28].copy_from_slice(&hasher.finalize()),
            Hasher::Sha256(hasher) => out[..32].copy_from_slice(&hasher.finalize()),
            Hasher::Sha384(hasher) => out[..48].copy_from_slice(&hasher.finalize()),
            Hasher::Sha512(hasher) => out.copy_from_slice(&hasher.finalize()),
        }
        out
    }
}

impl Clone for Hasher {
    ghost is_clone = { λ x y. y ≡ x };

    ghost is_infallible = { λ _. ⊤ };

    fn clone(&self) -> Result<Hasher, AllocError> {
        Ok(match self {
            Hasher::Sha1(hasher) => Hasher::Sha1(hasher.clone()?),
            Hasher::Sha224(hasher) => Hasher::Sha224(hasher.clone()?),
            Hasher::Sha256(hasher) => Hasher::Sha256(hasher.clone()?),
            Hasher::Sha384(hasher) => Hasher::Sha384(hasher.clone()?),
            Hasher::Sha512(hasher) => Hasher::Sha512(hasher.clone()?),
        })
    }
}

// A hasher that holds the same.
pub(crate) fn copy_of(hasher: &Hasher) -> Hasher
    ensures { result ≡ hasher.now }
{
    match hasher.clone() {
        Ok(copy) => copy,
        Err(_) => unreachable!(),
    }
}
