//! How ciphers are made from keys and initialization vectors, and what they are called.

ghost use Rattle.std.specs.Prelude.{◌≡◌, ◌↔◌, ℕ, ◌<◌, ◌≤◌, List, Some, IsOk, IfOk, length};
ghost use Rattle.std.specs.Fmt.{DisplaysOnOk};

use std::fmt;

/// A key, an initialization vector or a part of them that has another length than the cipher wants.
#[derive(Clone, Copy, Debug, PartialEq, Eq)]
pub struct InvalidLength;

impl fmt::Display for InvalidLength {
    ghost use Rattle.std.specs.Prelude.{Some, codes};

    ghost output = { λ _. Some (codes "Invalid Length") };

    fn fmt<W: fmt::Write>(&self, f: &mut fmt::Formatter<W>) -> fmt::Result {
        f.write_str("Invalid Length")
    }
}

impl std::error::Error for InvalidLength {}

/// A cipher that is made from a key of K bytes, K being from 1 to 255.
pub trait KeyInit<const K: usize>: Sized {
    // the cipher under this key
    ghost keyed: { List ℕ → Self };

    /// The cipher under a key.
    fn new(key: &[u8; K]) -> Self
        ensures value { result ≡ keyed key.now };

    ghost key_size: { (1 ≤ K) × (K < 256) };

    /// The cipher under a key.
    ///
    /// # Errors
    /// `InvalidLength` exactly if the key has not K bytes.
    final fn new_from_slice(key: &[u8]) -> Result<Self, InvalidLength>
        ensures ok { IsOk result ↔ (length key.now ≡ K) }
        ensures value { IfOk result (λ cipher. cipher ≡ keyed key.now) }
    {
        match <&[u8; K]>::try_from(key) {
            Ok(key) => Ok(Self::new(key)),
            Err(_) => Err(InvalidLength),
        }
    }
}

/// A cipher that is made from a key of K bytes and an initialization vector of I bytes.
pub trait KeyIvInit<const K: usize, const I: usize>: Sized {
    // the cipher under this key and this initialization vector
    ghost keyed: { List ℕ → List ℕ → Self };

    /// The cipher under a key and an initialization vector.
    fn new(key: &[u8; K], iv: &[u8; I]) -> Self
        ensures value { result ≡ keyed key.now iv.now };

    ghost key_size: { (1 ≤ K) × (K < 256) };

    ghost iv_size: { (1 ≤ I) × (I < 256) };

    /// The cipher under a key and an initialization vector.
    ///
    /// # Errors
    /// `InvalidLength` exactly if the key has not K bytes or the initialization vector not I.
    final fn new_from_slices(key: &[u8], iv: &[u8]) -> Result<Self, InvalidLength>
        ensures ok { IsOk result ↔ ((length key.now ≡ K) × (length iv.now ≡ I)) }
        ensures value { IfOk result (λ cipher. cipher ≡ keyed key.now iv.now) }
    {
        match (<&[u8; K]>::try_from(key), <&[u8; I]>::try_from(iv)) {
            (Ok(key), Ok(iv)) => Ok(Self::new(key, iv)),
            _ => Err(InvalidLength),
        }
    }
}

/// A mode that is made from a cipher and an initialization vector of I bytes.
pub trait InnerIvInit<C: Drop, const I: usize>: Sized {
    // the mode over this cipher from this initialization vector on
    ghost with_iv: { C → List ℕ → Self };

    /// The mode over a cipher.
    fn inner_iv_init(inner: C, iv: &[u8; I]) -> Self
        ensures value { result ≡ with_iv inner iv.now };

    ghost iv_size: { (1 ≤ I) × (I < 256) };

    /// The mode over a cipher.
    ///
    /// # Errors
    /// `InvalidLength` exactly if the initialization vector has not I bytes.
    final fn inner_iv_slice_init(inner: C, iv: &[u8]) -> Result<Self, InvalidLength>
        ensures ok { IsOk result ↔ (length iv.now ≡ I) }
        ensures value { IfOk result (λ mode. mode ≡ with_iv inner iv.now) }
    {
        match <&[u8; I]>::try_from(iv) {
            Ok(iv) => Ok(Self::inner_iv_init(inner, iv)),
            Err(_) => Err(InvalidLength),
        }
    }
}

/// A mode whose state is an initialization vector of I bytes.
pub trait IvState<const I: usize> {
    // the initialization vector from which a new value goes on as this one does
    ghost iv_of: { Self → List ℕ };

    /// The initialization vector of this state. Where a state can be set (`SetIvState`), a value under the same key
    /// goes on from it as this one does.
    fn iv_state(&self) -> [u8; I]
        ensures value { result ≡ iv_of self.now };
}

/// A mode whose state can be set.
pub trait SetIvState<const I: usize>: IvState<I> {
    // both are under one key
    ghost same_key: { Self → Self → Type 0 };

    // what a value makes of the blocks that follow
    ghost makes: { Self → List (List ℕ) → List (List ℕ) };

    // the value under the same key that begins at an initialization vector
    ghost restarted: { Self → List ℕ → Self };

    /// Sets the state: under the `iv_state` of a value with the same key it makes that one's next blocks.
    /// Nothing is left of a vector that was set before.
    fn set_iv(&mut self, iv: &[u8; I])
        ensures restarts { self.new ≡ restarted self.old iv.now }
        ensures kept { same_key self.old self.new }
        ensures resumes { (other : Self) → same_key self.old other → iv.now ≡ Self.iv_of other
            → (blocks : List (List ℕ)) → makes self.new blocks ≡ makes other blocks };

    // nothing is left of what was set before
    ghost anew: { (s : Self) (iv other : List ℕ) → restarted (restarted s other) iv ≡ restarted s iv };

    ghost iv_size: { (1 ≤ I) × (I < 256) };
}

/// A cipher or mode that has a name.
pub trait AlgorithmName {
    // the bytes of the name
    ghost name: { List ℕ };

    /// Writes the name.
    ///
    /// # Errors
    /// That of the formatter.
    fn write_alg_name<W: fmt::Write>(f: &mut fmt::Formatter<W>) -> fmt::Result
        ensures writes { DisplaysOnOk W.write_str_gives f.old result (Some name) f.new };
}
