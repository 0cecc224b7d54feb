//! Which keys there are.

ghost use Rattle.std.proofs.Common.{lit≤};
ghost use Rattle.std.specs.Prelude.{◌≤◌};

/// The sizes of keys.
pub enum KeySizes {}

/// AES has keys of N bytes: 16, 24 and 32 have their `impl` here.
pub trait AesKeySize<const N: usize> {
    ghost long: { 4 ≤ N };
}

impl AesKeySize<16> for KeySizes {
    ghost long = { lit≤ tt };
}

impl AesKeySize<24> for KeySizes {
    ghost long = { lit≤ tt };
}

impl AesKeySize<32> for KeySizes {
    ghost long = { lit≤ tt };
}
