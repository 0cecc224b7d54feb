//! A primitive that puts its key behind a text.

ghost use Rattle.std.specs.Prelude.{◌≡◌, ◌≤◌, ◌++◌, drop, length};
ghost use Rattle.test_util.specs.TestKeys.{sealed, unsealed, sealed_told, unsealed_told};

use std::alloc::Global;
use tink_io::{Draws, Kind, TinkError};
use tink_primitives::{Aead, CloneIn, Kinds, Never};
use tink_proto::Bytes;

/// Puts one draw before a text and the key behind it. It keeps nothing secret.
#[derive(Drop)]
pub struct TestAead {
    pub key: Bytes,
}

impl CloneIn for TestAead {
    fn try_clone(&self, alloc: Global) -> Result<Self, TinkError> {
        Ok(TestAead {
            key: self.key.try_clone(alloc)?,
        })
    }
}

fn put_front(out: &mut [u8], front: &[u8; 1])
    requires { 1 ≤ length out.old }
    ensures { out.new ≡ front.now ++ drop 1 out.old }
{
    out[..1].copy_from_slice(front);
}

impl Aead for TestAead {
    ghost encrypts = { λ a text _ draws. sealed a.key text draws };

    ghost decrypts = { λ a input _. unsealed a.key input };

    fn encrypt(
        &self,
        alloc: Global,
        plaintext: &[u8],
        _additional_data: &[u8],
        draws: &mut Draws,
    ) -> Result<Bytes, TinkError> {
        let mut out = vec![in alloc; 0; 1]?;
        out.extend_from_slice(plaintext)?;
        out.extend_from_slice(self.key.as_slice())?;
        let mut front = [0; 1];
        draws.take_into(&mut front)?;
        put_front(&mut out, &front);
        Ok(Bytes::from_vec(out))
    }

    fn decrypt(
        &self,
        alloc: Global,
        ciphertext: &[u8],
        _additional_data: &[u8],
    ) -> Result<Bytes, TinkError> {
        let n = ciphertext.len();
        if n < 17 {
            return Err(TinkError::new(Kind::TooShort));
        }
        if &ciphertext[n - 16..] != self.key.as_slice() {
            return Err(TinkError::new(Kind::DecryptFailed));
        }
        Ok(Bytes::from_vec(ciphertext[1..][..n - 17].to_vec(alloc)?))
    }

    ghost encrypts_told = { λ a text _ draws. sealed_told a.key text draws };

    ghost decrypts_told = { λ a input _. unsealed_told a.key input };
}

/// The family of the test keys: AEADs, and streaming AEADs that stream nothing.
pub struct TestKinds;

impl Kinds for TestKinds {
    type Aead = TestAead;

    type DeterministicAead = Never;

    type HybridDecrypt = Never;

    type HybridEncrypt = Never;

    type Mac = Never;

    type Prf = Never;

    type Signer = Never;

    type StreamingAead = TestAead;

    type Verifier = Never;
}
