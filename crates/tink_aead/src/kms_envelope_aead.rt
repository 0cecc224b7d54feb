//! Envelope encryption: each text by a new data key, which a remote key encrypts.

ghost use Rattle.std.specs.Prelude.{◌≡◌, length, IfOk, IfErr, MatchResult, Ok, Err};
ghost use Rattle.std.specs.Int.{w32, from_be_bytes};
ghost use Rattle.tink_io.specs.Answering.{Answers, Replies, and_then};
ghost use Rattle.tink_io.specs.declared.error.Kind.TheVariants.{OutOfMemory};
ghost use Rattle.tink_aead.specs.Envelope.{by_key_bytes, data_key_aead, enveloped, envelope_parts};
ghost use Rattle.tink_aead.specs.EnvelopeLaws.{EnvelopeUndoes};

use std::alloc::Global;
use tink_io::{Draws, Kind, TinkError};
use tink_primitives::{Aead, CloneIn, Kinds};
use tink_proto::wire::Message;
use tink_proto::{Bytes, KeyTemplate};
use tink_registry::{KeyManager, Registry};

/// The version of keys of this type.
pub const KMS_ENVELOPE_AEAD_KEY_VERSION: u32 = 0;

/// The URL of keys of this type.
pub const KMS_ENVELOPE_AEAD_TYPE_URL: &str =
    "type.googleapis.com/google.crypto.tink.KmsEnvelopeAeadKey";

// The bytes of the length of an encrypted data key.
const LEN_DEK: usize = 4;

// More bytes than a length of four bytes counts.
const TOO_LONG: usize = 1 << 32;

/// An AEAD by a remote one. Its ciphertext has three parts. They are the length of an encrypted data key in
/// four bytes, high byte first, this encrypted key, and the text encrypted by the key. Each text has a new
/// data key, by a template of the registry's.
#[derive(Drop)]
pub struct KmsEnvelopeAead<'r, A, M> {
    dek_template: KeyTemplate,
    remote: A,
    registry: &'r Registry<M>,
}

impl<'r, A: Aead + Drop, M: KeyManager> KmsEnvelopeAead<'r, A, M> {
    /// The AEAD by a template of data keys, the remote AEAD that encrypts them, and the registry
    /// that makes and builds them.
    pub fn new(kt: KeyTemplate, remote: A, registry: &'r Registry<M>) -> KmsEnvelopeAead<'r, A, M>
        ensures template { result.dek_template ≡ kt }
        ensures remote { result.remote ≡ remote }
        ensures registry { result.registry.now ≡ registry.entry.now }
    {
        KmsEnvelopeAead {
            dek_template: kt,
            remote,
            registry,
        }
    }
}

impl<A: CloneIn, M> CloneIn for KmsEnvelopeAead<'_, A, M> {
    fn try_clone(&self, alloc: Global) -> Result<Self, TinkError> {
        let remote = self.remote.try_clone(alloc)?;
        Ok(KmsEnvelopeAead {
            dek_template: same_template(alloc, &self.dek_template)?,
            remote,
            registry: self.registry,
        })
    }
}

/// An equal template.
///
/// # Errors
/// `OutOfMemory` alone.
pub fn same_template(alloc: Global, kt: &KeyTemplate) -> Result<KeyTemplate, TinkError>
    ensures value { IfOk result (λ copy. copy ≡ kt.now) }
    ensures cause { IfErr result (λ e. e.kind ≡ OutOfMemory) }
{
    match kt.try_clone(alloc) {
        Ok(copy) => Ok(copy),
        Err(_) => Err(TinkError::new(Kind::OutOfMemory)),
    }
}

// The AEAD of a data key's bytes.
fn data_key_aead<M: KeyManager>(
    alloc: Global,
    registry: &Registry<M>,
    kt: &KeyTemplate,
    dek: &Bytes,
) -> Result<<M::Family as Kinds>::Aead, TinkError>
    ensures { Answers result (data_key_aead M.url M.builds registry.now.managers kt.now.type_url dek.now) }
{
    match registry.primitive(alloc, kt.type_url.as_str(), dek.as_slice()) {
        Ok(primitive) => primitive.into_aead(),
        Err(e) => Err(e),
    }
}

// The length of an encrypted data key, that key, and what it encrypts.
fn envelope_of(alloc: Global, encrypted_dek: &Bytes, payload: &Bytes) -> Result<Bytes, TinkError>
    ensures { Answers result (enveloped encrypted_dek.now payload.now) }
{
    let encrypted_dek = encrypted_dek.as_slice();
    if encrypted_dek.len() >= TOO_LONG {
        return Err(TinkError::new(Kind::LengthOverU32));
    }
    let size = encrypted_dek.len() as u32;
    let mut out = size.to_be_bytes().to_vec(alloc)?;
    out.extend_from_slice(encrypted_dek)?;
    out.extend_from_slice(payload.as_slice())?;
    Ok(Bytes::from_vec(out))
}

// What a data key encrypts of a text, behind the encrypted key.
fn encrypt_by_key<M: KeyManager>(
    alloc: Global,
    registry: &Registry<M>,
    kt: &KeyTemplate,
    dek: &Bytes,
    encrypted_dek: &Bytes,
    plaintext: &[u8],
    additional_data: &[u8],
    draws: &mut Draws,
) -> Result<Bytes, TinkError>
    ensures { Replies result (by_key_bytes M.Family.Aead.encrypts plaintext.now additional_data.now
        (data_key_aead M.url M.builds registry.now.managers kt.now.type_url) dek.now encrypted_dek.now draws.old)
        draws.old draws.new }
{
    match data_key_aead(alloc, registry, kt, dek) {
        Ok(primitive) => match primitive.encrypt(alloc, plaintext, additional_data, draws) {
            Ok(payload) => envelope_of(alloc, encrypted_dek, &payload),
            Err(e) => Err(e),
        },
        Err(e) => Err(e),
    }
}

// What a data key decrypts.
fn decrypt_by_key<M: KeyManager>(
    alloc: Global,
    registry: &Registry<M>,
    kt: &KeyTemplate,
    dek: &Bytes,
    payload: &[u8],
    additional_data: &[u8],
) -> Result<Bytes, TinkError>
    ensures { Answers result
        (and_then (data_key_aead M.url M.builds registry.now.managers kt.now.type_url dek.now)
        (λ p. M.Family.Aead.decrypts p payload.now additional_data.now)) }
{
    match data_key_aead(alloc, registry, kt, dek) {
        Ok(primitive) => primitive.decrypt(alloc, payload, additional_data),
        Err(e) => Err(e),
    }
}

// The number that four bytes spell, high byte first.
fn spelled_size(bytes: &[u8]) -> usize
    requires { length bytes.now ≡ 4 }
    ensures { result ≡ from_be_bytes w32 bytes.now }
{
    let mut size = [0; LEN_DEK];
    size.copy_from_slice(bytes);
    u32::from_be_bytes(size) as usize
}

// The encrypted data key of an envelope, and what the key encrypts.
fn parts(ciphertext: &[u8]) -> Result<(&[u8], &[u8]), TinkError>
    ensures { MatchResult result (λ p. envelope_parts ciphertext.now ≡ Ok (p.0.now, p.1.now))
        (λ e. envelope_parts ciphertext.now ≡ Err e.kind) }
{
    if ciphertext.len() <= LEN_DEK {
        return Err(TinkError::new(Kind::TooShort));
    }
    let size = spelled_size(&ciphertext[..LEN_DEK]);
    let rest = &ciphertext[LEN_DEK..];
    if size == 0 || rest.len() < size {
        return Err(TinkError::new(Kind::DecryptFailed));
    }
    Ok((&rest[..size], &rest[size..]))
}

impl<A: Aead, M: KeyManager> Aead for KmsEnvelopeAead<'_, A, M> {
    ghost use Rattle.tink_registry.specs.Listed.{registry_makes};
    ghost use Rattle.tink_registry.specs.ListedLaws.{registry_makes_told};
    ghost use Rattle.tink_aead.specs.Envelope.{data_key_aead, envelope_decrypts, envelope_encrypts};
    ghost use Rattle.tink_aead.specs.EnvelopeTold.{data_key_aead_told, envelope_decrypts_told, envelope_encrypts_told};

    ghost encrypts = { λ e text aad draws. envelope_encrypts
        (registry_makes M.url M.makes e.registry.now.managers e.dek_template) (A.encrypts e.remote)
        (data_key_aead M.url M.builds e.registry.now.managers e.dek_template.type_url)
        M.Family.Aead.encrypts text aad draws };

    ghost decrypts = { λ e input aad. envelope_decrypts (A.decrypts e.remote)
        (data_key_aead M.url M.builds e.registry.now.managers e.dek_template.type_url)
        M.Family.Aead.decrypts input aad };

    /// # Errors
    /// The first that applies:
    /// - those of the registry on the new key;
    /// - those of the remote key on encrypting it;
    /// - those of the registry on building it;
    /// - `WrongPrimitive` if it is no AEAD's key;
    /// - those of its AEAD on the text;
    /// - `LengthOverU32` if the encrypted key has 2^32 bytes or more.
    ///
    /// `OutOfMemory` may come in place of each.
    fn encrypt(
        &self,
        alloc: Global,
        plaintext: &[u8],
        additional_data: &[u8],
        draws: &mut Draws,
    ) -> Result<Bytes, TinkError> {
        match self.registry.new_key(alloc, &self.dek_template, draws) {
            Ok(dek) => match self.remote.encrypt(alloc, dek.as_slice(), &[], draws) {
                Ok(encrypted_dek) => encrypt_by_key(
                    alloc,
                    self.registry,
                    &self.dek_template,
                    &dek,
                    &encrypted_dek,
                    plaintext,
                    additional_data,
                    draws,
                ),
                Err(e) => Err(e),
            },
            Err(e) => Err(e),
        }
    }

    /// # Errors
    /// The first that applies:
    /// - `TooShort` if the ciphertext has four bytes or fewer;
    /// - `DecryptFailed` if the length is 0 or more bytes than follow it;
    /// - those of the remote key on the encrypted key;
    /// - those of the registry on building it;
    /// - `WrongPrimitive` if it is no AEAD's key;
    /// - those of its AEAD on the rest.
    ///
    /// `OutOfMemory` may come in place of each.
    fn decrypt(
        &self,
        alloc: Global,
        ciphertext: &[u8],
        additional_data: &[u8],
    ) -> Result<Bytes, TinkError> {
        match parts(ciphertext) {
            Ok((encrypted_dek, payload)) => match self.remote.decrypt(alloc, encrypted_dek, &[]) {
                Ok(dek) => decrypt_by_key(
                    alloc,
                    self.registry,
                    &self.dek_template,
                    &dek,
                    payload,
                    additional_data,
                ),
                Err(e) => Err(e),
            },
            Err(e) => Err(e),
        }
    }

    ghost encrypts_told = { λ e. envelope_encrypts_told
        (data_key_aead M.url M.builds e.registry.now.managers e.dek_template.type_url)
        (data_key_aead_told M.url M.builds M.builds_told e.registry.now.managers e.dek_template.type_url)
        (registry_makes M.url M.makes e.registry.now.managers e.dek_template) (A.encrypts e.remote)
        M.Family.Aead.encrypts
        (registry_makes_told M.url M.makes M.makes_told e.registry.now.managers e.dek_template)
        (A.encrypts_told e.remote) M.Family.Aead.encrypts_told };

    ghost decrypts_told = { λ e. envelope_decrypts_told
        (data_key_aead M.url M.builds e.registry.now.managers e.dek_template.type_url)
        (data_key_aead_told M.url M.builds M.builds_told e.registry.now.managers e.dek_template.type_url)
        (A.decrypts e.remote) M.Family.Aead.decrypts
        (A.decrypts_told e.remote) M.Family.Aead.decrypts_told };
}

/// An envelope decrypts what it encrypts, under two premises. The remote key's decryption undoes its
/// encryption, which never has no bytes. The decryption of each data key's AEAD undoes its encryption.
pub fn law_envelopes_open<P: Aead>()
    ensures { EnvelopeUndoes P.encrypts P.decrypts }
{}
