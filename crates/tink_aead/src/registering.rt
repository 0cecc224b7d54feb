//! The managers and templates of AEAD keys, registered.

ghost use Rattle.std.specs.Prelude.{◌≡◌, ◌∷◌, ◌++◌, [], IfErr, IfOk, Ok, OnOk};
ghost use Rattle.tink_io.specs.Answering.{Answers};
ghost use Rattle.tink_io.specs.declared.error.Kind.TheVariants.{OutOfMemory};
ghost use Rattle.tink_proto.specs.declared.messages.keys.KeyTemplate.{KeyTemplate};
ghost use Rattle.tink_registry.specs.Registering.{AreMade, IsMade, Registers};
ghost use Rattle.tink_aead.specs.Templates.{aead_templates};

use crate::{
    AesCtrHmacAeadKeyManager, AesGcmKeyManager, AesGcmSivKeyManager,
    aes128_ctr_hmac_sha256_key_template, aes128_gcm_key_template, aes128_gcm_siv_key_template,
    aes256_ctr_hmac_sha256_key_template, aes256_gcm_key_template,
    aes256_gcm_no_prefix_key_template, aes256_gcm_siv_key_template,
    aes256_gcm_siv_no_prefix_key_template,
};
use std::alloc::Global;
use tink_io::TinkError;
use tink_key_manager::add_template;
use tink_proto::{KeyTemplate, Text};
use tink_registry::{KeyManager, Registry};

/// Registers the managers of AES-CTR-HMAC, AES-GCM and AES-GCM-SIV keys, in this order, and the eight templates, or
/// nothing.
///
/// # Errors
/// `AlreadyRegistered` exactly where a manager's URL is there, or two of them have one; `OutOfMemory`. Then nothing is
/// registered.
pub fn init<M>(alloc: Global, registry: &mut Registry<M>) -> Result<(), TinkError>
where
    M: KeyManager
        + Drop
        + From<AesCtrHmacAeadKeyManager>
        + From<AesGcmKeyManager>
        + From<AesGcmSivKeyManager>,
    ensures { Registers
        (AreMade (IsMade M.From-1.from_gives ∷ IsMade M.From-2.from_gives ∷ IsMade M.From-3.from_gives ∷ []))
        M.url aead_templates registry.old registry.new result }
{
    match templates(alloc) {
        Ok(templates) => match managers(alloc) {
            Ok(managers) => registry.register_all(alloc, managers, templates),
            Err(e) => Err(e),
        },
        Err(e) => Err(e),
    }
}

// The managers, in the order of registration.
fn managers<M>(alloc: Global) -> Result<Vec<M>, TinkError>
where
    M: Drop + From<AesCtrHmacAeadKeyManager> + From<AesGcmKeyManager> + From<AesGcmSivKeyManager>,
    ensures value { IfOk result (λ managers.
        AreMade (IsMade M.From-1.from_gives ∷ IsMade M.From-2.from_gives ∷ IsMade M.From-3.from_gives ∷ [])
        managers.items) }
    ensures cause { IfErr result (λ e. e.kind ≡ OutOfMemory) }
{
    let mut managers = Vec::new(alloc);
    managers.push(M::from(AesCtrHmacAeadKeyManager::new()))?;
    managers.push(M::from(AesGcmKeyManager::new()))?;
    managers.push(M::from(AesGcmSivKeyManager::new()))?;
    Ok(managers)
}

// The templates by their names.
fn templates(alloc: Global) -> Result<Vec<(Text, KeyTemplate)>, TinkError>
    ensures value { IfOk result (λ named. named.items ≡ aead_templates) }
    ensures cause { IfErr result (λ e. e.kind ≡ OutOfMemory) }
{
    let mut named = Vec::new(alloc);
    match add_templates(alloc, &mut named) {
        Ok(()) => Ok(named),
        Err(e) => Err(e),
    }
}

// Adds them where there is none.
fn add_templates(alloc: Global, named: &mut Vec<(Text, KeyTemplate)>) -> Result<(), TinkError>
    requires { named.old.items ≡ [] }
    ensures value { OnOk result (named.new.items ≡ aead_templates) }
    ensures cause { IfErr result (λ e. e.kind ≡ OutOfMemory) }
{
    let made = aes128_gcm_key_template(alloc);
    add(alloc, named, "AES128_GCM", made)?;
    let made = aes256_gcm_key_template(alloc);
    add(alloc, named, "AES256_GCM", made)?;
    let made = aes256_gcm_no_prefix_key_template(alloc);
    add(alloc, named, "AES256_GCM_NO_PREFIX", made)?;
    let made = aes128_gcm_siv_key_template(alloc);
    add(alloc, named, "AES128_GCM_SIV", made)?;
    let made = aes256_gcm_siv_key_template(alloc);
    add(alloc, named, "AES256_GCM_SIV", made)?;
    let made = aes256_gcm_siv_no_prefix_key_template(alloc);
    add(alloc, named, "AES256_GCM_SIV_NO_PREFIX", made)?;
    let made = aes128_ctr_hmac_sha256_key_template(alloc);
    add(alloc, named, "AES128_CTR_HMAC_SHA256", made)?;
    let made = aes256_ctr_hmac_sha256_key_template(alloc);
    add(alloc, named, "AES256_CTR_HMAC_SHA256", made)
}

// Adds a template under its name, if it was made.
fn add(
    alloc: Global,
    named: &mut Vec<(Text, KeyTemplate)>,
    name: &str,
    made: Result<KeyTemplate, TinkError>,
) -> Result<(), TinkError>
    requires { (template : KeyTemplate) × Answers made (Ok template) }
    ensures value { (template : KeyTemplate) → Answers made (Ok template)
        → OnOk result (named.new.items ≡ named.old.items ++ (name.now, template) ∷ []) }
    ensures cause { IfErr result (λ e. e.kind ≡ OutOfMemory) }
{
    match made {
        Ok(template) => add_template(alloc, named, name, template),
        Err(e) => Err(e),
    }
}
