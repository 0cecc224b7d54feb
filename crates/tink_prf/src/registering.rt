//! The managers and templates of keys for pseudorandom functions, registered.

ghost use Rattle.std.specs.Prelude.{◌≡◌, ◌∷◌, [], IfErr, IfOk, OnOk};
ghost use Rattle.tink_io.specs.declared.error.Kind.TheVariants.{OutOfMemory};
ghost use Rattle.tink_registry.specs.Registering.{AreMade, IsMade, Registers};
ghost use Rattle.tink_prf.specs.Templates.{prf_templates};

use crate::{
    AesCmacPrfKeyManager, HkdfPrfKeyManager, HmacPrfKeyManager, aes_cmac_prf_key_template,
    hkdf_sha256_prf_key_template, hmac_sha256_prf_key_template, hmac_sha512_prf_key_template,
};
use std::alloc::Global;
use tink_io::TinkError;
use tink_key_manager::add_template;
use tink_proto::{KeyTemplate, Text};
use tink_registry::{KeyManager, Registry};

/// Registers the managers of HMAC, HKDF and AES-CMAC keys, in this order, and the four templates, or nothing.
///
/// # Errors
/// `AlreadyRegistered` exactly where a manager's URL is there, or two of them have one; `OutOfMemory`. Then nothing is
/// registered.
pub fn init<M>(alloc: Global, registry: &mut Registry<M>) -> Result<(), TinkError>
where
    M: KeyManager
        + Drop
        + From<HmacPrfKeyManager>
        + From<HkdfPrfKeyManager>
        + From<AesCmacPrfKeyManager>,
    ensures { Registers
        (AreMade (IsMade M.From-1.from_gives ∷ IsMade M.From-2.from_gives ∷ IsMade M.From-3.from_gives ∷ []))
        M.url prf_templates registry.old registry.new result }
{
    let managers = managers(alloc)?;
    let templates = templates(alloc)?;
    registry.register_all(alloc, managers, templates)
}

// The managers, in the order of registration.
fn managers<M>(alloc: Global) -> Result<Vec<M>, TinkError>
where
    M: Drop + From<HmacPrfKeyManager> + From<HkdfPrfKeyManager> + From<AesCmacPrfKeyManager>,
    ensures value { IfOk result (λ managers. AreMade
        (IsMade M.From-1.from_gives ∷ IsMade M.From-2.from_gives ∷ IsMade M.From-3.from_gives ∷ [])
        managers.items) }
    ensures cause { IfErr result (λ e. e.kind ≡ OutOfMemory) }
{
    let hmac = M::from(HmacPrfKeyManager::new());
    let hkdf = M::from(HkdfPrfKeyManager::new());
    let aes_cmac = M::from(AesCmacPrfKeyManager::new());
    let mut managers = Vec::new(alloc);
    managers.push(hmac)?;
    managers.push(hkdf)?;
    managers.push(aes_cmac)?;
    Ok(managers)
}

// The templates by their names.
fn templates(alloc: Global) -> Result<Vec<(Text, KeyTemplate)>, TinkError>
    ensures value { IfOk result (λ named. named.items ≡ prf_templates) }
    ensures cause { IfErr result (λ e. e.kind ≡ OutOfMemory) }
{
    let mut named = Vec::new(alloc);
    add_templates(alloc, &mut named)?;
    Ok(named)
}

// Adds the templates to an empty list.
fn add_templates(alloc: Global, named: &mut Vec<(Text, KeyTemplate)>) -> Result<(), TinkError>
    ensures ok { OnOk result (named.old.items ≡ [] → named.new.items ≡ prf_templates) }
    ensures cause { IfErr result (λ e. e.kind ≡ OutOfMemory) }
{
    let template = hkdf_sha256_prf_key_template(alloc)?;
    add_template(alloc, named, "HKDF_SHA256", template)?;
    let template = hmac_sha256_prf_key_template(alloc)?;
    add_template(alloc, named, "HMAC_SHA256_PRF", template)?;
    let template = hmac_sha512_prf_key_template(alloc)?;
    add_template(alloc, named, "HMAC_SHA512_PRF", template)?;
    let template = aes_cmac_prf_key_template(alloc)?;
    add_template(alloc, named, "AES_CMAC_PRF", template)?;
    Ok(())
}
