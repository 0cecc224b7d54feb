//! The managers and templates of keys of streams, registered.

ghost use Rattle.std.specs.Prelude.{◌≡◌, ◌∷◌, ◌++◌, [], IfErr, IfOk, OnOk};
ghost use Rattle.tink_io.specs.declared.error.Kind.TheVariants.{OutOfMemory};
ghost use Rattle.tink_registry.specs.Registering.{AreMade, IsMade, Registers};
ghost use Rattle.tink_streaming_managers.specs.KeyTypes.{ctr_hmac_template, gcm_hkdf_template};
ghost use Rattle.tink_streaming_managers.specs.Templates.{streaming_templates};

use crate::key_templates::{
    SEGMENT_1MB, SEGMENT_4KB, ctr_hmac_key_template, gcm_hkdf_key_template,
};
use crate::{AesCtrHmacKeyManager, AesGcmHkdfKeyManager};
use std::alloc::Global;
use tink_io::TinkError;
use tink_key_manager::add_template;
use tink_proto::{KeyTemplate, Text};
use tink_registry::{KeyManager, Registry};

/// Registers the managers of keys in counter mode with HMAC and by AES-GCM, in this order, and the eight templates, or
/// nothing.
///
/// # Errors
/// `AlreadyRegistered` exactly where a manager's URL is there, or two of them have one; `OutOfMemory`. Then nothing is
/// registered.
pub fn init<M>(alloc: Global, registry: &mut Registry<M>) -> Result<(), TinkError>
where
    M: KeyManager + Drop + From<AesCtrHmacKeyManager> + From<AesGcmHkdfKeyManager>,
    ensures { Registers (AreMade (IsMade M.From-1.from_gives ∷ IsMade M.From-2.from_gives ∷ [])) M.url
        streaming_templates registry.old registry.new result }
{
    let managers = managers(alloc)?;
    let templates = templates(alloc)?;
    registry.register_all(alloc, managers, templates)
}

// The managers, in the order of registration.
fn managers<M>(alloc: Global) -> Result<Vec<M>, TinkError>
where
    M: Drop + From<AesCtrHmacKeyManager> + From<AesGcmHkdfKeyManager>,
    ensures value { IfOk result (λ managers. AreMade (IsMade M.From-1.from_gives ∷ IsMade M.From-2.from_gives ∷ [])
        managers.items) }
    ensures cause { IfErr result (λ e. e.kind ≡ OutOfMemory) }
{
    let ctr_hmac = M::from(AesCtrHmacKeyManager::new());
    let gcm_hkdf = M::from(AesGcmHkdfKeyManager::new());
    let mut managers = Vec::new(alloc);
    managers.push(ctr_hmac)?;
    managers.push(gcm_hkdf)?;
    Ok(managers)
}

// The templates by their names.
fn templates(alloc: Global) -> Result<Vec<(Text, KeyTemplate)>, TinkError>
    ensures value { IfOk result (λ named. named.items ≡ streaming_templates) }
    ensures cause { IfErr result (λ e. e.kind ≡ OutOfMemory) }
{
    let mut named = Vec::new(alloc);
    add_templates(alloc, &mut named)?;
    Ok(named)
}

// Adds the templates to none.
fn add_templates(alloc: Global, named: &mut Vec<(Text, KeyTemplate)>) -> Result<(), TinkError>
    requires none { named.old.items ≡ [] }
    ensures value { OnOk result (named.new.items ≡ streaming_templates) }
    ensures cause { IfErr result (λ e. e.kind ≡ OutOfMemory) }
{
    add_ctr_hmac(alloc, named, "AES128_CTR_HMAC_SHA256_4KB", 16, SEGMENT_4KB)?;
    add_ctr_hmac(alloc, named, "AES128_CTR_HMAC_SHA256_1MB", 16, SEGMENT_1MB)?;
    add_ctr_hmac(alloc, named, "AES256_CTR_HMAC_SHA256_4KB", 32, SEGMENT_4KB)?;
    add_ctr_hmac(alloc, named, "AES256_CTR_HMAC_SHA256_1MB", 32, SEGMENT_1MB)?;
    add_gcm_hkdf(alloc, named, "AES128_GCM_HKDF_4KB", 16, SEGMENT_4KB)?;
    add_gcm_hkdf(alloc, named, "AES128_GCM_HKDF_1MB", 16, SEGMENT_1MB)?;
    add_gcm_hkdf(alloc, named, "AES256_GCM_HKDF_4KB", 32, SEGMENT_4KB)?;
    add_gcm_hkdf(alloc, named, "AES256_GCM_HKDF_1MB", 32, SEGMENT_1MB)?;
    Ok(())
}

// Adds a template in counter mode with HMAC.
fn add_ctr_hmac(
    alloc: Global,
    named: &mut Vec<(Text, KeyTemplate)>,
    name: &str,
    key_size: u32,
    segment: u32,
) -> Result<(), TinkError>
    ensures value { OnOk result (named.new.items ≡ named.old.items ++ (name.now, ctr_hmac_template key_size segment) ∷ []) }
    ensures cause { IfErr result (λ e. e.kind ≡ OutOfMemory) }
{
    let template = ctr_hmac_key_template(alloc, key_size, segment)?;
    add_template(alloc, named, name, template)?;
    Ok(())
}

// Adds a template by AES-GCM.
fn add_gcm_hkdf(
    alloc: Global,
    named: &mut Vec<(Text, KeyTemplate)>,
    name: &str,
    key_size: u32,
    segment: u32,
) -> Result<(), TinkError>
    ensures value { OnOk result (named.new.items ≡ named.old.items ++ (name.now, gcm_hkdf_template key_size segment) ∷ []) }
    ensures cause { IfErr result (λ e. e.kind ≡ OutOfMemory) }
{
    let template = gcm_hkdf_key_template(alloc, key_size, segment)?;
    add_template(alloc, named, name, template)?;
    Ok(())
}
