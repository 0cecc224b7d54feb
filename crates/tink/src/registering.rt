//! The registry of all managers and templates.

ghost use Rattle.std.specs.Prelude.{◌≡◌, IfErr, IfOk, OnOk};
ghost use Rattle.tink_io.specs.declared.error.Kind.TheVariants.{OutOfMemory};
ghost use Rattle.tink.specs.Registered.{managers_alone, nothing, with_aeads, with_everything, with_macs, with_prfs};
ghost use Rattle.tink.specs.Registered.{with_streaming_aeads};

use crate::Managers;
use std::alloc::Global;
use tink_io::TinkError;
use tink_registry::Registry;

// All managers, in the order of registration.
const MANAGERS: [Managers; 11] = [
    Managers::HmacPrf,
    Managers::HkdfPrf,
    Managers::AesCmacPrf,
    Managers::Hmac,
    Managers::AesCmac,
    Managers::AesCtrHmacAead,
    Managers::AesGcm,
    Managers::AesGcmSiv,
    Managers::AesCtrHmac,
    Managers::AesGcmHkdf,
    Managers::AesSiv,
];

/// A registry of all eleven managers and of no template. It builds keys as `registry` does, and takes less time to
/// make.
///
/// # Errors
/// `OutOfMemory` alone.
pub fn key_managers(alloc: Global) -> Result<Registry<Managers>, TinkError>
    ensures ok { IfOk result (λ r. r ≡ managers_alone) }
    ensures cause { IfErr result (λ e. e.kind ≡ OutOfMemory) }
{
    let managers = Vec::from_slice(alloc, &MANAGERS)?;
    let mut registry = Registry::new(alloc);
    match registry.register_all(alloc, managers, Vec::new(alloc)) {
        Ok(()) => Ok(registry),
        Err(e) => Err(e),
    }
}

/// A registry of all eleven managers and of the 26 templates that have a name.
///
/// # Errors
/// `OutOfMemory` alone.
pub fn registry(alloc: Global) -> Result<Registry<Managers>, TinkError>
    ensures ok { IfOk result (λ r. r ≡ with_everything) }
    ensures cause { IfErr result (λ e. e.kind ≡ OutOfMemory) }
{
    let mut registry = Registry::new(alloc);
    match add_everything(alloc, &mut registry) {
        Ok(()) => Ok(registry),
        Err(e) => Err(e),
    }
}

fn add_everything(alloc: Global, registry: &mut Registry<Managers>) -> Result<(), TinkError>
    requires { registry.old ≡ nothing }
    ensures ok { OnOk result (registry.new ≡ with_everything) }
    ensures cause { IfErr result (λ e. e.kind ≡ OutOfMemory) }
{
    add_prfs(alloc, registry)?;
    add_macs(alloc, registry)?;
    add_aeads(alloc, registry)?;
    add_streaming_aeads(alloc, registry)?;
    add_deterministic_aeads(alloc, registry)
}

fn add_prfs(alloc: Global, registry: &mut Registry<Managers>) -> Result<(), TinkError>
    requires { registry.old ≡ nothing }
    ensures ok { OnOk result (registry.new ≡ with_prfs) }
    ensures cause { IfErr result (λ e. e.kind ≡ OutOfMemory) }
{
    tink_prf::init(alloc, registry)
}

fn add_macs(alloc: Global, registry: &mut Registry<Managers>) -> Result<(), TinkError>
    requires { registry.old ≡ with_prfs }
    ensures ok { OnOk result (registry.new ≡ with_macs) }
    ensures cause { IfErr result (λ e. e.kind ≡ OutOfMemory) }
{
    tink_mac::init(alloc, registry)
}

fn add_aeads(alloc: Global, registry: &mut Registry<Managers>) -> Result<(), TinkError>
    requires { registry.old ≡ with_macs }
    ensures ok { OnOk result (registry.new ≡ with_aeads) }
    ensures cause { IfErr result (λ e. e.kind ≡ OutOfMemory) }
{
    tink_aead::init(alloc, registry)
}

fn add_streaming_aeads(alloc: Global, registry: &mut Registry<Managers>) -> Result<(), TinkError>
    requires { registry.old ≡ with_aeads }
    ensures ok { OnOk result (registry.new ≡ with_streaming_aeads) }
    ensures cause { IfErr result (λ e. e.kind ≡ OutOfMemory) }
{
    tink_streaming_aead::init(alloc, registry)
}

fn add_deterministic_aeads(
    alloc: Global,
    registry: &mut Registry<Managers>,
) -> Result<(), TinkError>
    requires { registry.old ≡ with_streaming_aeads }
    ensures ok { OnOk result (registry.new ≡ with_everything) }
    ensures cause { IfErr result (λ e. e.kind ≡ OutOfMemory) }
{
    tink_daead::init(alloc, registry)
}
