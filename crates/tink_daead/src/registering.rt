//! The manager and the template of AES-SIV keys, registered.

ghost use Rattle.std.specs.Prelude.{◌≡◌, ◌∷◌, [], IfErr, IfOk};
ghost use Rattle.tink_io.specs.declared.error.Kind.TheVariants.{OutOfMemory};
ghost use Rattle.tink_registry.specs.Registering.{AreMade, IsMade, Registers};
ghost use Rattle.tink_daead.specs.Templates.{daead_templates};

use crate::{AesSivKeyManager, aes_siv_key_template};
use std::alloc::Global;
use tink_io::TinkError;
use tink_key_manager::add_template;
use tink_proto::{KeyTemplate, Text};
use tink_registry::{KeyManager, Registry};

/// Registers the manager of AES-SIV keys and its template, or nothing.
///
/// # Errors
/// `AlreadyRegistered` exactly where the manager's URL is there; `OutOfMemory`. Then nothing is registered.
pub fn init<M>(alloc: Global, registry: &mut Registry<M>) -> Result<(), TinkError>
where
    M: KeyManager + Drop + From<AesSivKeyManager>,
    ensures { Registers (AreMade (IsMade M.From.from_gives ∷ [])) M.url daead_templates
        registry.old registry.new result }
{
    let managers = managers(alloc)?;
    let templates = templates(alloc)?;
    registry.register_all(alloc, managers, templates)
}

// The manager.
fn managers<M: Drop + From<AesSivKeyManager>>(alloc: Global) -> Result<Vec<M>, TinkError>
    ensures value { IfOk result (λ managers. AreMade (IsMade M.From.from_gives ∷ []) managers.items) }
    ensures cause { IfErr result (λ e. e.kind ≡ OutOfMemory) }
{
    let siv = M::from(AesSivKeyManager::new());
    let mut managers = Vec::new(alloc);
    managers.push(siv)?;
    Ok(managers)
}

// The template by its name.
fn templates(alloc: Global) -> Result<Vec<(Text, KeyTemplate)>, TinkError>
    ensures value { IfOk result (λ named. named.items ≡ daead_templates) }
    ensures cause { IfErr result (λ e. e.kind ≡ OutOfMemory) }
{
    let mut named = Vec::new(alloc);
    let template = aes_siv_key_template(alloc)?;
    add_template(alloc, &mut named, "AES256_SIV", template)?;
    Ok(named)
}
