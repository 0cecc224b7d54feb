//! Templates of keys.

ghost use Rattle.std.specs.Prelude.{◌≡◌, ◌∷◌, ◌++◌, [], Ok, IfErr, OnErr, OnOk};
ghost use Rattle.tink_io.specs.declared.error.Kind.TheVariants.{OutOfMemory};
ghost use Rattle.tink_io.specs.Answering.{Answers};
ghost use Rattle.tink_key_manager.specs.Templates.{template_of};

use std::alloc::Global;
use tink_io::{Kind, TinkError};
use tink_proto::wire::Message;
use tink_proto::{KeyTemplate, OutputPrefixType, Text};

/// The template of keys of a URL by a format, with a prefix type.
///
/// # Errors
/// `OutOfMemory` alone.
pub fn new_template<F: Message>(
    alloc: Global,
    type_url: &str,
    format: &F,
    prefix: OutputPrefixType,
) -> Result<KeyTemplate, TinkError>
    ensures { Answers result (Ok (template_of type_url.now F.table format.now prefix)) }
{
    let type_url = Text::from_str(alloc, type_url)?;
    match format.encode(alloc) {
        Ok(value) => Ok(KeyTemplate {
            type_url,
            value,
            output_prefix_type: prefix as i32,
        }),
        Err(_) => Err(TinkError::new(Kind::OutOfMemory)),
    }
}

/// Adds a template under its name, behind those that are there, or nothing.
///
/// # Errors
/// `OutOfMemory` alone.
pub fn add_template(
    alloc: Global,
    named: &mut Vec<(Text, KeyTemplate)>,
    name: &str,
    template: KeyTemplate,
) -> Result<(), TinkError>
    ensures ok { OnOk result (named.new.items ≡ named.old.items ++ (name.now, template) ∷ []) }
    ensures err { OnErr result (named.new.items ≡ named.old.items) }
    ensures cause { IfErr result (λ e. e.kind ≡ OutOfMemory) }
{
    named.push((Text::from_str(alloc, name)?, template))?;
    Ok(())
}
