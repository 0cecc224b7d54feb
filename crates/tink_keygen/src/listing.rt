//! The names of the registered templates.

ghost use Rattle.std.specs.Prelude.{◌≡◌, ◌++◌, ◌∷◌, [], OnOk, IfErr, Ok};
ghost use Rattle.tink_io.specs.Answering.{Answers};
ghost use Rattle.tink_io.specs.declared.error.Kind.TheVariants.{OutOfMemory};
ghost use Rattle.tink_keygen.specs.TemplateLines.{lines_of, template_lines};

use std::alloc::Global;
use tink::registry;
use tink_io::TinkError;
use tink_proto::{Bytes, Text};

/// The name of each registered template and a newline, in the order of their bytes.
///
/// # Errors
/// `OutOfMemory` alone.
pub fn template_lines(alloc: Global) -> Result<Bytes, TinkError>
    ensures { Answers result (Ok template_lines) }
{
    let registry = registry(alloc)?;
    let names = registry.template_names(alloc)?;
    lines_of(alloc, &names)
}

// One line a name.
fn lines_of(alloc: Global, names: &[Text]) -> Result<Bytes, TinkError>
    ensures { Answers result (Ok (lines_of names.now)) }
{
    let mut text = Vec::new(alloc);
    'names: for name in names {
        put_line(&mut text, name)?;
    }
    Ok(Bytes::from_vec(text))
}

// Puts a name and a newline at the end.
fn put_line(text: &mut Vec<u8>, name: &Text) -> Result<(), TinkError>
    ensures ok { OnOk result (text.new.items ≡ text.old.items ++ (name.now ++ 10 ∷ [])) }
    ensures err { IfErr result (λ e. e ≡ record { kind = OutOfMemory }) }
{
    text.extend_from_slice(name.as_bytes())?;
    text.push(b'\n')?;
    Ok(())
}
