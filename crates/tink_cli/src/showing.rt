//! Texts on standard output: help, the version and the templates.

ghost use Rattle.std.specs.Prelude.{◌≡◌, ◌⊎◌, IfErr, OnErr, OnOk};
ghost use Rattle.std.specs.Io.KnownBytes.{Appends};
ghost use Rattle.tink_io.specs.Written.{AppendsPrefix};
ghost use Rattle.tink_cli.specs.Lines.{IsUnshown};
ghost use Rattle.tink_cli.specs.declared.showing.TheConstants.{VERSION};
ghost use Rattle.tink_cli_words.specs.Help.{help_of};
ghost use Rattle.tink_keygen.specs.TemplateLines.{template_lines};
ghost use Rattle.tink_system.specs.Statuses.{trouble_status};

use std::alloc::Global;
use tink_cli_jobs::put;
use tink_cli_words::{Action, help_text};
use tink_io::Sink;
use tink_keygen::template_lines;
use tink_system::Trouble;

// What `tink version` shows.
const VERSION: &str = "tink of Wandrefona 1.0\n";

/// The help of a command, or the list of all.
///
/// # Errors
/// 12 if standard output fails.
pub fn help<K: Sink>(action: Option<Action>, sink: &mut K) -> Result<(), Trouble<'static>>
    ensures done { OnOk result (Appends (K.got sink.old) (K.got sink.new) (help_of action)) }
    ensures part { OnErr result (AppendsPrefix (K.got sink.old) (K.got sink.new) (help_of action)) }
    ensures refused { IfErr result (λ t. IsUnshown (K.faults sink.old) (K.faults sink.new) (trouble_status t)) }
    ensures sink { K.same sink.old sink.new }
{
    put(sink, help_text(action).as_bytes())
}

/// The version.
///
/// # Errors
/// 12 if standard output fails.
pub fn version<K: Sink>(sink: &mut K) -> Result<(), Trouble<'static>>
    ensures done { OnOk result (Appends (K.got sink.old) (K.got sink.new) VERSION.now) }
    ensures part { OnErr result (AppendsPrefix (K.got sink.old) (K.got sink.new) VERSION.now) }
    ensures refused { IfErr result (λ t. IsUnshown (K.faults sink.old) (K.faults sink.new) (trouble_status t)) }
    ensures sink { K.same sink.old sink.new }
{
    put(sink, VERSION.as_bytes())
}

/// The names of the templates, one a line.
///
/// # Errors
/// 12 if standard output fails; 10.
pub fn templates<K: Sink>(alloc: Global, sink: &mut K) -> Result<(), Trouble<'static>>
    ensures done { OnOk result (Appends (K.got sink.old) (K.got sink.new) template_lines) }
    ensures part { OnErr result (AppendsPrefix (K.got sink.old) (K.got sink.new) template_lines) }
    ensures refused { IfErr result (λ t. (trouble_status t ≡ 10) ⊎ IsUnshown (K.faults sink.old) (K.faults sink.new) (trouble_status t)) }
    ensures sink { K.same sink.old sink.new }
{
    match template_lines(alloc) {
        Ok(lines) => put(sink, lines.as_slice()),
        Err(e) => Err(Trouble::Refused(b"the templates", e.kind)),
    }
}
