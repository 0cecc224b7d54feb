//! What the words of a line are to the calls below.

ghost use Rattle.std.specs.Prelude.{◌≡◌};
ghost use Rattle.tink_cli_keys.specs.KeyFiles.{format_named, own_edit, own_growth, prefix_named};

use crate::keys::Growth;
use tink_cli_words::{Action, FormatName, Line, PrefixName};
use tink_keyset_io::key_files::{Edit, Format};
use tink_proto::OutputPrefixType;

/// The format of a new file: JSON unless the words name another.
pub fn format_of(line: &Line<'_>) -> Format
    ensures { result ≡ format_named line.now.format }
{
    match line.format() {
        None | Some(FormatName::Json) => Format::Json,
        Some(FormatName::Binary) => Format::Binary,
    }
}

/// The output prefix type of a new key, if the words name one.
pub fn prefix_of(line: &Line<'_>) -> Option<OutputPrefixType>
    ensures { result ≡ prefix_named line.now.prefix }
{
    match line.prefix() {
        None => None,
        Some(PrefixName::Tink) => Some(OutputPrefixType::Tink),
        Some(PrefixName::Raw) => Some(OutputPrefixType::Raw),
        Some(PrefixName::Legacy) => Some(OutputPrefixType::Legacy),
        Some(PrefixName::Crunchy) => Some(OutputPrefixType::Crunchy),
    }
}

/// What a command does with a key.
pub fn edit_of(action: Action) -> Option<Edit>
    ensures { result ≡ own_edit action }
{
    match action {
        Action::Promote => Some(Edit::Promote),
        Action::Enable => Some(Edit::Enable),
        Action::Disable => Some(Edit::Disable),
        Action::Destroy => Some(Edit::Destroy),
        Action::Delete => Some(Edit::Delete),
        _ => None,
    }
}

/// How a command adds a key.
pub fn growth_of(action: Action, is_any: bool) -> Growth
    ensures { result ≡ own_growth action is_any }
{
    match action {
        Action::Add => Growth::Add,
        _ if is_any => Growth::RotateToAny,
        _ => Growth::Rotate,
    }
}
