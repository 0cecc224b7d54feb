//! A whole command line.

ghost use Rattle.std.specs.Prelude.{◌≡◌};
ghost use Rattle.tink_cli_words.specs.Forms.{given, given_of};
ghost use Rattle.tink_cli_words.specs.Words.{byte_words};

use crate::line::line_of;
use crate::{Action, Line, Why, Word, Wrong};

/// A command and its values.
#[derive(Drop)]
pub struct Given<'w> {
    pub action: Action,
    pub line: Line<'w>,
}

/// The command of the first word, with what the words behind it say.
///
/// # Errors
/// The first that applies:
/// - the first word that is wrong, from left to right;
/// - a word that the command must have and is not given, in the order of its usage line;
/// - an option that needs another one;
/// - the first value that cannot be read.
pub fn parse(words: &[Vec<u8>]) -> Result<Given<'_>, Wrong<'_>>
    ensures { result ≡ given (byte_words words.now) }
{
    let [name, behind @ ..] = words else {
        return Err(Wrong {
            action: None,
            why: Why::NoCommand,
        });
    };
    match Action::of_name(name.as_slice()) {
        Some(action) => given_of(action, behind),
        None => Err(Wrong {
            action: None,
            why: Why::UnknownCommand(Word::new(name.as_slice())),
        }),
    }
}

// A command with what the words behind its name say.
fn given_of<'w>(action: Action, words: &'w [Vec<u8>]) -> Result<Given<'w>, Wrong<'w>>
    ensures { result ≡ given_of action (byte_words words.now) }
{
    match line_of(action, words) {
        Ok(line) => Ok(Given { action, line }),
        Err(why) => Err(Wrong {
            action: Some(action),
            why,
        }),
    }
}
