//! Why words spell no command.

ghost use Rattle.std.specs.Prelude.{◌≡◌};
ghost use Rattle.tink_cli_words.specs.Wrongs.{operand_name};

use crate::{Action, OptionName, Word};

/// A word beside the options.
#[derive(Clone, Copy, Debug, PartialEq, Eq)]
pub enum Operand {
    /// The file of keys.
    Keys,
    /// The name of a template.
    Template,
    /// The id of a key.
    Id,
    /// The file that is read.
    In,
    /// The file of wrapped keys.
    Wrapped,
    /// The name of a command.
    Command,
}

impl Operand {
    /// Its name in a usage line.
    pub fn name(self) -> &'static str
        ensures { result.now ≡ operand_name self }
    {
        match self {
            Operand::Keys => "KEYS",
            Operand::Template => "TEMPLATE",
            Operand::Id => "ID",
            Operand::In => "IN",
            Operand::Wrapped => "WRAPPED",
            Operand::Command => "COMMAND",
        }
    }
}

/// Why words spell no command.
#[derive(Drop)]
pub enum Why<'w> {
    /// There is no word.
    NoCommand,
    /// No command has this name.
    UnknownCommand(Word<'w>),
    /// No option has this name.
    UnknownOption(Word<'w>),
    /// No word follows this option, which has a value.
    NoValue(Word<'w>),
    /// The word gives a value to an option that has none.
    TakesNoValue(Word<'w>),
    /// The option is given twice.
    Twice(OptionName),
    /// The command does not take the option.
    NotTaken(OptionName),
    /// The option is not given.
    Missing(OptionName),
    /// The word is not given.
    MissingOperand(Operand),
    /// The command takes no further word.
    TooMany(Word<'w>),
    /// The option's value is no decimal number of 64 bits.
    NoNumber(OptionName, Word<'w>),
    /// The id of a key is no decimal number of 32 bits.
    NoId(Word<'w>),
    /// The option has no such value.
    NoSuchValue(OptionName, Word<'w>),
    /// The first option is given without the second.
    Needs(OptionName, OptionName),
}

/// Words that spell no command.
#[derive(Drop)]
pub struct Wrong<'w> {
    /// The command that they name.
    pub action: Option<Action>,
    pub why: Why<'w>,
}
