//! Messages on standard error about words that spell no command.

ghost use Rattle.std.specs.Prelude.{◌≡◌};

use tink_cli_words::{
    Action, OptionName, Why, Wrong, command_names, help_text, option_names, similar, usage,
};
use tink_io::Sink;
use tink_program::program::{Outcome, tell as tell_outcome};
use tink_system::lines::{put, put_escaped};
use tink_system::{End, System};

/// Writes why words spell no command, and how the command that they name is used. If they name none, it writes the usage line of
/// the program over the standard streams, and on a terminal the help. It answers 2.
pub fn tell_wrong<Y: System, E: Sink>(system: &mut Y, faults: &mut E, wrong: Wrong<'_>) -> u8
    ensures status { result ≡ 2 }
    ensures still { system.new ≡ system.old }
    ensures faults { E.same faults.old faults.new }
{
    match wrong.action {
        Some(action) => tell_use(faults, action, &wrong.why),
        None => tell_unknown(system, faults, &wrong.why),
    }
    2
}

// Words that name no command.
fn tell_unknown<Y: System, E: Sink>(system: &mut Y, faults: &mut E, why: &Why<'_>)
    ensures still { system.new ≡ system.old }
    ensures faults { E.same faults.old faults.new }
{
    if !system.is_terminal(End::Error) {
        tell_outcome(faults, Outcome::Usage);
        return;
    }
    match why {
        Why::UnknownCommand(word) => tell_command(faults, word.bytes()),
        _ => put(faults, help_text(None).as_bytes()),
    }
}

// A word that is no command.
fn tell_command<E: Sink>(faults: &mut E, word: &[u8])
    ensures faults { E.same faults.old faults.new }
{
    put(faults, b"tink: no command is called ");
    put_escaped(faults, word);
    put_like(faults, similar(word, command_names()));
    put(faults, b"\n`tink help` shows all commands\n");
}

// The wrong word of a command, and the command's usage.
fn tell_use<E: Sink>(faults: &mut E, action: Action, why: &Why<'_>)
    ensures faults { E.same faults.old faults.new }
{
    put(faults, b"tink ");
    put(faults, action.name().as_bytes());
    put(faults, b": ");
    put_why(faults, why);
    put(faults, b"\nusage: ");
    put(faults, usage(action).as_bytes());
    put(faults, b"\n");
}

// The wrong word.
fn put_why<E: Sink>(faults: &mut E, why: &Why<'_>)
    ensures faults { E.same faults.old faults.new }
{
    match why {
        Why::NoCommand => put(faults, b"no command"),
        Why::UnknownCommand(word) => {
            put_two(faults, b"no command is called ", word.bytes());
            put_like(faults, similar(word.bytes(), command_names()));
        }
        Why::UnknownOption(word) => {
            put_two(faults, b"no option is called ", word.bytes());
            put_like(faults, similar(word.bytes(), option_names()));
        }
        Why::NoValue(word) => put_three(faults, b"the option ", word.bytes(), b" needs a value"),
        Why::TakesNoValue(word) => put_three(
            faults,
            b"this option takes no value: ",
            word.bytes(),
            b"",
        ),
        Why::TooMany(word) => put_three(faults, b"one word too many: ", word.bytes(), b""),
        Why::NoId(word) => put_three(
            faults,
            b"no id of a key: ",
            word.bytes(),
            b" (a number below 4294967296; `tink keys` shows the ids)",
        ),
        _ => put_option_why(faults, why),
    }
}

// What is wrong with an option that is known, or missing.
fn put_option_why<E: Sink>(faults: &mut E, why: &Why<'_>)
    ensures faults { E.same faults.old faults.new }
{
    match why {
        Why::Twice(option) => put_three(
            faults,
            b"the option ",
            option.name().as_bytes(),
            b" is given twice",
        ),
        Why::NotTaken(option) => {
            put_three(
                faults,
                b"this command has no option ",
                option.name().as_bytes(),
                b"",
            )
        }
        Why::Missing(option) => put_three(
            faults,
            b"the option ",
            option.name().as_bytes(),
            b" is missing",
        ),
        Why::MissingOperand(operand) => put_three(
            faults,
            b"",
            operand.name().as_bytes(),
            b" is missing",
        ),
        _ => put_value_why(faults, why),
    }
}

// What is wrong with the value of an option, or with an option that needs another.
fn put_value_why<E: Sink>(faults: &mut E, why: &Why<'_>)
    ensures faults { E.same faults.old faults.new }
{
    match why {
        Why::NoNumber(option, word) => {
            put_three(
                faults,
                b"the value of ",
                option.name().as_bytes(),
                b" is no number: ",
            );
            put_escaped(faults, word.bytes());
        }
        Why::NoSuchValue(option, word) => {
            put_three(
                faults,
                b"the option ",
                option.name().as_bytes(),
                b" has no value ",
            );
            put_escaped(faults, word.bytes());
            put(faults, values_of(*option));
        }
        Why::Needs(option, other) => {
            put_three(faults, b"the option ", option.name().as_bytes(), b" needs ");
            put(faults, other.name().as_bytes());
        }
        _ => {}
    }
}

// The values that an option has.
fn values_of(option: OptionName) -> &'static [u8] {
    match option {
        OptionName::Format => b": its values are json and binary",
        OptionName::Prefix => b": its values are tink, raw, legacy and crunchy",
        _ => b"",
    }
}

// The name that a word is like, if there is one.
fn put_like<E: Sink>(faults: &mut E, name: Option<&'static str>)
    ensures faults { E.same faults.old faults.new }
{
    if let Some(name) = name {
        put_three(faults, b"; did you mean ", name.as_bytes(), b"?");
    }
}

fn put_two<E: Sink>(faults: &mut E, text: &[u8], word: &[u8])
    ensures faults { E.same faults.old faults.new }
{
    put(faults, text);
    put_escaped(faults, word);
}

fn put_three<E: Sink>(faults: &mut E, text: &[u8], word: &[u8], end: &[u8])
    ensures faults { E.same faults.old faults.new }
{
    put_two(faults, text, word);
    put(faults, end);
}
