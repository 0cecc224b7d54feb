//! Which words a command takes.

ghost use Rattle.std.specs.Prelude.{◌≡◌, List, ℕ};
ghost use Rattle.tink_cli_words.specs.Words.{value_named};
ghost use Rattle.tink_cli_words.specs.Actions.{action_name, action_named, operands_of, options_of, parts_of, takes, takes_id};

use crate::names::value_named;
use crate::options::has;
use crate::{Operand, OptionName};

/// The action of a command.
#[derive(Clone, Copy, Debug, PartialEq, Eq)]
pub enum Action {
    /// `new`.
    New,
    /// `add`.
    Add,
    /// `keys`.
    Keys,
    /// `templates`.
    Templates,
    /// `rotate`.
    Rotate,
    /// `promote`.
    Promote,
    /// `enable`.
    Enable,
    /// `disable`.
    Disable,
    /// `destroy`.
    Destroy,
    /// `delete`.
    Delete,
    /// `convert`.
    Convert,
    /// `encrypt`.
    Encrypt,
    /// `decrypt`.
    Decrypt,
    /// `check`.
    Check,
    /// `info`.
    Info,
    /// `rewrap`.
    Rewrap,
    /// `range`.
    Range,
    /// `sign`.
    Sign,
    /// `verify`.
    Verify,
    /// `wrap`.
    Wrap,
    /// `unwrap`.
    Unwrap,
    /// `help`.
    Help,
    /// `version`.
    Version,
}

// A word that a command must have.
#[derive(Clone, Copy)]
pub(crate) enum Part {
    // An option.
    Given(OptionName),
    // The first word beside the options.
    First(Operand),
    // The second one.
    Second(Operand),
}

// The names of the commands.
const ACTIONS: &[(&str, Action)] = &[
    ("new", Action::New),
    ("add", Action::Add),
    ("keys", Action::Keys),
    ("templates", Action::Templates),
    ("rotate", Action::Rotate),
    ("promote", Action::Promote),
    ("enable", Action::Enable),
    ("disable", Action::Disable),
    ("destroy", Action::Destroy),
    ("delete", Action::Delete),
    ("convert", Action::Convert),
    ("encrypt", Action::Encrypt),
    ("decrypt", Action::Decrypt),
    ("check", Action::Check),
    ("info", Action::Info),
    ("rewrap", Action::Rewrap),
    ("range", Action::Range),
    ("sign", Action::Sign),
    ("verify", Action::Verify),
    ("wrap", Action::Wrap),
    ("unwrap", Action::Unwrap),
    ("help", Action::Help),
    ("--help", Action::Help),
    ("-h", Action::Help),
    ("version", Action::Version),
    ("--version", Action::Version),
    ("-V", Action::Version),
];

/// The names of the commands, each with its command.
pub fn command_names() -> &'static [(&'static str, Action)]
    ensures { (name : List ℕ) → value_named result.now name ≡ action_named name }
{
    ACTIONS
}

// The options of a command, and what it must have in the order of its usage line.
const NONE: &[OptionName] = &[];

const NO_PART: &[Part] = &[];

const NEW: &[OptionName] = &[OptionName::Output, OptionName::Format, OptionName::Prefix];

const NEW_PARTS: &[Part] = &[
    Part::First(Operand::Template),
    Part::Given(OptionName::Output),
];

const KEYS: &[OptionName] = &[OptionName::Json];

const KEYS_PARTS: &[Part] = &[Part::First(Operand::Keys)];

const ROTATE: &[OptionName] = &[OptionName::Any];

const ADD_PARTS: &[Part] = &[Part::First(Operand::Keys), Part::Second(Operand::Template)];

const EDIT_PARTS: &[Part] = &[Part::First(Operand::Keys), Part::Second(Operand::Id)];

const CONVERT: &[OptionName] = &[OptionName::Output, OptionName::Format];

const CONVERT_PARTS: &[Part] = &[
    Part::First(Operand::Keys),
    Part::Given(OptionName::Output),
    Part::Given(OptionName::Format),
];

const STREAM: &[OptionName] = &[
    OptionName::Keys,
    OptionName::Aad,
    OptionName::Master,
    OptionName::MasterAad,
    OptionName::Output,
    OptionName::Force,
    OptionName::NoClobber,
];

const STREAM_PARTS: &[Part] = &[Part::Given(OptionName::Keys)];

const CHECK: &[OptionName] = &[
    OptionName::Keys,
    OptionName::Aad,
    OptionName::Master,
    OptionName::MasterAad,
];

const INFO_PARTS: &[Part] = &[Part::Given(OptionName::Keys), Part::First(Operand::In)];

const REWRAP: &[OptionName] = &[
    OptionName::Keys,
    OptionName::Aad,
    OptionName::Master,
    OptionName::MasterAad,
    OptionName::To,
    OptionName::ToAad,
    OptionName::Output,
    OptionName::Force,
    OptionName::NoClobber,
];

const REWRAP_PARTS: &[Part] = &[Part::Given(OptionName::Keys), Part::Given(OptionName::To)];

const RANGE: &[OptionName] = &[
    OptionName::Keys,
    OptionName::Aad,
    OptionName::Master,
    OptionName::MasterAad,
    OptionName::Start,
    OptionName::Length,
    OptionName::Output,
    OptionName::Force,
    OptionName::NoClobber,
];

const RANGE_PARTS: &[Part] = &[
    Part::Given(OptionName::Keys),
    Part::Given(OptionName::Start),
    Part::Given(OptionName::Length),
    Part::First(Operand::In),
];

const TOKEN: &[OptionName] = &[
    OptionName::Keys,
    OptionName::Master,
    OptionName::MasterAad,
    OptionName::Output,
    OptionName::NoClobber,
];

const WRAP: &[OptionName] = &[
    OptionName::Keys,
    OptionName::Output,
    OptionName::Aad,
    OptionName::Format,
];

const WRAP_PARTS: &[Part] = &[
    Part::Given(OptionName::Keys),
    Part::Given(OptionName::Output),
    Part::First(Operand::Keys),
];

const UNWRAP_PARTS: &[Part] = &[
    Part::Given(OptionName::Keys),
    Part::Given(OptionName::Output),
    Part::First(Operand::Wrapped),
];

impl Action {
    /// The command of a name.
    pub fn of_name(name: &[u8]) -> Option<Action>
        ensures { result ≡ action_named name.now }
    {
        value_named(ACTIONS, name)
    }

    /// Its name.
    pub fn name(self) -> &'static str
        ensures { result.now ≡ action_name self }
    {
        match self {
            Action::New => "new",
            Action::Add => "add",
            Action::Keys => "keys",
            Action::Templates => "templates",
            Action::Rotate => "rotate",
            Action::Promote => "promote",
            Action::Enable => "enable",
            Action::Disable => "disable",
            Action::Destroy => "destroy",
            Action::Delete => "delete",
            Action::Convert => "convert",
            Action::Encrypt => "encrypt",
            Action::Decrypt => "decrypt",
            Action::Check => "check",
            Action::Info => "info",
            Action::Rewrap => "rewrap",
            Action::Range => "range",
            Action::Sign => "sign",
            Action::Verify => "verify",
            Action::Wrap => "wrap",
            Action::Unwrap => "unwrap",
            Action::Help => "help",
            Action::Version => "version",
        }
    }

    /// Whether it takes an option.
    pub fn takes(self, option: OptionName) -> bool
        ensures { result ≡ takes self option }
    {
        option.is_everywhere() || has(self.options(), option)
    }

    // The options that it takes beside those that each command takes.
    fn options(self) -> &'static [OptionName]
        ensures { result.now ≡ options_of self }
    {
        match self {
            Action::New => NEW,
            Action::Keys => KEYS,
            Action::Rotate => ROTATE,
            Action::Convert => CONVERT,
            Action::Encrypt | Action::Decrypt => STREAM,
            Action::Check | Action::Info => CHECK,
            Action::Rewrap => REWRAP,
            Action::Range => RANGE,
            Action::Sign | Action::Verify => TOKEN,
            Action::Wrap | Action::Unwrap => WRAP,
            _ => NONE,
        }
    }

    // What it must have, in the order of its usage line.
    pub(crate) fn parts(self) -> &'static [Part]
        ensures { result.now ≡ parts_of self }
    {
        match self {
            Action::New => NEW_PARTS,
            Action::Add | Action::Rotate => ADD_PARTS,
            Action::Keys => KEYS_PARTS,
            Action::Promote | Action::Enable | Action::Disable | Action::Destroy | Action::Delete =>
                { EDIT_PARTS }
            Action::Convert => CONVERT_PARTS,
            Action::Encrypt | Action::Decrypt | Action::Check | Action::Sign | Action::Verify => {
                STREAM_PARTS
            }
            Action::Info => INFO_PARTS,
            Action::Rewrap => REWRAP_PARTS,
            Action::Range => RANGE_PARTS,
            Action::Wrap => WRAP_PARTS,
            Action::Unwrap => UNWRAP_PARTS,
            Action::Templates | Action::Help | Action::Version => NO_PART,
        }
    }

    // Whether it takes the id of a key.
    pub(crate) fn takes_id(self) -> bool
        ensures { result ≡ takes_id self }
    {
        match self {
            Action::Promote | Action::Enable | Action::Disable | Action::Destroy | Action::Delete =>
                true,
            _ => false,
        }
    }

    // How many words it takes beside the options.
    pub(crate) fn operands(self) -> u8
        ensures { result ≡ operands_of self }
    {
        match self {
            Action::Templates | Action::Version => 0,
            Action::Add
            | Action::Rotate
            | Action::Promote
            | Action::Enable
            | Action::Disable
            | Action::Destroy
            | Action::Delete => 2,
            _ => 1,
        }
    }
}
