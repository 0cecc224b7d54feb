//! The options.

ghost use Rattle.std.specs.Prelude.{◌≡◌, List, ℕ};
ghost use Rattle.tink_cli_words.specs.Words.{value_named};
ghost use Rattle.tink_cli_words.specs.Options.{code_of, has, has_value, is_everywhere, name_of, option_named};

use crate::names::value_named;

/// An option.
#[derive(Clone, Copy, Debug, PartialEq, Eq)]
pub enum OptionName {
    /// `-k FILE`, `--keys FILE`.
    Keys,
    /// `-o FILE`, `--output FILE`.
    Output,
    /// `--aad TEXT`.
    Aad,
    /// `--format json|binary`.
    Format,
    /// `-t FILE`, `--to FILE`.
    To,
    /// `--to-aad TEXT`.
    ToAad,
    /// `--start N`.
    Start,
    /// `--length N`.
    Length,
    /// `--master FILE`.
    Master,
    /// `--master-aad TEXT`.
    MasterAad,
    /// `--prefix tink|raw|legacy|crunchy`.
    Prefix,
    /// `-q`, `--quiet`.
    Quiet,
    /// `-h`, `--help`.
    Help,
    /// `--force`.
    Force,
    /// `--no-clobber`.
    NoClobber,
    /// `--any`.
    Any,
    /// `--json`.
    Json,
}

// The words of the options.
const OPTIONS: &[(&str, OptionName)] = &[
    ("-k", OptionName::Keys),
    ("--keys", OptionName::Keys),
    ("-o", OptionName::Output),
    ("--output", OptionName::Output),
    ("--aad", OptionName::Aad),
    ("--format", OptionName::Format),
    ("-t", OptionName::To),
    ("--to", OptionName::To),
    ("--to-aad", OptionName::ToAad),
    ("--start", OptionName::Start),
    ("--length", OptionName::Length),
    ("--master", OptionName::Master),
    ("--master-aad", OptionName::MasterAad),
    ("--prefix", OptionName::Prefix),
    ("-q", OptionName::Quiet),
    ("--quiet", OptionName::Quiet),
    ("-h", OptionName::Help),
    ("--help", OptionName::Help),
    ("--force", OptionName::Force),
    ("--no-clobber", OptionName::NoClobber),
    ("--any", OptionName::Any),
    ("--json", OptionName::Json),
];

/// The words of the options, each with its option.
pub fn option_names() -> &'static [(&'static str, OptionName)]
    ensures { (name : List ℕ) → value_named result.now name ≡ option_named name }
{
    OPTIONS
}

impl OptionName {
    /// The option of a word.
    pub fn of_name(word: &[u8]) -> Option<OptionName>
        ensures { result ≡ option_named word.now }
    {
        value_named(OPTIONS, word)
    }

    /// Its long word.
    pub fn name(self) -> &'static str
        ensures { result.now ≡ name_of self }
    {
        match self {
            OptionName::Keys => "--keys",
            OptionName::Output => "--output",
            OptionName::Aad => "--aad",
            OptionName::Format => "--format",
            OptionName::To => "--to",
            OptionName::ToAad => "--to-aad",
            OptionName::Start => "--start",
            OptionName::Length => "--length",
            OptionName::Master => "--master",
            OptionName::MasterAad => "--master-aad",
            OptionName::Prefix => "--prefix",
            OptionName::Quiet => "--quiet",
            OptionName::Help => "--help",
            OptionName::Force => "--force",
            OptionName::NoClobber => "--no-clobber",
            OptionName::Any => "--any",
            OptionName::Json => "--json",
        }
    }

    // Whether a value belongs to it.
    pub(crate) fn has_value(self) -> bool
        ensures { result ≡ has_value self }
    {
        self.code() < OptionName::Quiet as u8
    }

    // Whether each command takes it.
    pub(crate) fn is_everywhere(self) -> bool
        ensures { result ≡ is_everywhere self }
    {
        match self {
            OptionName::Quiet | OptionName::Help => true,
            _ => false,
        }
    }

    // Its number.
    fn code(self) -> u8
        ensures { result ≡ code_of self }
    {
        self as u8
    }
}

// Whether an option is one of these.
pub(crate) fn has(options: &[OptionName], option: OptionName) -> bool
    ensures { result ≡ has options.now option }
{
    let code = option.code();
    'options: for known in options {
        if known.code() == code {
            return true;
        }
    }
    false
}
