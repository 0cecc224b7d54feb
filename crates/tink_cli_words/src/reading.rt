//! The words behind a command's name, one after another.

ghost use Rattle.std.specs.Prelude.{◌≡◌, ◌<◌, IfSome, length, option_map};
ghost use Rattle.tink_cli_words.specs.Lines.{allowed, assigned, ended, first_lacking, is_operand, lacking, lacks, meaning, missing, named, operand, option, read_on, with_equals, with_meaning};
ghost use Rattle.tink_cli_words.specs.Texts.{nothing_read, value_of, with_flag, with_value};
ghost use Rattle.tink_cli_words.specs.Words.{byte_words, equals_at};

use crate::form::Part;
use crate::names::{is_long, is_negative, is_option};
use crate::{Action, OptionName, Why, Word};
use std::marker::Model;

// What a word says where it stands.
#[derive(Drop)]
pub(crate) enum Meaning<'w> {
    // Nothing: help was asked for before it.
    Nothing,
    // No option follows.
    EndOfOptions,
    // An option that has no value.
    Flag(OptionName),
    // The word of an option, whose value is the next word.
    Awaits(OptionName, Word<'w>),
    // The value of an option.
    Value(OptionName, Word<'w>),
    // The first word beside the options.
    First(Word<'w>),
    // The second one.
    Second(Word<'w>),
}

// The options that have no value.
#[derive(Clone, Copy)]
pub(crate) struct Flags {
    pub quiet: bool,
    pub help: bool,
    pub force: bool,
    pub no_clobber: bool,
    pub any: bool,
    pub json: bool,
}

// What the words behind a command's name say.
#[derive(Drop)]
pub(crate) struct Texts<'w> {
    pub next: Option<(OptionName, &'w [u8])>,
    pub keys: Option<&'w [u8]>,
    pub output: Option<&'w [u8]>,
    pub aad: Option<&'w [u8]>,
    pub format: Option<&'w [u8]>,
    pub to: Option<&'w [u8]>,
    pub to_aad: Option<&'w [u8]>,
    pub start: Option<&'w [u8]>,
    pub length: Option<&'w [u8]>,
    pub master: Option<&'w [u8]>,
    pub master_aad: Option<&'w [u8]>,
    pub prefix: Option<&'w [u8]>,
    pub first: Option<&'w [u8]>,
    pub second: Option<&'w [u8]>,
    pub flags: Flags,
    pub options_end: bool,
}

impl<'w> Model for Texts<'w> {
    ghost use Rattle.std.specs.Prelude.{option_map};
    ghost use Rattle.tink_cli_words.specs.Texts.{TextsRead};

    ghost Value = { TextsRead };

    ghost view = { λ t. record {
      next = option_map (λ p. (p.0, p.1.now)) t.next;
      keys = option_map (λ s. s.now) t.keys;
      output = option_map (λ s. s.now) t.output;
      aad = option_map (λ s. s.now) t.aad;
      format = option_map (λ s. s.now) t.format;
      to = option_map (λ s. s.now) t.to;
      to_aad = option_map (λ s. s.now) t.to_aad;
      start = option_map (λ s. s.now) t.start;
      length = option_map (λ s. s.now) t.length;
      master = option_map (λ s. s.now) t.master;
      master_aad = option_map (λ s. s.now) t.master_aad;
      prefix = option_map (λ s. s.now) t.prefix;
      first = option_map (λ s. s.now) t.first;
      second = option_map (λ s. s.now) t.second;
      flags = t.flags;
      options_end = t.options_end;
    } };
}

// What the words behind a command's name say, or the first that is wrong.
pub(crate) fn read<'w>(action: Action, words: &'w [Vec<u8>]) -> Result<Texts<'w>, Why<'w>>
    ensures { result ≡ read_on action nothing_read (byte_words words.now) }
{
    let mut texts = Texts::new();
    'words: for word in words {
        match texts.meaning(action, word.as_slice()) {
            Ok(meaning) => texts = texts.with_meaning(meaning),
            Err(why) => return Err(why),
        }
    }
    texts.finish()
}

impl<'w> Texts<'w> {
    // What no words say.
    fn new() -> Self
        ensures { result ≡ nothing_read }
    {
        Texts {
            next: None,
            keys: None,
            output: None,
            aad: None,
            format: None,
            to: None,
            to_aad: None,
            start: None,
            length: None,
            master: None,
            master_aad: None,
            prefix: None,
            first: None,
            second: None,
            flags: Flags {
                quiet: false,
                help: false,
                force: false,
                no_clobber: false,
                any: false,
                json: false,
            },
            options_end: false,
        }
    }

    // What a word says here, or why it is wrong.
    fn meaning(&self, action: Action, word: &'w [u8]) -> Result<Meaning<'w>, Why<'w>>
        ensures { result ≡ meaning action self.now word.now }
    {
        if self.flags.help {
            return Ok(Meaning::Nothing);
        }
        if let Some((option, _)) = self.next {
            return Ok(Meaning::Value(option, Word::new(word)));
        }
        if self.options_end || is_operand(action, word) {
            return self.operand(action, word);
        }
        self.option(action, word)
    }

    // What a word says that is an option.
    fn option(&self, action: Action, word: &'w [u8]) -> Result<Meaning<'w>, Why<'w>>
        ensures { result ≡ option action self.now word.now }
    {
        if word == b"--".as_slice() {
            return Ok(Meaning::EndOfOptions);
        }
        match OptionName::of_name(word) {
            Some(option) => self.meaning_of(action, option, word),
            None => self.meaning_with_equals(action, word),
        }
    }

    // What the word of an option says.
    fn meaning_of(
        &self,
        action: Action,
        option: OptionName,
        word: &'w [u8],
    ) -> Result<Meaning<'w>, Why<'w>>
        ensures { result ≡ named action self.now option word.now }
    {
        match self.check_allowed(action, option) {
            Ok(()) if option.has_value() => Ok(Meaning::Awaits(option, Word::new(word))),
            Ok(()) => Ok(Meaning::Flag(option)),
            Err(why) => Err(why),
        }
    }

    // Whether an option may be given here, or why not.
    fn check_allowed(&self, action: Action, option: OptionName) -> Result<(), Why<'w>>
        ensures { result ≡ allowed action self.now option }
    {
        if !action.takes(option) {
            return Err(Why::NotTaken(option));
        }
        if self.value(option).is_some() {
            return Err(Why::Twice(option));
        }
        Ok(())
    }

    // What a word says that may be the long word of an option, `=` and its value.
    fn meaning_with_equals(&self, action: Action, word: &'w [u8]) -> Result<Meaning<'w>, Why<'w>>
        ensures { result ≡ assigned action self.now word.now }
    {
        if !is_long(word) {
            return Err(Why::UnknownOption(Word::new(word)));
        }
        let Some(at) = equals_at(word) else {
            return Err(Why::UnknownOption(Word::new(word)));
        };
        match OptionName::of_name(&word[..at]) {
            Some(option) => self.with_equals(action, option, word, &word[at + 1..]),
            None => Err(Why::UnknownOption(Word::new(word))),
        }
    }

    // What the long word of an option, `=` and a value say.
    fn with_equals(
        &self,
        action: Action,
        option: OptionName,
        word: &'w [u8],
        value: &'w [u8],
    ) -> Result<Meaning<'w>, Why<'w>>
        ensures { result ≡ with_equals action self.now option word.now value.now }
    {
        match self.check_allowed(action, option) {
            Ok(()) if option.has_value() => Ok(Meaning::Value(option, Word::new(value))),
            Ok(()) => Err(Why::TakesNoValue(Word::new(word))),
            Err(why) => Err(why),
        }
    }

    // What a word says beside the options.
    fn operand(&self, action: Action, word: &'w [u8]) -> Result<Meaning<'w>, Why<'w>>
        ensures { result ≡ operand action self.now word.now }
    {
        let most = action.operands();
        if self.first.is_none() && most > 0 {
            Ok(Meaning::First(Word::new(word)))
        } else if self.second.is_none() && most > 1 {
            Ok(Meaning::Second(Word::new(word)))
        } else {
            Err(Why::TooMany(Word::new(word)))
        }
    }

    // The same with what a word says.
    fn with_meaning(mut self, meaning: Meaning<'w>) -> Texts<'w>
        ensures { result ≡ with_meaning self.entry meaning.entry }
    {
        match meaning {
            Meaning::Nothing => {}
            Meaning::EndOfOptions => self.options_end = true,
            Meaning::Flag(option) => return self.with_flag(option),
            Meaning::Awaits(option, word) => self.next = Some((option, word.bytes())),
            Meaning::Value(option, value) => return self.with_value(option, value.bytes()),
            Meaning::First(word) => self.first = Some(word.bytes()),
            Meaning::Second(word) => self.second = Some(word.bytes()),
        }
        self
    }

    // The same with an option that has no value.
    fn with_flag(mut self, option: OptionName) -> Texts<'w>
        ensures { result ≡ with_flag self.entry option }
    {
        match option {
            OptionName::Quiet => self.flags.quiet = true,
            OptionName::Help => self.flags.help = true,
            OptionName::Force => self.flags.force = true,
            OptionName::NoClobber => self.flags.no_clobber = true,
            OptionName::Any => self.flags.any = true,
            OptionName::Json => self.flags.json = true,
            _ => {}
        }
        self
    }

    // The same with the value of an option.
    fn with_value(mut self, option: OptionName, value: &'w [u8]) -> Texts<'w>
        ensures { result ≡ with_value self.entry option value.now }
    {
        self.next = None;
        match option {
            OptionName::Keys => self.keys = Some(value),
            OptionName::Output => self.output = Some(value),
            OptionName::Aad => self.aad = Some(value),
            OptionName::Format => self.format = Some(value),
            OptionName::To => self.to = Some(value),
            OptionName::ToAad => self.to_aad = Some(value),
            OptionName::Start => self.start = Some(value),
            OptionName::Length => self.length = Some(value),
            OptionName::Master => self.master = Some(value),
            OptionName::MasterAad => self.master_aad = Some(value),
            OptionName::Prefix => self.prefix = Some(value),
            _ => {}
        }
        self
    }

    // The value of an option.
    pub(crate) fn value(&self, option: OptionName) -> Option<&'w [u8]>
        ensures { option_map (λ s. s.now) result ≡ value_of self.now option }
    {
        match option {
            OptionName::Keys => self.keys,
            OptionName::Output => self.output,
            OptionName::Aad => self.aad,
            OptionName::Format => self.format,
            OptionName::To => self.to,
            OptionName::ToAad => self.to_aad,
            OptionName::Start => self.start,
            OptionName::Length => self.length,
            OptionName::Master => self.master,
            OptionName::MasterAad => self.master_aad,
            OptionName::Prefix => self.prefix,
            _ => None,
        }
    }

    // What all words say, where no value is to come.
    fn finish(self) -> Result<Texts<'w>, Why<'w>>
        ensures { result ≡ ended self.entry }
    {
        match self.next {
            Some((_, word)) => Err(Why::NoValue(Word::new(word))),
            None => Ok(self),
        }
    }

    // Why they are not all that a command must have, or none too many, where that is so.
    pub(crate) fn lacking(&self, action: Action) -> Option<Why<'w>>
        ensures { result ≡ lacking action self.now }
    {
        if let Some(part) = self.first_lacking(action.parts()) {
            return Some(missing(part));
        }
        if self.master_aad.is_some() && self.master.is_none() {
            return Some(Why::Needs(OptionName::MasterAad, OptionName::Master));
        }
        if self.flags.no_clobber && self.output.is_none() {
            return Some(Why::Needs(OptionName::NoClobber, OptionName::Output));
        }
        None
    }

    // The first of these that they lack.
    fn first_lacking(&self, parts: &[Part]) -> Option<Part>
        ensures { result ≡ first_lacking self.now parts.now }
    {
        'parts: for part in parts {
            if self.lacks(*part) {
                return Some(*part);
            }
        }
        None
    }

    // Whether they lack this.
    fn lacks(&self, part: Part) -> bool
        ensures { result ≡ lacks self.now part }
    {
        match part {
            Part::Given(option) => self.value(option).is_none(),
            Part::First(_) => self.first.is_none(),
            Part::Second(_) => self.second.is_none(),
        }
    }
}

// Whether a word is no option: a negative number is none where the id of a key may be.
fn is_operand(action: Action, word: &[u8]) -> bool
    ensures { result ≡ is_operand action word.now }
{
    !is_option(word) || (action.takes_id() && is_negative(word))
}

// Why a line is wrong that lacks this.
fn missing(part: Part) -> Why<'static>
    ensures { result ≡ missing part }
{
    match part {
        Part::Given(option) => Why::Missing(option),
        Part::First(operand) => Why::MissingOperand(operand),
        Part::Second(operand) => Why::MissingOperand(operand),
    }
}

// Where the first `=` is.
pub(crate) fn equals_at(word: &[u8]) -> Option<usize>
    ensures found { result ≡ equals_at word.now }
    ensures inside { IfSome result (λ i. i < length word.now) }
{
    word.iter().position(|byte| *byte == b'=')
}
