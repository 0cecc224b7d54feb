//! A command's line.

ghost use Rattle.std.specs.Prelude.{◌≡◌, option_map};
ghost use Rattle.tink_cli_words.specs.Lines.{id_text, line_of, line_with, no_number, no_such_value, topic_of, topic_text, unread, unreadable, unusable, usable, no_such_operand};
ghost use Rattle.tink_cli_words.specs.Words.{byte_words};

use crate::reading::{Flags, Texts, read};
use crate::values::{format_of, id_of, number_of, prefix_of};
use crate::{Action, FormatName, OptionName, PrefixName, Why, Word};
use std::marker::Model;

/// What the words behind a command's name say. A contract sees the values.
#[derive(Drop)]
pub struct Line<'w> {
    keys: Option<&'w [u8]>,
    output: Option<&'w [u8]>,
    aad: Option<&'w [u8]>,
    to: Option<&'w [u8]>,
    to_aad: Option<&'w [u8]>,
    master: Option<&'w [u8]>,
    master_aad: Option<&'w [u8]>,
    first: Option<&'w [u8]>,
    second: Option<&'w [u8]>,
    format: Option<FormatName>,
    prefix: Option<PrefixName>,
    start: Option<u64>,
    length: Option<u64>,
    id: Option<u32>,
    topic: Option<Action>,
    flags: Flags,
}

impl<'w> Model for Line<'w> {
    ghost use Rattle.std.specs.Prelude.{option_map};
    ghost use Rattle.tink_cli_words.specs.LineRead.{LineRead};

    ghost Value = { LineRead };

    ghost view = { λ l. record {
      keys = option_map (λ s. s.now) l.keys;
      output = option_map (λ s. s.now) l.output;
      aad = option_map (λ s. s.now) l.aad;
      to = option_map (λ s. s.now) l.to;
      to_aad = option_map (λ s. s.now) l.to_aad;
      master = option_map (λ s. s.now) l.master;
      master_aad = option_map (λ s. s.now) l.master_aad;
      first = option_map (λ s. s.now) l.first;
      second = option_map (λ s. s.now) l.second;
      format = l.format;
      prefix = l.prefix;
      start = l.start;
      length = l.length;
      id = l.id;
      topic = l.topic;
      quiet = l.flags.quiet;
      help = l.flags.help;
      force = l.flags.force;
      no_clobber = l.flags.no_clobber;
      any = l.flags.any;
      json = l.flags.json;
    } };
}

impl<'w> Line<'w> {
    // The line of a command whose words say this.
    fn new(action: Action, texts: Texts<'w>) -> Self
        ensures { result ≡ line_with action texts.entry }
    {
        Line {
            id: id_of(id_text(action, &texts)),
            topic: topic_of(topic_text(action, &texts)),
            format: format_of(texts.format),
            prefix: prefix_of(texts.prefix),
            start: number_of(texts.start),
            length: number_of(texts.length),
            keys: texts.keys,
            output: texts.output,
            aad: texts.aad,
            to: texts.to,
            to_aad: texts.to_aad,
            master: texts.master,
            master_aad: texts.master_aad,
            first: texts.first,
            second: texts.second,
            flags: texts.flags,
        }
    }

    /// The file of keys (`--keys`).
    pub fn keys(&self) -> Option<&'w [u8]>
        ensures { option_map (λ s. s.now) result ≡ self.now.keys }
    {
        self.keys
    }

    /// The file to be written (`--output`).
    pub fn output(&self) -> Option<&'w [u8]>
        ensures { option_map (λ s. s.now) result ≡ self.now.output }
    {
        self.output
    }

    /// The associated data (`--aad`).
    pub fn aad(&self) -> Option<&'w [u8]>
        ensures { option_map (λ s. s.now) result ≡ self.now.aad }
    {
        self.aad
    }

    /// The file of keys of a new stream (`--to`).
    pub fn to(&self) -> Option<&'w [u8]>
        ensures { option_map (λ s. s.now) result ≡ self.now.to }
    {
        self.to
    }

    /// The associated data of a new stream (`--to-aad`).
    pub fn to_aad(&self) -> Option<&'w [u8]>
        ensures { option_map (λ s. s.now) result ≡ self.now.to_aad }
    {
        self.to_aad
    }

    /// The file of the keys that the file of keys is wrapped under (`--master`).
    pub fn master(&self) -> Option<&'w [u8]>
        ensures { option_map (λ s. s.now) result ≡ self.now.master }
    {
        self.master
    }

    /// The associated data of the wrapped file of keys (`--master-aad`).
    pub fn master_aad(&self) -> Option<&'w [u8]>
        ensures { option_map (λ s. s.now) result ≡ self.now.master_aad }
    {
        self.master_aad
    }

    /// The first word that is no option and no option's value.
    pub fn first(&self) -> Option<&'w [u8]>
        ensures { option_map (λ s. s.now) result ≡ self.now.first }
    {
        self.first
    }

    /// The second one.
    pub fn second(&self) -> Option<&'w [u8]>
        ensures { option_map (λ s. s.now) result ≡ self.now.second }
    {
        self.second
    }

    /// The format of a file of keys (`--format`).
    pub fn format(&self) -> Option<FormatName>
        ensures { result ≡ self.now.format }
    {
        self.format
    }

    /// The output prefix of a new key (`--prefix`).
    pub fn prefix(&self) -> Option<PrefixName>
        ensures { result ≡ self.now.prefix }
    {
        self.prefix
    }

    /// The first byte of a range, counted from 0 (`--start`).
    pub fn start(&self) -> Option<u64>
        ensures { result ≡ self.now.start }
    {
        self.start
    }

    /// The length of a range in bytes (`--length`).
    pub fn length(&self) -> Option<u64>
        ensures { result ≡ self.now.length }
    {
        self.length
    }

    /// The id of a key: the second word of `promote`, `enable`, `disable`, `destroy` and `delete`.
    pub fn id(&self) -> Option<u32>
        ensures { result ≡ self.now.id }
    {
        self.id
    }

    /// The command that `help` is asked of.
    pub fn topic(&self) -> Option<Action>
        ensures { result ≡ self.now.topic }
    {
        self.topic
    }

    /// Whether only errors are printed (`--quiet`).
    pub fn is_quiet(&self) -> bool
        ensures { result ≡ self.now.quiet }
    {
        self.flags.quiet
    }

    /// Whether help is asked for (`--help`).
    pub fn asks_help(&self) -> bool
        ensures { result ≡ self.now.help }
    {
        self.flags.help
    }

    /// Whether `--force` is given.
    pub fn is_forced(&self) -> bool
        ensures { result ≡ self.now.force }
    {
        self.flags.force
    }

    /// Whether a file that exists is not replaced (`--no-clobber`).
    pub fn is_no_clobber(&self) -> bool
        ensures { result ≡ self.now.no_clobber }
    {
        self.flags.no_clobber
    }

    /// Whether a template of any kind is taken (`--any`).
    pub fn is_any(&self) -> bool
        ensures { result ≡ self.now.any }
    {
        self.flags.any
    }

    /// Whether the answer is JSON (`--json`).
    pub fn is_json(&self) -> bool
        ensures { result ≡ self.now.json }
    {
        self.flags.json
    }
}

// What the words behind a command's name say, or why they are wrong.
pub(crate) fn line_of<'w>(action: Action, words: &'w [Vec<u8>]) -> Result<Line<'w>, Why<'w>>
    ensures { result ≡ line_of action (byte_words words.now) }
{
    match read(action, words) {
        Ok(texts) => usable(action, texts),
        Err(why) => Err(why),
    }
}

// The line of a command whose words say this, where they ask for help or are all that it must have.
fn usable<'w>(action: Action, texts: Texts<'w>) -> Result<Line<'w>, Why<'w>>
    ensures { result ≡ usable action texts.entry }
{
    match unusable(action, &texts) {
        Some(why) => Err(why),
        None => Ok(Line::new(action, texts)),
    }
}

// Why the words are wrong, where they say this.
fn unusable<'w>(action: Action, texts: &Texts<'w>) -> Option<Why<'w>>
    ensures { result ≡ unusable action texts.now }
{
    if texts.flags.help {
        return None;
    }
    match texts.lacking(action) {
        Some(why) => Some(why),
        None => unreadable(action, texts),
    }
}

// The first value that cannot be read.
fn unreadable<'w>(action: Action, texts: &Texts<'w>) -> Option<Why<'w>>
    ensures { result ≡ unreadable action texts.now }
{
    if let Some(why) = no_such_value(texts) {
        return Some(why);
    }
    if let Some(why) = no_number(texts) {
        return Some(why);
    }
    no_such_operand(action, texts)
}

// The first name that is none.
fn no_such_value<'w>(texts: &Texts<'w>) -> Option<Why<'w>>
    ensures { result ≡ no_such_value texts.now }
{
    if let Some(word) = unread_text(texts.format, format_of(texts.format).is_some()) {
        return Some(Why::NoSuchValue(OptionName::Format, word));
    }
    match unread_text(texts.prefix, prefix_of(texts.prefix).is_some()) {
        Some(word) => Some(Why::NoSuchValue(OptionName::Prefix, word)),
        None => None,
    }
}

// The first number that is none.
fn no_number<'w>(texts: &Texts<'w>) -> Option<Why<'w>>
    ensures { result ≡ no_number texts.now }
{
    if let Some(word) = unread_text(texts.start, number_of(texts.start).is_some()) {
        return Some(Why::NoNumber(OptionName::Start, word));
    }
    match unread_text(texts.length, number_of(texts.length).is_some()) {
        Some(word) => Some(Why::NoNumber(OptionName::Length, word)),
        None => None,
    }
}

// The id that is none, or the command.
fn no_such_operand<'w>(action: Action, texts: &Texts<'w>) -> Option<Why<'w>>
    ensures { result ≡ no_such_operand action texts.now }
{
    let id = id_text(action, texts);
    if let Some(word) = unread_text(id, id_of(id).is_some()) {
        return Some(Why::NoId(word));
    }
    let topic = topic_text(action, texts);
    match unread_text(topic, topic_of(topic).is_some()) {
        Some(word) => Some(Why::UnknownCommand(word)),
        None => None,
    }
}

// A text that is not read.
fn unread_text<'w>(text: Option<&'w [u8]>, is_read: bool) -> Option<Word<'w>>
    ensures { result ≡ unread (option_map (λ s. s.now) text.entry) is_read }
{
    match text {
        Some(text) if !is_read => Some(Word::new(text)),
        _ => None,
    }
}

// The text of the id of a key.
fn id_text<'w>(action: Action, texts: &Texts<'w>) -> Option<&'w [u8]>
    ensures { option_map (λ s. s.now) result ≡ id_text action texts.now }
{
    match action {
        Action::Promote | Action::Enable | Action::Disable | Action::Destroy | Action::Delete => {
            texts.second
        }
        _ => None,
    }
}

// The name of the command that help is asked of.
fn topic_text<'w>(action: Action, texts: &Texts<'w>) -> Option<&'w [u8]>
    ensures { option_map (λ s. s.now) result ≡ topic_text action texts.now }
{
    match action {
        Action::Help => texts.first,
        _ => None,
    }
}

// The command of a name.
fn topic_of(name: Option<&[u8]>) -> Option<Action>
    ensures { result ≡ topic_of (option_map (λ s. s.now) name.entry) }
{
    match name {
        Some(name) => Action::of_name(name),
        None => None,
    }
}
