ghost use Rattle.std.specs.Prelude.{◌≡◌, MatchResult, None, Some, option_map};
ghost use Rattle.tink_cli_words.specs.Forms.{given};
ghost use Rattle.tink_cli_words.specs.Words.{byte_words};
ghost use Rattle.tink_cli_words.specs.Usages.{usage_of};

use crate::expect::expect;
use std::alloc::Global;
use tink_cli_words::{
    Action, FormatName, Line, PrefixName, Why, command_names, option_names, parse, similar, usage,
};
use tink_io::TinkError;

// What a line spells: a command, or why none: the command that it names, a word for why, the option or the word beside
// the options, and the word of the line.
#[derive(Drop)]
enum Want {
    Spells(Action),
    Wrong(Option<Action>, &'static str, &'static str, &'static str),
}

// Lines of `new` and what they spell.
const NEW_LINES: &[(&str, Want)] = &[
    ("new T -o keys", Want::Spells(Action::New)),
    (
        "new -o keys --format binary --prefix raw T -q",
        Want::Spells(Action::New),
    ),
    (
        "new T",
        Want::Wrong(Some(Action::New), "missing", "--output", ""),
    ),
    (
        "new -o a",
        Want::Wrong(Some(Action::New), "missing operand", "TEMPLATE", ""),
    ),
    (
        "new",
        Want::Wrong(Some(Action::New), "missing operand", "TEMPLATE", ""),
    ),
    (
        "new T -o",
        Want::Wrong(Some(Action::New), "no value", "", "-o"),
    ),
    (
        "new T -o a -o b",
        Want::Wrong(Some(Action::New), "twice", "--output", ""),
    ),
    (
        "new T -o a --output=b",
        Want::Wrong(Some(Action::New), "twice", "--output", ""),
    ),
    (
        "new T -o a --format xml",
        Want::Wrong(Some(Action::New), "no such value", "--format", "xml"),
    ),
    (
        "new T -o a --prefix=",
        Want::Wrong(Some(Action::New), "no such value", "--prefix", ""),
    ),
    (
        "new T -o a --prefix x --format y",
        Want::Wrong(Some(Action::New), "no such value", "--format", "y"),
    ),
    (
        "new T -o a --any",
        Want::Wrong(Some(Action::New), "not taken", "--any", ""),
    ),
];

// The same of the commands that change a file of keys.
const EDIT_LINES: &[(&str, Want)] = &[
    ("add keys T", Want::Spells(Action::Add)),
    (
        "add keys",
        Want::Wrong(Some(Action::Add), "missing operand", "TEMPLATE", ""),
    ),
    (
        "add",
        Want::Wrong(Some(Action::Add), "missing operand", "KEYS", ""),
    ),
    ("keys a --json", Want::Spells(Action::Keys)),
    (
        "keys a b",
        Want::Wrong(Some(Action::Keys), "too many", "", "b"),
    ),
    (
        "keys --json=yes a",
        Want::Wrong(Some(Action::Keys), "takes no value", "", "--json=yes"),
    ),
    ("templates", Want::Spells(Action::Templates)),
    (
        "templates a",
        Want::Wrong(Some(Action::Templates), "too many", "", "a"),
    ),
    ("rotate --any keys T", Want::Spells(Action::Rotate)),
    (
        "rotate keys",
        Want::Wrong(Some(Action::Rotate), "missing operand", "TEMPLATE", ""),
    ),
    ("promote keys 5", Want::Spells(Action::Promote)),
    (
        "promote keys -1",
        Want::Wrong(Some(Action::Promote), "no id", "", "-1"),
    ),
    (
        "promote keys -1x",
        Want::Wrong(Some(Action::Promote), "unknown option", "", "-1x"),
    ),
    (
        "keys -1",
        Want::Wrong(Some(Action::Keys), "unknown option", "", "-1"),
    ),
    ("enable keys 0", Want::Spells(Action::Enable)),
    ("disable keys 4294967295", Want::Spells(Action::Disable)),
    (
        "destroy keys 4294967296",
        Want::Wrong(Some(Action::Destroy), "no id", "", "4294967296"),
    ),
    (
        "delete keys +5",
        Want::Wrong(Some(Action::Delete), "no id", "", "+5"),
    ),
    (
        "delete keys ",
        Want::Wrong(Some(Action::Delete), "no id", "", ""),
    ),
    (
        "delete keys",
        Want::Wrong(Some(Action::Delete), "missing operand", "ID", ""),
    ),
];

// The same of the others on files of keys, and of lines that name none.
const FILE_LINES: &[(&str, Want)] = &[
    (
        "convert keys -o b --format binary",
        Want::Spells(Action::Convert),
    ),
    (
        "convert keys -o b",
        Want::Wrong(Some(Action::Convert), "missing", "--format", ""),
    ),
    (
        "convert",
        Want::Wrong(Some(Action::Convert), "missing operand", "KEYS", ""),
    ),
    ("wrap -k m -o w keys", Want::Spells(Action::Wrap)),
    (
        "wrap -k m keys",
        Want::Wrong(Some(Action::Wrap), "missing", "--output", ""),
    ),
    (
        "wrap -k m -o w",
        Want::Wrong(Some(Action::Wrap), "missing operand", "KEYS", ""),
    ),
    (
        "unwrap -k m -o w --aad x --format json f",
        Want::Spells(Action::Unwrap),
    ),
    (
        "unwrap -k m -o w",
        Want::Wrong(Some(Action::Unwrap), "missing operand", "WRAPPED", ""),
    ),
    ("help", Want::Spells(Action::Help)),
    ("help new", Want::Spells(Action::Help)),
    (
        "help nonsense",
        Want::Wrong(Some(Action::Help), "unknown command", "", "nonsense"),
    ),
    ("--help", Want::Spells(Action::Help)),
    ("-h", Want::Spells(Action::Help)),
    ("version", Want::Spells(Action::Version)),
    ("--version", Want::Spells(Action::Version)),
    ("-V", Want::Spells(Action::Version)),
    (
        "version x",
        Want::Wrong(Some(Action::Version), "too many", "", "x"),
    ),
    (
        "nonsense -x",
        Want::Wrong(None, "unknown command", "", "nonsense"),
    ),
    ("", Want::Wrong(None, "unknown command", "", "")),
];

// The same of `encrypt`.
const ENCRYPT_LINES: &[(&str, Want)] = &[
    ("encrypt -k keys", Want::Spells(Action::Encrypt)),
    (
        "encrypt -k keys -o out --aad -x in -q --force --no-clobber",
        Want::Spells(Action::Encrypt),
    ),
    (
        "encrypt --master m --master-aad a -k keys",
        Want::Spells(Action::Encrypt),
    ),
    (
        "encrypt in",
        Want::Wrong(Some(Action::Encrypt), "missing", "--keys", ""),
    ),
    (
        "encrypt -k keys --format json in",
        Want::Wrong(Some(Action::Encrypt), "not taken", "--format", ""),
    ),
    (
        "encrypt -k keys --format=json in",
        Want::Wrong(Some(Action::Encrypt), "not taken", "--format", ""),
    ),
    (
        "encrypt -k a -t b",
        Want::Wrong(Some(Action::Encrypt), "not taken", "--to", ""),
    ),
    (
        "encrypt -k a --master-aad b",
        Want::Wrong(Some(Action::Encrypt), "needs", "--master-aad", "--master"),
    ),
    (
        "encrypt -k a --no-clobber",
        Want::Wrong(Some(Action::Encrypt), "needs", "--no-clobber", "--output"),
    ),
    (
        "encrypt --no-clobber",
        Want::Wrong(Some(Action::Encrypt), "missing", "--keys", ""),
    ),
    (
        "encrypt -k=a",
        Want::Wrong(Some(Action::Encrypt), "unknown option", "", "-k=a"),
    ),
    (
        "encrypt --quiet=",
        Want::Wrong(Some(Action::Encrypt), "takes no value", "", "--quiet="),
    ),
    (
        "encrypt --=a",
        Want::Wrong(Some(Action::Encrypt), "unknown option", "", "--=a"),
    ),
    ("encrypt -k a -- -b", Want::Spells(Action::Encrypt)),
    (
        "encrypt -k a -- -b --quiet",
        Want::Wrong(Some(Action::Encrypt), "too many", "", "--quiet"),
    ),
    ("encrypt -k a -- --", Want::Spells(Action::Encrypt)),
    ("encrypt -k --", Want::Spells(Action::Encrypt)),
    ("encrypt -k a ", Want::Spells(Action::Encrypt)),
    (
        "encrypt -k a  b",
        Want::Wrong(Some(Action::Encrypt), "too many", "", "b"),
    ),
];

// The same of `decrypt`, `check` and `info`.
const DECRYPT_LINES: &[(&str, Want)] = &[
    (
        "decrypt --keys keys - --quiet",
        Want::Spells(Action::Decrypt),
    ),
    ("decrypt --keys=keys -", Want::Spells(Action::Decrypt)),
    (
        "decrypt -k keys --no-such",
        Want::Wrong(Some(Action::Decrypt), "unknown option", "", "--no-such"),
    ),
    (
        "decrypt -k keys --keyz=a",
        Want::Wrong(Some(Action::Decrypt), "unknown option", "", "--keyz=a"),
    ),
    (
        "decrypt -x -y",
        Want::Wrong(Some(Action::Decrypt), "unknown option", "", "-x"),
    ),
    (
        "decrypt -k keys a b",
        Want::Wrong(Some(Action::Decrypt), "too many", "", "b"),
    ),
    ("decrypt --help", Want::Spells(Action::Decrypt)),
    ("decrypt -h --no-such a b c", Want::Spells(Action::Decrypt)),
    (
        "decrypt --no-such -h",
        Want::Wrong(Some(Action::Decrypt), "unknown option", "", "--no-such"),
    ),
    ("decrypt -k -h", Want::Spells(Action::Decrypt)),
    ("check -k keys --aad x", Want::Spells(Action::Check)),
    (
        "check -k keys -o x",
        Want::Wrong(Some(Action::Check), "not taken", "--output", ""),
    ),
    ("info -k keys in", Want::Spells(Action::Info)),
    (
        "info -k keys",
        Want::Wrong(Some(Action::Info), "missing operand", "IN", ""),
    ),
];

// The same of the others.
const RANGE_LINES: &[(&str, Want)] = &[
    (
        "rewrap -k a --aad x -t b --to-aad y -o c d",
        Want::Spells(Action::Rewrap),
    ),
    ("rewrap -k a --to b --force", Want::Spells(Action::Rewrap)),
    (
        "rewrap -k a b",
        Want::Wrong(Some(Action::Rewrap), "missing", "--to", ""),
    ),
    (
        "range -k a --start 1 --length 2 b",
        Want::Spells(Action::Range),
    ),
    (
        "range -k a --start=0 --length=18446744073709551615 b",
        Want::Spells(Action::Range),
    ),
    (
        "range -k a --start 1 --length 2",
        Want::Wrong(Some(Action::Range), "missing operand", "IN", ""),
    ),
    (
        "range -k a --start 1 b",
        Want::Wrong(Some(Action::Range), "missing", "--length", ""),
    ),
    (
        "range --start x",
        Want::Wrong(Some(Action::Range), "missing", "--keys", ""),
    ),
    (
        "range -k a --start 18446744073709551616 --length x b",
        Want::Wrong(
            Some(Action::Range),
            "no number",
            "--start",
            "18446744073709551616",
        ),
    ),
    (
        "range -k a --start 1 --length -2 b",
        Want::Wrong(Some(Action::Range), "no number", "--length", "-2"),
    ),
    (
        "range -k a --start 1 --length 0x2 b",
        Want::Wrong(Some(Action::Range), "no number", "--length", "0x2"),
    ),
    (
        "range -k a --start 1 --length= b",
        Want::Wrong(Some(Action::Range), "no number", "--length", ""),
    ),
    (
        "decrypt -k a --start 1 b",
        Want::Wrong(Some(Action::Decrypt), "not taken", "--start", ""),
    ),
    (
        "sign -k a --master m b --no-clobber -o c",
        Want::Spells(Action::Sign),
    ),
    ("verify -k a -o b", Want::Spells(Action::Verify)),
    (
        "sign -k a --aad x b",
        Want::Wrong(Some(Action::Sign), "not taken", "--aad", ""),
    ),
    (
        "sign -k a --force b",
        Want::Wrong(Some(Action::Sign), "not taken", "--force", ""),
    ),
];

// A value of a line.
enum Field {
    Keys,
    Output,
    Aad,
    To,
    ToAad,
    Master,
    MasterAad,
    First,
    Second,
}

// The texts of lines.
const TEXTS: &[(&str, Field, Option<&str>)] = &[
    ("encrypt -k a -o b --aad c d", Field::Keys, Some("a")),
    ("encrypt -k a -o b --aad c d", Field::Output, Some("b")),
    ("encrypt -k a -o b --aad c d", Field::Aad, Some("c")),
    ("encrypt -k a -o b --aad c d", Field::First, Some("d")),
    ("encrypt -k a -o b --aad c d", Field::Second, None),
    ("encrypt -k a -o b --aad c d", Field::To, None),
    ("encrypt --keys=a=b --aad=", Field::Keys, Some("a=b")),
    ("encrypt --keys=a=b --aad=", Field::Aad, Some("")),
    ("encrypt -k a -- --aad=x", Field::First, Some("--aad=x")),
    ("encrypt -k --aad -", Field::Keys, Some("--aad")),
    ("encrypt -k --aad -", Field::First, Some("-")),
    ("rewrap -k a -t b --to-aad c --aad d", Field::To, Some("b")),
    (
        "rewrap -k a -t b --to-aad c --aad d",
        Field::ToAad,
        Some("c"),
    ),
    ("rewrap -k a -t b --to-aad c --aad d", Field::Aad, Some("d")),
    (
        "sign -k a --master b --master-aad c",
        Field::Master,
        Some("b"),
    ),
    (
        "sign -k a --master b --master-aad c",
        Field::MasterAad,
        Some("c"),
    ),
    ("add a b", Field::Second, Some("b")),
];

// The command that the words spell, or why they spell none.
fn spells(words: &[Vec<u8>], want: &Want) -> bool {
    match parse(words) {
        Ok(given) => match *want {
            Want::Spells(action) => given.action == action,
            Want::Wrong(..) => false,
        },
        Err(wrong) => match *want {
            Want::Spells(_) => false,
            Want::Wrong(action, why, name, word) => {
                wrong.action == action && is_why(&wrong.why, why, name, word)
            }
        },
    }
}

// Whether words are wrong for this.
fn is_why(why: &Why<'_>, text: &str, name: &str, word: &str) -> bool {
    let (got_text, got_name, got_word) = texts_of(why);
    got_text == text && got_name == name && got_word == word.as_bytes()
}

// Why words are wrong: a word for it, the option or the word beside the options, and the word of the line.
fn texts_of<'w>(why: &Why<'w>) -> (&'static str, &'static str, &'w [u8]) {
    match why {
        Why::NoCommand => ("no command", "", "".as_bytes()),
        Why::UnknownCommand(word) => ("unknown command", "", word.bytes()),
        Why::UnknownOption(word) => ("unknown option", "", word.bytes()),
        Why::NoValue(word) => ("no value", "", word.bytes()),
        Why::TakesNoValue(word) => ("takes no value", "", word.bytes()),
        Why::Twice(option) => ("twice", option.name(), "".as_bytes()),
        Why::NotTaken(option) => ("not taken", option.name(), "".as_bytes()),
        Why::Missing(option) => ("missing", option.name(), "".as_bytes()),
        Why::MissingOperand(operand) => ("missing operand", operand.name(), "".as_bytes()),
        Why::TooMany(word) => ("too many", "", word.bytes()),
        Why::NoNumber(option, word) => ("no number", option.name(), word.bytes()),
        Why::NoId(word) => ("no id", "", word.bytes()),
        Why::NoSuchValue(option, word) => ("no such value", option.name(), word.bytes()),
        Why::Needs(option, other) => ("needs", option.name(), other.name().as_bytes()),
    }
}

// The words of a line.
fn words_of(alloc: Global, line: &str) -> Result<Vec<Vec<u8>>, TinkError> {
    let mut words = Vec::new(alloc);
    for word in line.split(' ') {
        words.push(Vec::from_slice(alloc, word.as_bytes())?)?;
    }
    Ok(words)
}

// Whether a line spells this.
fn line_spells(alloc: Global, line: &str, want: &Want) -> Result<bool, TinkError> {
    match words_of(alloc, line) {
        Ok(words) => Ok(spells(words.as_slice(), want)),
        Err(e) => Err(e),
    }
}

#[test]
fn lines_of_new_spell_it(rt: HostRuntime) {
    for (line, want) in NEW_LINES {
        expect(&rt, line_spells(rt.alloc(), line, want), Ok(true), line);
    }
}

#[test]
fn lines_of_edits_spell_them(rt: HostRuntime) {
    for (line, want) in EDIT_LINES {
        expect(&rt, line_spells(rt.alloc(), line, want), Ok(true), line);
    }
}

#[test]
fn lines_of_files_spell_commands(rt: HostRuntime) {
    for (line, want) in FILE_LINES {
        expect(&rt, line_spells(rt.alloc(), line, want), Ok(true), line);
    }
}

#[test]
fn lines_of_encrypt_spell_it(rt: HostRuntime) {
    for (line, want) in ENCRYPT_LINES {
        expect(&rt, line_spells(rt.alloc(), line, want), Ok(true), line);
    }
}

#[test]
fn lines_of_decrypt_spell_it(rt: HostRuntime) {
    for (line, want) in DECRYPT_LINES {
        expect(&rt, line_spells(rt.alloc(), line, want), Ok(true), line);
    }
}

#[test]
fn lines_of_ranges_and_tokens_spell_them(rt: HostRuntime) {
    for (line, want) in RANGE_LINES {
        expect(&rt, line_spells(rt.alloc(), line, want), Ok(true), line);
    }
}

// A text of a line.
fn text<'w>(line: &Line<'w>, field: &Field) -> Option<&'w [u8]> {
    match *field {
        Field::Keys => line.keys(),
        Field::Output => line.output(),
        Field::Aad => line.aad(),
        Field::To => line.to(),
        Field::ToAad => line.to_aad(),
        Field::Master => line.master(),
        Field::MasterAad => line.master_aad(),
        Field::First => line.first(),
        Field::Second => line.second(),
    }
}

// Whether the words say this text.
fn say_text(words: &[Vec<u8>], field: &Field, want: &Option<&str>) -> bool {
    match parse(words) {
        Ok(given) => match (text(&given.line, field), *want) {
            (Some(got), Some(want)) => got == want.as_bytes(),
            (None, None) => true,
            _ => false,
        },
        Err(_) => false,
    }
}

// Whether a line says this text.
fn line_says(
    alloc: Global,
    line: &str,
    field: &Field,
    want: &Option<&str>,
) -> Result<bool, TinkError> {
    match words_of(alloc, line) {
        Ok(words) => Ok(say_text(words.as_slice(), field, want)),
        Err(e) => Err(e),
    }
}

#[test]
fn lines_say_texts(rt: HostRuntime) {
    for (line, field, want) in TEXTS {
        expect(
            &rt,
            line_says(rt.alloc(), line, field, want),
            Ok(true),
            line,
        );
    }
}

// What a range starts with and its length, or an id.
enum Number {
    Start(u64),
    Length(u64),
    Id(u32),
    None,
}

// The numbers of lines.
const NUMBERS: &[(&str, Number)] = &[
    (
        "range -k a --start 7 --length 18446744073709551615 b",
        Number::Start(7),
    ),
    (
        "range -k a --start 7 --length 18446744073709551615 b",
        Number::Length(u64::MAX),
    ),
    ("delete keys 0042", Number::Id(42)),
    ("delete keys 4294967295", Number::Id(u32::MAX)),
    ("add keys 7", Number::None),
];

// Whether the words say this number.
fn say_number(words: &[Vec<u8>], want: &Number) -> bool {
    match parse(words) {
        Ok(given) => match *want {
            Number::Start(n) => given.line.start() == Some(n),
            Number::Length(n) => given.line.length() == Some(n),
            Number::Id(n) => given.line.id() == Some(n),
            Number::None => given.line.id() == None,
        },
        Err(_) => false,
    }
}

// Whether a line says this number.
fn line_counts(alloc: Global, line: &str, want: &Number) -> Result<bool, TinkError> {
    match words_of(alloc, line) {
        Ok(words) => Ok(say_number(words.as_slice(), want)),
        Err(e) => Err(e),
    }
}

#[test]
fn lines_say_numbers(rt: HostRuntime) {
    for (line, want) in NUMBERS {
        expect(&rt, line_counts(rt.alloc(), line, want), Ok(true), line);
    }
}

// A name or an option without a value of a line.
enum Name {
    Format(FormatName),
    Prefix(PrefixName),
    Topic(Action),
    Quiet,
    Forced,
    NoClobber,
    Any,
    Json,
    AsksHelp,
    Nothing,
}

// The names of lines.
const NAMES: &[(&str, Name)] = &[
    ("new T -o a --format json", Name::Format(FormatName::Json)),
    (
        "new T -o a --format binary",
        Name::Format(FormatName::Binary),
    ),
    ("new T -o a --prefix tink", Name::Prefix(PrefixName::Tink)),
    ("new T -o a --prefix raw", Name::Prefix(PrefixName::Raw)),
    (
        "new T -o a --prefix legacy",
        Name::Prefix(PrefixName::Legacy),
    ),
    (
        "new T -o a --prefix crunchy",
        Name::Prefix(PrefixName::Crunchy),
    ),
    ("help rewrap", Name::Topic(Action::Rewrap)),
    ("encrypt -k a -q", Name::Quiet),
    ("encrypt -k a --force", Name::Forced),
    ("encrypt -k a --no-clobber -o b", Name::NoClobber),
    ("rotate --any a T", Name::Any),
    ("keys --json a", Name::Json),
    ("sign --help", Name::AsksHelp),
    ("new T -o a", Name::Nothing),
];

// Whether the words say this name.
fn say_name(words: &[Vec<u8>], want: &Name) -> bool {
    match parse(words) {
        Ok(given) => has_name(&given.line, want),
        Err(_) => false,
    }
}

// Whether a line has this name.
fn has_name(line: &Line<'_>, want: &Name) -> bool {
    match *want {
        Name::Format(name) => line.format() == Some(name),
        Name::Prefix(name) => line.prefix() == Some(name),
        Name::Topic(name) => line.topic() == Some(name),
        Name::Quiet => line.is_quiet(),
        Name::Forced => line.is_forced(),
        Name::NoClobber => line.is_no_clobber(),
        Name::Any => line.is_any(),
        Name::Json => line.is_json(),
        Name::AsksHelp => line.asks_help(),
        Name::Nothing => is_plain(line),
    }
}

// Whether a line has no name, and no option without a value.
fn is_plain(line: &Line<'_>) -> bool {
    (line.format() == None)
        & (line.prefix() == None)
        & (line.topic() == None)
        & !line.is_quiet()
        & !line.is_forced()
        & !line.is_no_clobber()
        & !line.is_any()
        & !line.is_json()
        & !line.asks_help()
}

// Whether a line has this name.
fn line_names(alloc: Global, line: &str, want: &Name) -> Result<bool, TinkError> {
    match words_of(alloc, line) {
        Ok(words) => Ok(say_name(words.as_slice(), want)),
        Err(e) => Err(e),
    }
}

#[test]
fn lines_say_names(rt: HostRuntime) {
    for (line, want) in NAMES {
        expect(&rt, line_names(rt.alloc(), line, want), Ok(true), line);
    }
}

// Words that are no UTF-8 are read as they are.
fn bytes_are_read(alloc: Global) -> Result<bool, TinkError> {
    let mut words = Vec::new(alloc);
    words.push(Vec::from_slice(alloc, b"keys")?)?;
    words.push(Vec::from_slice(alloc, &[0xff, 0x2f, 0xc0])?)?;
    match parse(words.as_slice()) {
        Ok(given) => Ok(given.line.first() == Some([0xff, 0x2f, 0xc0].as_slice())),
        Err(_) => Ok(false),
    }
}

#[test]
fn words_need_not_be_text(rt: HostRuntime) {
    expect(&rt, bytes_are_read(rt.alloc()), Ok(true), "no UTF-8");
}

// The usage line of the command that the words spell.
fn usage_of_command(words: &[Vec<u8>]) -> Option<&'static str>
    ensures { MatchResult (given (byte_words words.now)) (λ g. option_map (λ s. s.now) result ≡ Some (usage_of g.action)) (λ w. result ≡ None) }
{
    match parse(words) {
        Ok(given) => Some(usage(given.action)),
        Err(_) => None,
    }
}

#[test]
fn no_words_spell_nothing(rt: HostRuntime) {
    let want = Want::Wrong(None, "no command", "", "");
    expect(&rt, spells(&[], &want), true, "no words");
    expect(&rt, usage_of_command(&[]), None, "no words");
}

// Words and the names that are like them: of a command, or of an option.
const COMMANDS: &[(&str, Option<&str>)] = &[
    ("encrpyt", Some("encrypt")),
    ("encyrpte", Some("encrypt")),
    ("decript", Some("decrypt")),
    ("key", Some("keys")),
    ("rewarp", Some("rewrap")),
    ("nonsense", None),
    ("", None),
    ("x", None),
];

const OPTIONS: &[(&str, Option<&str>)] = &[
    ("--keyz", Some("--keys")),
    ("--ouptut", Some("--output")),
    ("--lenght", Some("--length")),
    ("--no-clober", Some("--no-clobber")),
    ("--nonsense", None),
    ("-ka", Some("-k")),
    ("-k=a", Some("-k")),
    ("-x", None),
    ("-1", None),
];

#[test]
fn names_are_like_words(rt: HostRuntime) {
    for (word, want) in COMMANDS {
        expect(&rt, similar(word.as_bytes(), command_names()), *want, word);
    }
    for (word, want) in OPTIONS {
        expect(&rt, similar(word.as_bytes(), option_names()), *want, word);
    }
}
