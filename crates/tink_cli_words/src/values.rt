//! The values of options.

ghost use Rattle.std.specs.Prelude.{◌≡◌, ◌≤◌, ◌-◌, ◌^◌, IfSome, option_and_then, option_map};
ghost use Rattle.tink_cli_words.specs.Values.{format_of, id_of, number_of, number_up_to, prefix_of, with_digit, with_digits};

use crate::names::value_named;

/// What a file of keys is written as.
#[derive(Clone, Copy, Debug, PartialEq, Eq)]
pub enum FormatName {
    /// `json`.
    Json,
    /// `binary`.
    Binary,
}

/// The output prefix that the outputs of a key have.
#[derive(Clone, Copy, Debug, PartialEq, Eq)]
pub enum PrefixName {
    /// `tink`.
    Tink,
    /// `raw`.
    Raw,
    /// `legacy`.
    Legacy,
    /// `crunchy`.
    Crunchy,
}

// The names of the formats.
const FORMATS: &[(&str, FormatName)] = &[
    ("json", FormatName::Json),
    ("binary", FormatName::Binary),
];

// The names of the prefixes.
const PREFIXES: &[(&str, PrefixName)] = &[
    ("tink", PrefixName::Tink),
    ("raw", PrefixName::Raw),
    ("legacy", PrefixName::Legacy),
    ("crunchy", PrefixName::Crunchy),
];

// The largest id.
const MAX_ID: u64 = 4_294_967_295;

// The format of a name.
pub(crate) fn format_of(name: Option<&[u8]>) -> Option<FormatName>
    ensures { result ≡ format_of (option_map (λ s. s.now) name.entry) }
{
    match name {
        Some(name) => value_named(FORMATS, name),
        None => None,
    }
}

// The prefix of a name.
pub(crate) fn prefix_of(name: Option<&[u8]>) -> Option<PrefixName>
    ensures { result ≡ prefix_of (option_map (λ s. s.now) name.entry) }
{
    match name {
        Some(name) => value_named(PREFIXES, name),
        None => None,
    }
}

// The number that decimal digits write.
pub(crate) fn number_of(digits: Option<&[u8]>) -> Option<u64>
    ensures { result ≡ number_of (option_map (λ s. s.now) digits.entry) }
{
    match digits {
        Some(digits) => number_up_to(digits, u64::MAX),
        None => None,
    }
}

// The id that decimal digits write.
pub(crate) fn id_of(digits: Option<&[u8]>) -> Option<u32>
    ensures { result ≡ id_of (option_map (λ s. s.now) digits.entry) }
{
    match digits {
        Some(digits) => match number_up_to(digits, MAX_ID) {
            Some(id) => Some(id as u32),
            None => None,
        },
        None => None,
    }
}

// The number that one or more decimal digits write, where it is at most `most`.
fn number_up_to(digits: &[u8], most: u64) -> Option<u64>
    ensures number { result ≡ number_up_to most digits.now }
    ensures bound { IfSome result (λ n. n ≤ most) }
{
    if digits.is_empty() {
        return None;
    }
    read_digits(digits, most)
}

// What the digits are read as, one after another.
fn read_digits(digits: &[u8], most: u64) -> Option<u64>
    ensures number { result ≡ with_digits most 0 digits.now }
    ensures bound { IfSome result (λ n. n ≤ most) }
{
    let mut number = 0;
    'digits: for digit in digits {
        match with_digit(number, *digit, most) {
            Some(next) => number = next,
            None => return None,
        }
    }
    Some(number)
}

// A number with one digit more, where it is at most `most`.
fn with_digit(number: u64, digit: u8, most: u64) -> Option<u64>
    ensures number { result ≡ with_digit most number digit }
    ensures bound { IfSome result (λ n. n ≤ most) }
{
    if digit < b'0' || digit > b'9' {
        return None;
    }
    let Some(tens) = number.checked_mul(10) else {
        return None;
    };
    match tens.checked_add(u64::from(digit - b'0')) {
        Some(next) if next <= most => Some(next),
        _ => None,
    }
}
