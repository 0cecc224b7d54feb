//! Tables of names.

ghost use Rattle.std.specs.Prelude.{◌≡◌};
ghost use Rattle.std.specs.List.{list_all};
ghost use Rattle.std.specs.Char.{is_ascii_digit};
ghost use Rattle.tink_cli_words.specs.Words.{is_long, is_negative, is_option, value_named};

// The value of the first row with this name.
pub(crate) fn value_named<T: Copy>(rows: &[(&str, T)], name: &[u8]) -> Option<T>
    ensures { result ≡ value_named rows.now name.now }
{
    'rows: for (known, value) in rows {
        if name == known.as_bytes() {
            return Some(*value);
        }
    }
    None
}

/// Whether a word begins with a dash, and is more.
pub fn is_option(word: &[u8]) -> bool
    ensures { result ≡ is_option word.now }
{
    word.len() > 1 && word[0] == b'-'
}

// Whether a word begins with two dashes.
pub(crate) fn is_long(word: &[u8]) -> bool
    ensures { result ≡ is_long word.now }
{
    word.len() > 1 && word[0] == b'-' && word[1] == b'-'
}

// Whether a word is a dash and one or more decimal digits.
pub(crate) fn is_negative(word: &[u8]) -> bool
    ensures { result ≡ is_negative word.now }
{
    is_option(word) && are_digits(&word[1..])
}

// Whether each byte is a decimal digit.
fn are_digits(bytes: &[u8]) -> bool
    ensures { result ≡ list_all is_ascii_digit bytes.now }
{
    bytes.iter().all(|byte| byte.is_ascii_digit())
}
