//! Which lines are those of the program over the standard streams.

ghost use Rattle.std.specs.Prelude.{◌≡◌, ◌||◌};
ghost use Rattle.std.specs.List.{list_all};
ghost use Rattle.std.specs.Char.{is_ascii_hexdigit};
ghost use Rattle.tink_cli.specs.Claims.{claim_of, has_no_keyset, has_option, is_keyset, is_of_streams, is_rotation, is_shared, is_template};
ghost use Rattle.tink_cli_words.specs.Words.{byte_words, is};

use tink_cli_words::is_option;

// Which lines that begin with a name are that program's.
enum Claim {
    All,
    OfFourWords,
    WithoutOptions,
    Never,
}

/// Whether the words are those of the program over the standard streams.
pub fn is_of_streams(words: &[Vec<u8>]) -> bool
    ensures { result ≡ is_of_streams (byte_words words.now) }
{
    let Some(name) = words.first() else {
        return false;
    };
    match claim_of(name.as_slice()) {
        Claim::All => true,
        Claim::OfFourWords => is_rotation(words),
        Claim::WithoutOptions => !has_option(words),
        Claim::Never => false,
    }
}

// Whether these are four words with a keyset, a template and a seed: the keyset and the seed are no options.
fn is_rotation(words: &[Vec<u8>]) -> bool
    ensures { result ≡ is_rotation (byte_words words.now) }
{
    words.len() == 4
        && !is_option(words[1].as_slice())
        && !is_option(words[3].as_slice())
        && is_template(words[2].as_slice(), words[3].as_slice())
}

// Whether a word is a template's name by the word behind it: if that is as long as a seed, any word is.
fn is_template(word: &[u8], seed: &[u8]) -> bool
    ensures { result ≡ is_template word.now seed.now }
{
    seed.len() == 64 || !is_option(word)
}

// What is claimed of a name's lines.
fn claim_of(name: &[u8]) -> Claim
    ensures { result ≡ claim_of name.now }
{
    if is(name, "seal") || is(name, "open") || is(name, "keygen") || is(name, "large") {
        return Claim::All;
    }
    if is(name, "rotate") {
        return Claim::OfFourWords;
    }
    if is(name, "rewrap") || is(name, "sign") || is(name, "verify") || is(name, "range") {
        return Claim::WithoutOptions;
    }
    Claim::Never
}

// Whether a word is this text.
fn is(word: &[u8], text: &str) -> bool
    ensures { result ≡ is word.now text.now }
{
    word == text.as_bytes()
}

// Whether a word is an option.
fn has_option(words: &[Vec<u8>]) -> bool
    ensures { result ≡ has_option (byte_words words.now) }
{
    'words: for word in words {
        if is_option(word.as_slice()) {
            return true;
        }
    }
    false
}

/// Whether a line that begins with the name of a command over files has no keyset as its second word.
pub fn has_no_keyset(words: &[Vec<u8>]) -> bool
    ensures { result ≡ has_no_keyset (byte_words words.now) }
{
    words.len() > 1 && is_shared(claim_of(words[0].as_slice())) && !is_keyset(words[1].as_slice())
}

// Whether a command over files has the name too.
fn is_shared(claim: Claim) -> bool
    ensures { result ≡ is_shared claim }
{
    match claim {
        Claim::OfFourWords | Claim::WithoutOptions => true,
        Claim::All | Claim::Never => false,
    }
}

// Whether a word may be a keyset: hexadecimal digits, or a dash.
fn is_keyset(word: &[u8]) -> bool
    ensures { result ≡ is_keyset word.now }
{
    are_digits(word) || is(word, "-")
}

// Whether each byte is a hexadecimal digit.
fn are_digits(word: &[u8]) -> bool
    ensures { result ≡ list_all is_ascii_hexdigit word.now }
{
    word.iter().all(|byte| byte.is_ascii_hexdigit())
}
