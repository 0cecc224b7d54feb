//! Whether each number of a text is a whole number of 64 bits. It goes by the text, since a value keeps only the last
//! of the members of one name.

ghost use Rattle.std.specs.Prelude.{◌≡◌, IfOk, is_some};
ghost use Rattle.std.specs.List.{list_all};
ghost use Rattle.json.specs.Reads.{token_of};
ghost use Rattle.tink_json.specs.Whole.{are_whole, digits_number, is_negative, is_whole, is_whole_token};

use crate::fields::digits_of_text;
use json::{Reader, Scratch, Token};
use std::alloc::{AllocError, Global};

/// Whether a text is UTF-8 and each number in it is whole.
///
/// # Errors
/// `AllocError` if there is no memory.
pub fn has_whole_numbers(alloc: Global, text: &[u8]) -> Result<bool, AllocError>
    ensures { IfOk result (λ b. b ≡ are_whole text.now) }
{
    let Ok(text) = std::str::from_utf8(text) else {
        return Ok(false);
    };
    let mut scratch = Scratch::new(alloc);
    let mut reader = Reader::new(text, &mut scratch)?;
    Ok(rest_is_whole(&mut reader))
}

// Whether each number among the tokens that are left is whole.
fn rest_is_whole(reader: &mut Reader) -> bool
    ensures { result ≡ list_all is_whole_token reader.old }
{
    while let Some(token) = reader.next() {
        if !token_is_whole(token) {
            return false;
        }
    }
    true
}

fn token_is_whole(token: Token) -> bool
    ensures { result ≡ is_whole_token (token_of token.entry) }
{
    match token {
        Token::Number(number) => number_is_whole(number),
        _ => true,
    }
}

fn number_is_whole(number: &str) -> bool
    ensures { result ≡ is_whole number.now }
{
    digits_of_text(number).is_some() || number_is_negative(number)
}

fn number_is_negative(number: &str) -> bool
    ensures { result ≡ is_negative number.now }
{
    match number.parse::<i64>() {
        Ok(n) => n < 0,
        Err(_) => false,
    }
}
