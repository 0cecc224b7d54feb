//! Reading fields.

ghost use Rattle.std.specs.Prelude.{◌≡◌, Some, None, MatchOption};
ghost use Rattle.wire_format.specs.Reading.{varint_in, bytes_at, content_at, field_at};
ghost use Rattle.wire_format.specs.Message.{as_number, as_enum, as_bytes, as_text};
ghost use Rattle.tink_proto.specs.View.{content_of, field_of};
ghost use Rattle.tink_proto.specs.Outcome.{Reads, ReadsAs};
ghost use Rattle.tink_proto.specs.declared.error.ProtoError.TheVariants.{BadMessage};

use crate::ProtoError;

/// What a field holds, by its type in the wire format.
#[derive(Clone, Copy)]
pub enum Content<'a> {
    /// Type 0.
    Varint(u64),
    /// Type 1, eight bytes.
    Eight(&'a [u8]),
    /// Type 2, as many bytes as their length says.
    Body(&'a [u8]),
    /// Type 5, four bytes.
    Four(&'a [u8]),
}

/// A field and its number, which is from 1 to 2^29 - 1.
#[derive(Clone, Copy)]
pub struct Field<'a> {
    /// The number, from 1 to 2^29 - 1.
    pub number: u32,
    /// The content, by its type in the wire format.
    pub content: Content<'a>,
}

// The number that at most k bytes in front stand for, and what follows.
#[tactic(auto, unfolding(wire_format::specs::Reading::varint_in))]
fn varint_from(k: u32, bytes: &[u8]) -> Option<(u64, &[u8])>
    ensures { MatchOption result (varint_in k bytes.now ≡ None)
        (λ x. varint_in k bytes.now ≡ Some (x.0, x.1.now)) }
{
    if k == 0 {
        return None;
    }
    let (first, rest) = bytes.split_first()?;
    if *first < 128 {
        return Some((u64::from(*first), rest));
    }
    let (high, rest) = varint_from(k - 1, rest)?;

    // The number has to stay below 2^64.
    if high >= 1 << 57 {
        return None;
    }
    Some((u64::from(*first) - 128 + 128 * high, rest))
}

// So many bytes, and what follows.
#[tactic(auto, unfolding(wire_format::specs::Reading::bytes_at))]
fn bytes_from(n: u64, bytes: &[u8]) -> Option<(&[u8], &[u8])>
    ensures { MatchOption result (bytes_at n bytes.now ≡ None)
        (λ x. bytes_at n bytes.now ≡ Some (x.0.now, x.1.now)) }
{
    if (bytes.len() as u64) < n {
        return None;
    }
    Some(bytes.split_at(n as usize))
}

// The content of a type, and what follows.
#[tactic(auto, unfolding(wire_format::specs::Reading::content_at))]
fn content_from(wire_type: u64, bytes: &[u8]) -> Option<(Content<'_>, &[u8])>
    ensures { MatchOption result (content_at wire_type bytes.now ≡ None)
        (λ x. content_at wire_type bytes.now ≡ Some (content_of x.0, x.1.now)) }
{
    if wire_type == 0 {
        let (n, rest) = varint_from(10, bytes)?;
        return Some((Content::Varint(n), rest));
    }
    if wire_type == 1 {
        let (eight, rest) = bytes_from(8, bytes)?;
        return Some((Content::Eight(eight), rest));
    }
    if wire_type == 2 {
        let (n, rest) = varint_from(10, bytes)?;
        let (body, rest) = bytes_from(n, rest)?;
        return Some((Content::Body(body), rest));
    }
    if wire_type == 5 {
        let (four, rest) = bytes_from(4, bytes)?;
        return Some((Content::Four(four), rest));
    }
    None
}

/// The first field, and what follows. `None` if the bytes begin with no field of the grammar. It is cut off, its
/// number is 0, its key is 2^32 or more, or its type is 3, 4, 6 or 7.
#[tactic(auto, unfolding(wire_format::specs::Reading::field_at))]
pub fn next_field(bytes: &[u8]) -> Option<(Field<'_>, &[u8])>
    ensures { MatchOption result (field_at bytes.now ≡ None)
        (λ x. field_at bytes.now ≡ Some (field_of x.0, x.1.now)) }
{
    let (key, rest) = varint_from(10, bytes)?;
    if key < 8 {
        return None;
    }
    if key > u64::from(u32::MAX) {
        return None;
    }
    let (content, rest) = content_from(key % 8, rest)?;
    let number = (key / 8) as u32;
    Some((Field { number, content }, rest))
}

impl<'a> Content<'a> {
    /// A number of 32 bits: the low ones of a varint.
    ///
    /// # Errors
    /// `BadMessage` exactly if the content has another wire type.
    pub fn number(&self) -> Result<u32, ProtoError>
        ensures { Reads BadMessage result (as_number (content_of self.now)) }
    {
        match self {
            Content::Varint(n) => Ok((*n & 0xffff_ffff) as u32),
            _ => Err(ProtoError::BadMessage),
        }
    }

    /// The number of an enum: the low 32 bits of a varint, as a signed number.
    ///
    /// # Errors
    /// `BadMessage` exactly if the content has another wire type.
    pub fn enum_number(&self) -> Result<i32, ProtoError>
        ensures { Reads BadMessage result (as_enum (content_of self.now)) }
    {
        match self {
            Content::Varint(n) => Ok(((*n & 0xffff_ffff) as u32).cast_signed()),
            _ => Err(ProtoError::BadMessage),
        }
    }

    /// The bytes of a body.
    ///
    /// # Errors
    /// `BadMessage` exactly if the content has another wire type.
    pub fn body(&self) -> Result<&'a [u8], ProtoError>
        ensures { ReadsAs BadMessage (λ b. b.now) result (as_bytes (content_of self.now)) }
    {
        match self {
            Content::Body(b) => Ok(*b),
            _ => Err(ProtoError::BadMessage),
        }
    }

    /// The text of a body.
    ///
    /// # Errors
    /// `BadMessage` exactly if the content has another wire type or is not UTF-8.
    pub fn text(&self) -> Result<&'a str, ProtoError>
        ensures { ReadsAs BadMessage (λ b. b.now) result (as_text (content_of self.now)) }
    {
        match std::str::from_utf8(self.body()?) {
            Ok(text) => Ok(text),
            Err(_) => Err(ProtoError::BadMessage),
        }
    }
}
