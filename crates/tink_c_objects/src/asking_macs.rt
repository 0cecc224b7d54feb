//! What objects of MACs answer, and the tokens that they sign. No call changes an object.

ghost use Rattle.std.specs.Prelude.{◌≡◌, Some};
ghost use Rattle.tink_io.specs.Answering.{Answers};
ghost use Rattle.tink_sets.specs.Groups.{group_of};
ghost use Rattle.tink_mac.specs.MacKinds.{kind_computes, kind_verifies};
ghost use Rattle.tink_mac.specs.Wrapped.{any_verifies, primary_mac};
ghost use Rattle.tink_c_bytes.specs.Delivered.{MadeBy};
ghost use Rattle.tink_c_objects.specs.Objects.{Signs, SignsNot, Verifies, VerifiesNot, by_mac, held_by};

use crate::object::Object;
use crate::owner::Owner;
use std::alloc::Global;
use tink_io::{Kind, TinkError};
use tink_mac::tokens::{sign, verify};
use tink_primitives::Mac;
use tink_proto::Bytes;

/// The MAC of a message by the primary key of MACs.
///
/// # Errors
/// `Closed` if there is no object of MACs.
pub fn mac_compute(alloc: Global, owner: &mut Owner, message: &[u8]) -> Result<Bytes, TinkError>
    ensures answer { Answers result (by_mac (λ w. primary_mac kind_computes w.ps.primary message.now) (held_by owner.old)) }
    ensures kept { held_by owner.new ≡ held_by owner.old }
{
    let Some(object) = owner.take(alloc) else {
        return Err(TinkError::new(Kind::Closed));
    };
    let answer = mac_compute_by(alloc, &object, message);
    owner.put(alloc, object);
    answer
}

// The same of an object.
fn mac_compute_by(alloc: Global, object: &Object, message: &[u8]) -> Result<Bytes, TinkError>
    ensures { Answers result (by_mac (λ w. primary_mac kind_computes w.ps.primary message.now) (Some object.now)) }
{
    match object {
        Object::Mac(macs) => macs.compute_mac(alloc, message),
        Object::Aead(_)
        | Object::Daead(_)
        | Object::Prfs(_)
        | Object::Writer(_)
        | Object::Ranges(_)
        | Object::Reader(_) => Err(TinkError::new(Kind::Closed)),
    }
}

/// Ok if a key of MACs accepts the MAC for the message.
///
/// # Errors
/// `Closed` if there is no object of MACs; then `MacMismatch` exactly if no key accepts it.
pub fn mac_verify(
    alloc: Global,
    owner: &mut Owner,
    mac: &[u8],
    message: &[u8],
) -> Result<(), TinkError>
    ensures answer { Answers result (by_mac (λ w. any_verifies kind_verifies (group_of w.ps.entries) mac.now message.now) (held_by owner.old)) }
    ensures kept { held_by owner.new ≡ held_by owner.old }
{
    let Some(object) = owner.take(alloc) else {
        return Err(TinkError::new(Kind::Closed));
    };
    let answer = mac_verify_by(alloc, &object, mac, message);
    owner.put(alloc, object);
    answer
}

// The same of an object.
fn mac_verify_by(
    alloc: Global,
    object: &Object,
    mac: &[u8],
    message: &[u8],
) -> Result<(), TinkError>
    ensures { Answers result (by_mac (λ w. any_verifies kind_verifies (group_of w.ps.entries) mac.now message.now) (Some object.now)) }
{
    match object {
        Object::Mac(macs) => macs.verify_mac(alloc, mac, message),
        Object::Aead(_)
        | Object::Daead(_)
        | Object::Prfs(_)
        | Object::Writer(_)
        | Object::Ranges(_)
        | Object::Reader(_) => Err(TinkError::new(Kind::Closed)),
    }
}

/// The token of a payload by the primary key of MACs.
///
/// # Errors
/// `Closed` if there is no object of MACs.
pub fn token_sign(alloc: Global, owner: &mut Owner, payload: &[u8]) -> Result<Bytes, TinkError>
    ensures answer { MadeBy (Signs (held_by owner.old) payload.now) (SignsNot (held_by owner.old) payload.now) result }
    ensures kept { held_by owner.new ≡ held_by owner.old }
{
    let Some(object) = owner.take(alloc) else {
        return Err(TinkError::new(Kind::Closed));
    };
    let answer = token_sign_by(alloc, &object, payload);
    owner.put(alloc, object);
    answer
}

// The same of an object.
fn token_sign_by(alloc: Global, object: &Object, payload: &[u8]) -> Result<Bytes, TinkError>
    ensures { MadeBy (Signs (Some object.now) payload.now) (SignsNot (Some object.now) payload.now) result }
{
    match object {
        Object::Mac(macs) => {
            let token = sign(alloc, macs, payload)?;
            Ok(Bytes::from_vec(token.into_string().into_bytes()))
        }
        Object::Aead(_)
        | Object::Daead(_)
        | Object::Prfs(_)
        | Object::Writer(_)
        | Object::Ranges(_)
        | Object::Reader(_) => Err(TinkError::new(Kind::Closed)),
    }
}

/// The payload of a token whose MAC a key of MACs accepts.
///
/// # Errors
/// `Closed` if there is no object of MACs; then `BadToken` exactly if it is no token, and `MacMismatch` exactly if no key
/// accepts its MAC.
pub fn token_verify(alloc: Global, owner: &mut Owner, token: &[u8]) -> Result<Bytes, TinkError>
    ensures answer { MadeBy (Verifies (held_by owner.old) token.now) (VerifiesNot (held_by owner.old) token.now) result }
    ensures kept { held_by owner.new ≡ held_by owner.old }
{
    let Some(object) = owner.take(alloc) else {
        return Err(TinkError::new(Kind::Closed));
    };
    let answer = token_verify_by(alloc, &object, token);
    owner.put(alloc, object);
    answer
}

// The same of an object.
fn token_verify_by(alloc: Global, object: &Object, token: &[u8]) -> Result<Bytes, TinkError>
    ensures { MadeBy (Verifies (Some object.now) token.now) (VerifiesNot (Some object.now) token.now) result }
{
    match object {
        Object::Mac(macs) => verify(alloc, macs, token),
        Object::Aead(_)
        | Object::Daead(_)
        | Object::Prfs(_)
        | Object::Writer(_)
        | Object::Ranges(_)
        | Object::Reader(_) => Err(TinkError::new(Kind::Closed)),
    }
}
