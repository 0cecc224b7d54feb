//! What MACs make of payloads and of texts.

ghost use Rattle.std.specs.Prelude.{◌≡◌, IfOk};

use std::alloc::Global;
use test_util::{Ask, gives, kind_of, succeeds};
use tink_core::{Kind, Mac, TinkError};
use tink_mac::tokens::{sign, verify};
use tink_mac::{MacKind, WrappedMac};
use tink_proto::{Bytes, Text};

/// The token of `{"sub":1}` under the keyset that the draws make by the template `HMAC_SHA256_128BITTAG`.
pub const TOKEN: &[u8; 41] = b"eyJzdWIiOjF9.AdpBWXyINi9jd9wXbJ4V_sGWBPqU";

/// What is asked of MACs.
pub enum Asked {
    // The payload has this token, which gives it back.
    Sign(&'static [u8], &'static [u8]),
    // A text is a token.
    Verify(&'static [u8]),
    // Payloads of 0 to 70 bytes come back.
    ComeBack,
    // No text that is one byte from the token is one, nor what begins it.
    NoOther,
}

impl Ask<WrappedMac<MacKind>> for Asked {
    fn answer(&self, alloc: Global, macs: &mut WrappedMac<MacKind>) -> Result<bool, TinkError> {
        match *self {
            Asked::Sign(payload, token) => is_signed(alloc, macs, payload, token),
            Asked::Verify(text) => succeeds(verify(alloc, macs, text)),
            Asked::ComeBack => come_back(alloc, macs),
            Asked::NoOther => Ok(are_refused_at_all(alloc, macs)),
        }
    }
}

// The payload of a token that the same keys signed.
fn there_and_back<P: Mac>(
    alloc: Global,
    mac: &WrappedMac<P>,
    payload: &[u8],
) -> Result<Bytes, TinkError>
    ensures { IfOk result (λ back. back ≡ payload.now) }
{
    let token = sign(alloc, mac, payload)?;
    verify(alloc, mac, token.as_bytes())
}

fn is_token(made: Result<Text, TinkError>, token: &[u8]) -> Result<bool, TinkError> {
    match made {
        Ok(made) => Ok(made.as_bytes() == token),
        Err(e) => Err(e),
    }
}

fn is_signed(
    alloc: Global,
    macs: &WrappedMac<MacKind>,
    payload: &[u8],
    token: &[u8],
) -> Result<bool, TinkError> {
    match is_token(sign(alloc, macs, payload), token) {
        Ok(true) => gives(verify(alloc, macs, token), payload),
        other => other,
    }
}

fn has_size(made: Result<Text, TinkError>, size: usize) -> Result<bool, TinkError> {
    match made {
        Ok(made) => Ok(made.as_bytes().len() == size),
        Err(e) => Err(e),
    }
}

fn comes_back(
    alloc: Global,
    macs: &WrappedMac<MacKind>,
    payload: &[u8],
) -> Result<bool, TinkError> {
    let size = (payload.len() / 3 * 4).saturating_add([29, 31, 32][payload.len() % 3]);
    match has_size(sign(alloc, macs, payload), size) {
        Ok(true) => gives(there_and_back(alloc, macs, payload), payload),
        other => other,
    }
}

fn come_back(alloc: Global, macs: &WrappedMac<MacKind>) -> Result<bool, TinkError> {
    let mut payload = [0; 71];
    for size in 0..71usize {
        match comes_back(alloc, macs, &payload[..size]) {
            Ok(true) => payload[size] = size as u8 ^ 0xa5,
            other => return other,
        }
    }
    Ok(true)
}

// Whether a text is refused.
fn is_refused(alloc: Global, macs: &WrappedMac<MacKind>, text: &[u8]) -> bool {
    let refused = kind_of(verify(alloc, macs, text));
    (refused == Some(Kind::BadToken)) | (refused == Some(Kind::MacMismatch))
}

fn put(text: &mut [u8], at: usize, byte: u8) {
    if let Some(place) = text.get_mut(at) {
        *place = byte;
    }
}

// Whether a text is refused with each byte but one at a place, which then has the byte `own`.
fn is_refused_changed(
    alloc: Global,
    macs: &WrappedMac<MacKind>,
    text: &mut [u8],
    at: usize,
    but: u8,
    own: u8,
) -> bool {
    let mut all = true;
    for step in 0..255u8 {
        put(text, at, but ^ (step + 1));
        all = all & is_refused(alloc, macs, text);
    }
    put(text, at, own);
    all
}

// Whether what begins the token is refused, and the token without a byte there, with another and with one more.
fn are_refused_at_all(alloc: Global, macs: &WrappedMac<MacKind>) -> bool {
    // The token, and those without the byte at the place, and with one more before it. The place moves through them.
    let mut token = *TOKEN;
    let mut less = *b"yJzdWIiOjF9.AdpBWXyINi9jd9wXbJ4V_sGWBPqU";
    let mut more = *b"-eyJzdWIiOjF9.AdpBWXyINi9jd9wXbJ4V_sGWBPqU";
    let mut all = true;
    for at in 0..41usize {
        let own = token[at];
        all = all & is_refused(alloc, macs, &token[..at]) & is_refused(alloc, macs, &less);
        all = all & is_refused_changed(alloc, macs, &mut token, at, own, own);
        all = all & is_refused_changed(alloc, macs, &mut more, at, 255, own);
        put(&mut less, at, own);
    }
    all & is_refused_changed(alloc, macs, &mut more, 41, 0, 0)
        & is_refused_changed(alloc, macs, &mut more, 41, 255, 0)
}
