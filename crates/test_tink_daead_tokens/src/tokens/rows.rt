//! Known tokens, payloads of many lengths, what is no token, and what keysets answer once they were edited.

use crate::tokens::keysets::{Edit, ID, Keys, cmacs, macs};
use crate::tokens::texts::{Asked, TOKEN};
use std::alloc::Global;
use test_util::{Answer, Ask, Verdict, ask_made, registry_of};
use tink_core::registry::Registry;
use tink_core::{Kind, TinkError};
use tink_mac::tokens::{
    law_old_tokens_verify, law_signed_tokens_verify, law_tokens_outlive_commands,
};
use tink_mac::{AesCmacKeyManager, HmacKeyManager, MacKind};
use tink_proto::OutputPrefixType;

// One new key by the template, and a second one by the same draws, whose id is 5157488d.
const NEW: Keys = Keys::Edited(&[Edit::Rotate]);

const TWO: Keys = Keys::Edited(&[Edit::Rotate, Edit::Rotate]);

const PAYLOAD: &[u8] = b"{\"sub\":1}";

const BAD: Answer = Err(Kind::BadToken);

const MISMATCH: Answer = Err(Kind::MacMismatch);

// What is asked of the MACs of a keyset.
struct Given(Keys, Asked);

impl Ask<Registry<HmacKeyManager>> for Given {
    fn answer(
        &self,
        alloc: Global,
        registry: &mut Registry<HmacKeyManager>,
    ) -> Result<bool, TinkError> {
        ask_made(alloc, macs(alloc, registry, &self.0), &self.1)
    }
}

type Row = (&'static str, Given, Answer);

// Tokens made by Python's `hmac` and `base64`. A LEGACY key's MAC covers one zero byte more.
const KNOWN: &[Row] = &[
    (
        "the template's",
        Given(NEW, Asked::Sign(PAYLOAD, TOKEN)),
        Ok(true),
    ),
    (
        "TINK",
        Given(
            Keys::One(OutputPrefixType::Tink, ID),
            Asked::Sign(PAYLOAD, TOKEN),
        ),
        Ok(true),
    ),
    (
        "TINK, of nothing",
        Given(
            Keys::One(OutputPrefixType::Tink, ID),
            Asked::Sign(b"", b".AdpBWXzoDZ7HjcOtIc3efh8YC0Os"),
        ),
        Ok(true),
    ),
    (
        "LEGACY",
        Given(
            Keys::One(OutputPrefixType::Legacy, ID),
            Asked::Sign(PAYLOAD, b"eyJzdWIiOjF9.ANpBWXxBgofMuaPBgYhp4d0Mu_Kc"),
        ),
        Ok(true),
    ),
    (
        "LEGACY, of nothing",
        Given(
            Keys::One(OutputPrefixType::Legacy, ID),
            Asked::Sign(b"", b".ANpBWXxBEZuPTk3I2fnUP_lmxHd7"),
        ),
        Ok(true),
    ),
    (
        "CRUNCHY",
        Given(
            Keys::One(OutputPrefixType::Crunchy, ID),
            Asked::Sign(PAYLOAD, b"eyJzdWIiOjF9.ANpBWXyINi9jd9wXbJ4V_sGWBPqU"),
        ),
        Ok(true),
    ),
    (
        "RAW, of nothing",
        Given(
            Keys::One(OutputPrefixType::Raw, ID),
            Asked::Sign(b"", b".6A2ex43DrSHN3n4fGAtDrA"),
        ),
        Ok(true),
    ),
    (
        "the new key's after a rotation",
        Given(
            TWO,
            Asked::Sign(PAYLOAD, b"eyJzdWIiOjF9.AVFXSI2INi9jd9wXbJ4V_sGWBPqU"),
        ),
        Ok(true),
    ),
    (
        "payloads of 0 to 70 bytes",
        Given(NEW, Asked::ComeBack),
        Ok(true),
    ),
    // The old token once the old key is disabled, enabled again, and deleted.
    (
        "after a rotation",
        Given(TWO, Asked::Verify(TOKEN)),
        Ok(true),
    ),
    (
        "once the old key is disabled",
        Given(
            Keys::Edited(&[Edit::Rotate, Edit::Rotate, Edit::Disable]),
            Asked::Verify(TOKEN),
        ),
        MISMATCH,
    ),
    (
        "once it is enabled again",
        Given(
            Keys::Edited(&[Edit::Rotate, Edit::Rotate, Edit::Disable, Edit::Enable]),
            Asked::Verify(TOKEN),
        ),
        Ok(true),
    ),
    (
        "once it is deleted",
        Given(
            Keys::Edited(&[
                Edit::Rotate,
                Edit::Rotate,
                Edit::Disable,
                Edit::Enable,
                Edit::Delete,
            ]),
            Asked::Verify(TOKEN),
        ),
        MISMATCH,
    ),
    // Other keys.
    (
        "under another prefix",
        Given(
            Keys::One(OutputPrefixType::Crunchy, ID),
            Asked::Verify(TOKEN),
        ),
        MISMATCH,
    ),
    (
        "under another id",
        Given(
            Keys::One(OutputPrefixType::Tink, ID + 1),
            Asked::Verify(TOKEN),
        ),
        MISMATCH,
    ),
    ("each other text", Given(NEW, Asked::NoOther), Ok(true)),
];

// Dots and padding.
const MISPARTED: &[Row] = &[
    ("nothing", Given(NEW, Asked::Verify(b"")), BAD),
    ("no dot", Given(NEW, Asked::Verify(b"eyJzdWIiOjF9")), BAD),
    ("two dots", Given(NEW, Asked::Verify(b"..")), BAD),
    (
        "two dots, one at the end",
        Given(NEW, Asked::Verify(b"eyJzdWIiOjF9.AdpB.")),
        BAD,
    ),
    (
        "two dots, one in front",
        Given(NEW, Asked::Verify(b".eyJzdWIiOjF9.AdpB")),
        BAD,
    ),
    // Padding.
    (
        "padding that is none",
        Given(NEW, Asked::Verify(b"eyJzdWIiOjF9=.AdpB")),
        BAD,
    ),
    ("padding", Given(NEW, Asked::Verify(b"QQ==.AdpB")), BAD),
    (
        "padding of a MAC",
        Given(NEW, Asked::Verify(b"QQ.AdpBQQ==")),
        BAD,
    ),
];

const MISSPELLED: &[Row] = &[
    // A newline, a space, symbols of the other alphabet.
    (
        "a newline",
        Given(
            NEW,
            Asked::Verify(b"eyJzdWIiOjF9.AdpBWXyINi9jd9wXbJ4V_sGWBPqU\n"),
        ),
        BAD,
    ),
    ("a space", Given(NEW, Asked::Verify(b" QQ.AdpB")), BAD),
    ("a plus", Given(NEW, Asked::Verify(b"Q+.AdpB")), BAD),
    ("a slash", Given(NEW, Asked::Verify(b"QQ.Adp/")), BAD),
    ("a letter", Given(NEW, Asked::Verify(b"QQ.\xc3\xa9QQ")), BAD),
    // A length that no bytes have.
    ("one symbol", Given(NEW, Asked::Verify(b"Q.AdpB")), BAD),
    ("five symbols", Given(NEW, Asked::Verify(b"QQ.AdpBQ")), BAD),
    // Bits behind the last byte.
    (
        "bits behind a payload",
        Given(NEW, Asked::Verify(b"QR.AdpB")),
        BAD,
    ),
    (
        "bits behind a MAC",
        Given(NEW, Asked::Verify(b"QQ.AdpBQR")),
        BAD,
    ),
    // Tokens.
    (
        "three bytes of a MAC",
        Given(NEW, Asked::Verify(b"eyJzdWIiOjF9.AdpB")),
        MISMATCH,
    ),
    (
        "those of another payload",
        Given(NEW, Asked::Verify(b"QQ.AdpB")),
        MISMATCH,
    ),
    ("no MAC", Given(NEW, Asked::Verify(b"QQ.")), MISMATCH),
    ("no payload", Given(NEW, Asked::Verify(b".AdpB")), MISMATCH),
    ("neither", Given(NEW, Asked::Verify(b".")), MISMATCH),
];

fn registry(alloc: Global) -> Result<Registry<HmacKeyManager>, TinkError> {
    registry_of(alloc, HmacKeyManager::new())
}

// Each table has a function of its own: the proof of one grows with the square of its texts.
fn walk_known(verdict: &mut Verdict, alloc: Global) {
    verdict.walk_made(alloc, registry(alloc), "the registry", KNOWN);
}

fn walk_misparted(verdict: &mut Verdict, alloc: Global) {
    verdict.walk_made(alloc, registry(alloc), "the registry", MISPARTED);
}

fn walk_misspelled(verdict: &mut Verdict, alloc: Global) {
    verdict.walk_made(alloc, registry(alloc), "the registry", MISSPELLED);
}

/// Each row, and that the laws hold of these types.
pub fn tokens_are_as_the_rows_say(alloc: Global, verdict: &mut Verdict) {
    law_signed_tokens_verify::<HmacKeyManager, MacKind>();
    law_old_tokens_verify::<HmacKeyManager, MacKind>();
    law_tokens_outlive_commands::<AesCmacKeyManager, MacKind>();
    walk_known(verdict, alloc);
    walk_misparted(verdict, alloc);
    walk_misspelled(verdict, alloc);
    let got = ask_made(alloc, cmacs(alloc), &Asked::ComeBack);
    verdict.expect(got, Ok(true), "payloads of 0 to 70 bytes by AES-CMAC");
}
