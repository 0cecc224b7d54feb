//! Templates, their registration and that of the managers, and constants.

use std::alloc::Global;
use test_util::{
    Answer, Ask, NamedRegistry, Registered, Template, Verdict, is_made_and_registered, succeeds,
};
use tink_io::{Kind, TinkError};
use tink_mac::{
    CMAC_KEY_VERSION, CMAC_TYPE_URL, HMAC_KEY_VERSION, HMAC_TYPE_URL, UPSTREAM_VERSION,
    aes_cmac_tag128_key_template, hmac_sha256_tag128_key_template, hmac_sha256_tag256_key_template,
    hmac_sha512_tag256_key_template, hmac_sha512_tag512_key_template, init,
};
use tink_proto::KeyTemplate;
use tink_registry::Registry;

enum Step {
    // All are registered.
    Init,
    // The call of a template's name makes it, and it stands under its name beside its manager.
    Template(Template),
    // What is asked of the registry, or of a constant.
    Of(Registered),
}

// The template of a name, as its call makes it.
fn template_of(alloc: Global, name: &str) -> Result<KeyTemplate, TinkError> {
    match name {
        "HMAC_SHA256_128BITTAG" => hmac_sha256_tag128_key_template(alloc),
        "HMAC_SHA256_256BITTAG" => hmac_sha256_tag256_key_template(alloc),
        "HMAC_SHA512_256BITTAG" => hmac_sha512_tag256_key_template(alloc),
        "HMAC_SHA512_512BITTAG" => hmac_sha512_tag512_key_template(alloc),
        _ => aes_cmac_tag128_key_template(alloc),
    }
}

impl Ask<NamedRegistry> for Step {
    fn answer(&self, alloc: Global, registry: &mut NamedRegistry) -> Result<bool, TinkError> {
        match *self {
            Step::Init => succeeds(init(alloc, registry)),
            Step::Template(ref template) => {
                is_made_and_registered(registry, template, template_of(alloc, template.0))
            }
            Step::Of(ref asked) => asked.answer(alloc, registry),
        }
    }
}

const THERE: Answer = Err(Kind::AlreadyRegistered);

type Row = (&'static str, Step, Answer);

// Formats that were spelled by hand.
const TEMPLATES: &[Row] = &[
    ("the MACs", Step::Init, Ok(true)),
    (
        "HMAC_SHA256_128BITTAG",
        Step::Template(Template(
            "HMAC_SHA256_128BITTAG",
            HMAC_TYPE_URL,
            b"\x0a\x04\x08\x03\x10\x10\x10\x20",
            1,
        )),
        Ok(true),
    ),
    (
        "HMAC_SHA256_256BITTAG",
        Step::Template(Template(
            "HMAC_SHA256_256BITTAG",
            HMAC_TYPE_URL,
            b"\x0a\x04\x08\x03\x10\x20\x10\x20",
            1,
        )),
        Ok(true),
    ),
    (
        "HMAC_SHA512_256BITTAG",
        Step::Template(Template(
            "HMAC_SHA512_256BITTAG",
            HMAC_TYPE_URL,
            b"\x0a\x04\x08\x04\x10\x20\x10\x40",
            1,
        )),
        Ok(true),
    ),
    (
        "HMAC_SHA512_512BITTAG",
        Step::Template(Template(
            "HMAC_SHA512_512BITTAG",
            HMAC_TYPE_URL,
            b"\x0a\x04\x08\x04\x10\x40\x10\x40",
            1,
        )),
        Ok(true),
    ),
    (
        "AES_CMAC",
        Step::Template(Template("AES_CMAC", CMAC_TYPE_URL, b"\x08\x20\x12\x02\x08\x10", 1)),
        Ok(true),
    ),
    (
        "the templates of MACs, and no more",
        Step::Of(Registered::Names(5, "AES_CMAC")),
        Ok(true),
    ),
    ("the MACs again", Step::Init, THERE),
];

// What is refused registers nothing.
const BESIDE: &[Row] = &[
    (
        "a URL of MACs",
        Step::Of(Registered::Manage(CMAC_TYPE_URL)),
        Ok(true),
    ),
    ("MACs where a URL is taken", Step::Init, THERE),
    (
        "no templates beside it",
        Step::Of(Registered::Names(0, "")),
        Ok(true),
    ),
    (
        "no other URL beside it",
        Step::Of(Registered::HasNot(HMAC_TYPE_URL)),
        Ok(true),
    ),
];

const CONSTANTS: &[Row] = &[
    (
        "the upstream of MACs",
        Step::Of(Registered::Text(UPSTREAM_VERSION, "1.6.0")),
        Ok(true),
    ),
    (
        "the URL of HMAC",
        Step::Of(Registered::Text(
            HMAC_TYPE_URL,
            "type.googleapis.com/google.crypto.tink.HmacKey",
        )),
        Ok(true),
    ),
    (
        "the URL of AES-CMAC",
        Step::Of(Registered::Text(
            CMAC_TYPE_URL,
            "type.googleapis.com/google.crypto.tink.AesCmacKey",
        )),
        Ok(true),
    ),
    (
        "the version of HMAC",
        Step::Of(Registered::Version(HMAC_KEY_VERSION, 0)),
        Ok(true),
    ),
    (
        "the version of AES-CMAC",
        Step::Of(Registered::Version(CMAC_KEY_VERSION, 0)),
        Ok(true),
    ),
];

// The tables are of a new registry each.
pub fn rows(alloc: Global, verdict: &mut Verdict) {
    verdict.walk(alloc, Registry::new(alloc), CONSTANTS);
    verdict.walk(alloc, Registry::new(alloc), TEMPLATES);
    verdict.walk(alloc, Registry::new(alloc), BESIDE);
}
