//! Templates, their registration and that of the managers, and constants.

use std::alloc::Global;
use test_util::{
    Answer, Ask, NamedRegistry, Registered, Template, Verdict, is_made_and_registered, succeeds,
};
use tink_io::{Kind, TinkError};
use tink_prf::{
    AES_CMAC_PRF_KEY_VERSION, AES_CMAC_PRF_TYPE_URL, HKDF_PRF_KEY_VERSION, HKDF_PRF_TYPE_URL,
    HMAC_PRF_KEY_VERSION, HMAC_PRF_TYPE_URL, UPSTREAM_VERSION, aes_cmac_prf_key_template,
    hkdf_sha256_prf_key_template, hmac_sha256_prf_key_template, hmac_sha512_prf_key_template, init,
};
use tink_proto::KeyTemplate;
use tink_registry::Registry;

enum Step {
    // All are registered.
    Init,
    // The call of a template's name makes it, and it stands under its name beside its manager.
    Template(Template),
    // What is asked of the registry, or of a constant.
    Of(Registered),
}

// The template of a name, as its call makes it.
fn template_of(alloc: Global, name: &str) -> Result<KeyTemplate, TinkError> {
    match name {
        "HKDF_SHA256" => hkdf_sha256_prf_key_template(alloc),
        "HMAC_SHA256_PRF" => hmac_sha256_prf_key_template(alloc),
        "HMAC_SHA512_PRF" => hmac_sha512_prf_key_template(alloc),
        _ => aes_cmac_prf_key_template(alloc),
    }
}

impl Ask<NamedRegistry> for Step {
    fn answer(&self, alloc: Global, registry: &mut NamedRegistry) -> Result<bool, TinkError> {
        match *self {
            Step::Init => succeeds(init(alloc, registry)),
            Step::Template(ref template) => {
                is_made_and_registered(registry, template, template_of(alloc, template.0))
            }
            Step::Of(ref asked) => asked.answer(alloc, registry),
        }
    }
}

const THERE: Answer = Err(Kind::AlreadyRegistered);

type Row = (&'static str, Step, Answer);

// Params are field 1 of the first three formats, and the size of keys field 2; for AES-CMAC the size is field 1.
const TEMPLATES: &[Row] = &[
    ("the PRFs", Step::Init, Ok(true)),
    (
        "HKDF_SHA256",
        Step::Template(Template(
            "HKDF_SHA256",
            HKDF_PRF_TYPE_URL,
            &[0x0a, 2, 0x08, 3, 0x10, 32],
            3,
        )),
        Ok(true),
    ),
    (
        "HMAC_SHA256_PRF",
        Step::Template(Template(
            "HMAC_SHA256_PRF",
            HMAC_PRF_TYPE_URL,
            &[0x0a, 2, 0x08, 3, 0x10, 32],
            3,
        )),
        Ok(true),
    ),
    (
        "HMAC_SHA512_PRF",
        Step::Template(Template(
            "HMAC_SHA512_PRF",
            HMAC_PRF_TYPE_URL,
            &[0x0a, 2, 0x08, 4, 0x10, 64],
            3,
        )),
        Ok(true),
    ),
    (
        "AES_CMAC_PRF",
        Step::Template(Template("AES_CMAC_PRF", AES_CMAC_PRF_TYPE_URL, &[0x08, 32], 3)),
        Ok(true),
    ),
    (
        "the templates of PRFs, and no more",
        Step::Of(Registered::Names(4, "AES_CMAC_PRF")),
        Ok(true),
    ),
    ("the PRFs again", Step::Init, THERE),
];

// What is refused registers nothing.
const BESIDE: &[Row] = &[
    (
        "a URL of PRFs",
        Step::Of(Registered::Manage(AES_CMAC_PRF_TYPE_URL)),
        Ok(true),
    ),
    ("PRFs where a URL is taken", Step::Init, THERE),
    (
        "no templates beside it",
        Step::Of(Registered::Names(0, "")),
        Ok(true),
    ),
    (
        "no other URL beside it",
        Step::Of(Registered::HasNot(HMAC_PRF_TYPE_URL)),
        Ok(true),
    ),
];

const CONSTANTS: &[Row] = &[
    (
        "the upstream of PRFs",
        Step::Of(Registered::Text(UPSTREAM_VERSION, "1.6.0")),
        Ok(true),
    ),
    (
        "the URL of the HMAC PRF",
        Step::Of(Registered::Text(
            HMAC_PRF_TYPE_URL,
            "type.googleapis.com/google.crypto.tink.HmacPrfKey",
        )),
        Ok(true),
    ),
    (
        "the URL of HKDF",
        Step::Of(Registered::Text(
            HKDF_PRF_TYPE_URL,
            "type.googleapis.com/google.crypto.tink.HkdfPrfKey",
        )),
        Ok(true),
    ),
    (
        "the URL of the AES-CMAC PRF",
        Step::Of(Registered::Text(
            AES_CMAC_PRF_TYPE_URL,
            "type.googleapis.com/google.crypto.tink.AesCmacPrfKey",
        )),
        Ok(true),
    ),
    (
        "the version of the HMAC PRF",
        Step::Of(Registered::Version(HMAC_PRF_KEY_VERSION, 0)),
        Ok(true),
    ),
    (
        "the version of HKDF",
        Step::Of(Registered::Version(HKDF_PRF_KEY_VERSION, 0)),
        Ok(true),
    ),
    (
        "the version of the AES-CMAC PRF",
        Step::Of(Registered::Version(AES_CMAC_PRF_KEY_VERSION, 0)),
        Ok(true),
    ),
];

// The tables are of a new registry each.
pub fn rows(alloc: Global, verdict: &mut Verdict) {
    verdict.walk(alloc, Registry::new(alloc), CONSTANTS);
    verdict.walk(alloc, Registry::new(alloc), TEMPLATES);
    verdict.walk(alloc, Registry::new(alloc), BESIDE);
}
