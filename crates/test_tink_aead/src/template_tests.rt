//! The templates, by formats that were spelled by hand, and what `init` registers.

use std::alloc::Global;
use test_util::{Answer, Named, Verdict, succeeds};
use tink_aead::{
    AES_CTR_HMAC_AEAD_TYPE_URL, AES_GCM_SIV_TYPE_URL, AES_GCM_TYPE_URL, AeadKinds,
    KMS_ENVELOPE_AEAD_KEY_VERSION, KMS_ENVELOPE_AEAD_TYPE_URL, aes128_ctr_hmac_sha256_key_template,
    aes128_gcm_key_template, aes128_gcm_siv_key_template, aes256_ctr_hmac_sha256_key_template,
    aes256_ctr_hmac_sha512_key_template, aes256_gcm_key_template,
    aes256_gcm_no_prefix_key_template, aes256_gcm_siv_key_template,
    aes256_gcm_siv_no_prefix_key_template, init, kms_envelope_aead_key_template,
};
use tink_core::registry::{KeyManager, Registry};
use tink_core::{Kind, TinkError};
use tink_proto::{KeyTemplate, Text};

// A template's name, its URL, its format, the number of its prefix, and whether it is registered.
type Template = (&'static str, &'static str, &'static [u8], i32, bool);

enum Step {
    // A manager of the URL is registered.
    Manage(&'static str),
    // All of this library are.
    Init,
    // The call of a template's name makes it, and it stands under its name beside its manager, if it is registered.
    Template(Template),
    // There are so many templates.
    Names(usize),
    // There is no manager of the URL.
    HasNot(&'static str),
    // A version is this number.
    Version(u32, u32),
}

// The template of a name, as its call makes it.
fn template_of(alloc: Global, name: &str) -> Result<KeyTemplate, TinkError> {
    match name {
        "AES128_GCM" => aes128_gcm_key_template(alloc),
        "AES256_GCM" => aes256_gcm_key_template(alloc),
        "AES256_GCM_NO_PREFIX" => aes256_gcm_no_prefix_key_template(alloc),
        "AES128_GCM_SIV" => aes128_gcm_siv_key_template(alloc),
        "AES256_GCM_SIV" => aes256_gcm_siv_key_template(alloc),
        "AES256_GCM_SIV_NO_PREFIX" => aes256_gcm_siv_no_prefix_key_template(alloc),
        "AES128_CTR_HMAC_SHA256" => aes128_ctr_hmac_sha256_key_template(alloc),
        "AES256_CTR_HMAC_SHA256" => aes256_ctr_hmac_sha256_key_template(alloc),
        "AES256_CTR_HMAC_SHA512" => aes256_ctr_hmac_sha512_key_template(alloc),
        _ => envelope_template(alloc),
    }
}

fn envelope_template(alloc: Global) -> Result<KeyTemplate, TinkError> {
    let dek = aes128_gcm_key_template(alloc)?;
    kms_envelope_aead_key_template(alloc, "a://b", &dek)
}

fn is_template(kt: &KeyTemplate, template: &Template) -> bool {
    let (_, url, format, prefix, _) = *template;
    kt.type_url.as_str() == url && kt.value.as_slice() == format && kt.output_prefix_type == prefix
}

type Registered = Registry<Named<AeadKinds>>;

// Whether a template stands in a registry under its name, beside the manager of its URL.
fn is_registered(registry: &Registered, template: &Template) -> bool {
    let named = match registry.get_template_generator(template.0) {
        Some(kt) => is_template(kt, template),
        None => false,
    };
    let managed = match registry.get_key_manager(template.1) {
        Ok(km) => km.type_url() == template.1,
        Err(_) => false,
    };
    named && managed
}

// Whether the call of a template's name makes it, and it stands in a registry if it is registered.
fn is_made(
    registry: &Registered,
    made: Result<KeyTemplate, TinkError>,
    template: &Template,
) -> Result<bool, TinkError> {
    match made {
        Ok(kt) => Ok(is_template(&kt, template) && is_registered(registry, template) == template.4),
        Err(e) => Err(e),
    }
}

fn are_names(names: Result<Vec<Text>, TinkError>, n: usize) -> Result<bool, TinkError> {
    match names {
        Ok(names) => Ok(names.len() == n),
        Err(e) => Err(e),
    }
}

fn answer_row(alloc: Global, registry: &mut Registered, step: &Step) -> Result<bool, TinkError> {
    match step {
        Step::Manage(url) => succeeds(registry.register_key_manager(alloc, Named::new(url))),
        Step::Init => succeeds(init(alloc, registry)),
        Step::Template(template) => is_made(registry, template_of(alloc, template.0), template),
        Step::Names(n) => are_names(registry.template_names(alloc), *n),
        Step::HasNot(url) => Ok(registry.get_key_manager(url).is_err()),
        Step::Version(found, want) => Ok(found == want),
    }
}

const THERE: Answer = Err(Kind::AlreadyRegistered);

type Row = (&'static str, Step, Answer);

// The sizes of keys are field 2, and those of vectors and tags in the params.
const ALL: &[Row] = &[
    ("registered", Step::Init, Ok(true)),
    (
        "AES128_GCM",
        Step::Template(("AES128_GCM", AES_GCM_TYPE_URL, b"\x10\x10", 1, true)),
        Ok(true),
    ),
    (
        "AES256_GCM",
        Step::Template(("AES256_GCM", AES_GCM_TYPE_URL, b"\x10\x20", 1, true)),
        Ok(true),
    ),
    (
        "AES256_GCM_NO_PREFIX",
        Step::Template((
            "AES256_GCM_NO_PREFIX",
            AES_GCM_TYPE_URL,
            b"\x10\x20",
            3,
            true,
        )),
        Ok(true),
    ),
    (
        "AES128_GCM_SIV",
        Step::Template(("AES128_GCM_SIV", AES_GCM_SIV_TYPE_URL, b"\x10\x10", 1, true)),
        Ok(true),
    ),
    (
        "AES256_GCM_SIV",
        Step::Template(("AES256_GCM_SIV", AES_GCM_SIV_TYPE_URL, b"\x10\x20", 1, true)),
        Ok(true),
    ),
    (
        "AES256_GCM_SIV_NO_PREFIX",
        Step::Template((
            "AES256_GCM_SIV_NO_PREFIX",
            AES_GCM_SIV_TYPE_URL,
            b"\x10\x20",
            3,
            true,
        )),
        Ok(true),
    ),
    (
        "AES128_CTR_HMAC_SHA256",
        Step::Template((
            "AES128_CTR_HMAC_SHA256",
            AES_CTR_HMAC_AEAD_TYPE_URL,
            b"\x0a\x06\x0a\x02\x08\x10\x10\x10\x12\x08\x0a\x04\x08\x03\x10\x10\x10\x20",
            1,
            true,
        )),
        Ok(true),
    ),
    (
        "AES256_CTR_HMAC_SHA256",
        Step::Template((
            "AES256_CTR_HMAC_SHA256",
            AES_CTR_HMAC_AEAD_TYPE_URL,
            b"\x0a\x06\x0a\x02\x08\x10\x10\x20\x12\x08\x0a\x04\x08\x03\x10\x20\x10\x20",
            1,
            true,
        )),
        Ok(true),
    ),
    // That of envelopes has AES128_GCM and its URL of 48 bytes.
    (
        "AES256_CTR_HMAC_SHA512",
        Step::Template((
            "AES256_CTR_HMAC_SHA512",
            AES_CTR_HMAC_AEAD_TYPE_URL,
            b"\x0a\x06\x0a\x02\x08\x10\x10\x20\x12\x08\x0a\x04\x08\x04\x10\x40\x10\x40",
            1,
            false,
        )),
        Ok(true),
    ),
    (
        "an envelope",
        Step::Template((
            "an envelope",
            KMS_ENVELOPE_AEAD_TYPE_URL,
            b"\x0a\x05a://b\x12\x38\x0a\x30type.googleapis.com/google.crypto.tink.AesGcmKey\x12\x02\x10\x10\x18\x01",
            3,
            false,
        )),
        Ok(true),
    ),
    ("again", Step::Init, THERE),
    ("eight templates", Step::Names(8), Ok(true)),
    (
        "the version of envelopes",
        Step::Version(KMS_ENVELOPE_AEAD_KEY_VERSION, 0),
        Ok(true),
    ),
];

// Where a URL is taken, nothing is registered.
const BESIDE: &[Row] = &[
    (
        "a manager of GCM-SIV",
        Step::Manage(AES_GCM_SIV_TYPE_URL),
        Ok(true),
    ),
    ("a taken URL", Step::Init, THERE),
    ("no template beside it", Step::Names(0), Ok(true)),
    (
        "no other manager beside it",
        Step::HasNot(AES_GCM_TYPE_URL),
        Ok(true),
    ),
];

// The tables are of a new registry each.
const TABLES: &[&[Row]] = &[ALL, BESIDE];

fn walk(verdict: &mut Verdict, alloc: Global, registry: &mut Registered, rows: &[Row]) {
    for (row, step, want) in rows {
        verdict.expect(answer_row(alloc, registry, step), *want, row);
    }
}

pub fn templates_and_managers_are_registered_once(alloc: Global, verdict: &mut Verdict) {
    for rows in TABLES {
        walk(verdict, alloc, &mut Registry::new(alloc), rows);
    }
}
