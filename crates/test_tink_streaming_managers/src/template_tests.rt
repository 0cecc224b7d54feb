//! The templates of keys of streams, and what `init` registers.

use crate::asked::{Asked, CTR, GCM, New, Of, Row, Template};
use std::alloc::Global;
use test_util::{Answer, Ask, Named, Verdict, succeeds};
use tink_io::{Kind, TinkError};
use tink_proto::Text;
use tink_registry::{KeyManager, Registry};
use tink_streaming_keys::StreamKinds;
use tink_streaming_managers::{AES_CTR_HMAC_TYPE_URL, AES_GCM_HKDF_TYPE_URL, init};

// What is asked of a registry.
enum Step {
    // That `init` adds all.
    Init,
    // That a manager of the URL is registered.
    Manage(&'static str),
    // Whether it has a manager of this URL.
    Manages(&'static str, bool),
    // That it has a template of this name, and that it has so many.
    HasTemplate(&'static str),
    HasTemplates(usize),
}

// Whether a registry has a manager of this URL.
fn has_manager(registry: &Registry<Named<StreamKinds>>, url: &str) -> bool {
    match registry.get_key_manager(url) {
        Ok(km) => km.type_url() == url,
        Err(_) => false,
    }
}

fn are(names: Result<Vec<Text>, TinkError>, n: usize) -> Result<bool, TinkError> {
    match names {
        Ok(names) => Ok(names.len() == n),
        Err(e) => Err(e),
    }
}

impl Ask<Registry<Named<StreamKinds>>> for Step {
    fn answer(
        &self,
        alloc: Global,
        registry: &mut Registry<Named<StreamKinds>>,
    ) -> Result<bool, TinkError> {
        match *self {
            Step::Init => succeeds(init(alloc, registry)),
            Step::Manage(url) => succeeds(registry.register_key_manager(alloc, Named::new(url))),
            Step::Manages(url, wanted) => Ok(has_manager(registry, url) == wanted),
            Step::HasTemplate(name) => Ok(registry.get_template_generator(name).is_some()),
            Step::HasTemplates(n) => are(registry.template_names(alloc), n),
        }
    }
}

const THERE: Answer = Err(Kind::AlreadyRegistered);

const CTR_URL: &str = AES_CTR_HMAC_TYPE_URL;

const GCM_URL: &str = AES_GCM_HKDF_TYPE_URL;

// The keys that two templates make of sevens.
const NEW_CTR: &[u8; 49] =
    b"\x12\x0d\x08\x80\x20\x10\x20\x18\x03\x22\x04\x08\x03\x10\x20\x1a\x20\x07\x07\x07\x07\x07\x07\x07\x07\x07\x07\x07\x07\x07\x07\x07\x07\x07\x07\x07\x07\x07\x07\x07\x07\x07\x07\x07\x07\x07\x07\x07\x07";

const NEW_GCM: &[u8; 28] =
    b"\x12\x08\x08\x80\x80\x40\x10\x10\x18\x03\x1a\x10\x07\x07\x07\x07\x07\x07\x07\x07\x07\x07\x07\x07\x07\x07\x07\x07";

// A draw fewer than a key takes.
const FEW: New = New {
    draws: 15,
    left: 15,
    key: b"",
};

const ROWS: &[Row] = &[
    (
        "ctr 128, 4kb",
        Asked::Template(
            Template::Ctr128In4Kb,
            Of::Is(
                CTR_URL,
                b"\x0a\x0d\x08\x80\x20\x10\x10\x18\x03\x22\x04\x08\x03\x10\x20\x10\x10",
            ),
        ),
        Ok(true),
    ),
    (
        "ctr 128, 1mb",
        Asked::Template(
            Template::Ctr128In1Mb,
            Of::Is(
                CTR_URL,
                b"\x0a\x0e\x08\x80\x80\x40\x10\x10\x18\x03\x22\x04\x08\x03\x10\x20\x10\x10",
            ),
        ),
        Ok(true),
    ),
    (
        "ctr 256, 4kb",
        Asked::Template(
            Template::Ctr256In4Kb,
            Of::Is(
                CTR_URL,
                b"\x0a\x0d\x08\x80\x20\x10\x20\x18\x03\x22\x04\x08\x03\x10\x20\x10\x20",
            ),
        ),
        Ok(true),
    ),
    (
        "ctr 256, 1mb",
        Asked::Template(
            Template::Ctr256In1Mb,
            Of::Is(
                CTR_URL,
                b"\x0a\x0e\x08\x80\x80\x40\x10\x20\x18\x03\x22\x04\x08\x03\x10\x20\x10\x20",
            ),
        ),
        Ok(true),
    ),
    (
        "gcm 128, 4kb",
        Asked::Template(
            Template::Gcm128In4Kb,
            Of::Is(GCM_URL, b"\x0a\x07\x08\x80\x20\x10\x10\x18\x03\x10\x10"),
        ),
        Ok(true),
    ),
    (
        "gcm 128, 1mb",
        Asked::Template(
            Template::Gcm128In1Mb,
            Of::Is(GCM_URL, b"\x0a\x08\x08\x80\x80\x40\x10\x10\x18\x03\x10\x10"),
        ),
        Ok(true),
    ),
    (
        "gcm 256, 4kb",
        Asked::Template(
            Template::Gcm256In4Kb,
            Of::Is(GCM_URL, b"\x0a\x07\x08\x80\x20\x10\x20\x18\x03\x10\x20"),
        ),
        Ok(true),
    ),
    (
        "gcm 256, 1mb",
        Asked::Template(
            Template::Gcm256In1Mb,
            Of::Is(GCM_URL, b"\x0a\x08\x08\x80\x80\x40\x10\x20\x18\x03\x10\x20"),
        ),
        Ok(true),
    ),
    (
        "a new key, ctr",
        Asked::Template(
            Template::Ctr256In4Kb,
            Of::Makes(
                CTR,
                New {
                    draws: 33,
                    left: 1,
                    key: NEW_CTR,
                },
            ),
        ),
        Ok(true),
    ),
    (
        "the sizes of a new key, ctr",
        Asked::Built(CTR, NEW_CTR, &[7; 32], &[40, 4096, 4056, 32, 32, 16]),
        Ok(true),
    ),
    (
        "a new key, gcm",
        Asked::Template(
            Template::Gcm128In1Mb,
            Of::Makes(
                GCM,
                New {
                    draws: 17,
                    left: 1,
                    key: NEW_GCM,
                },
            ),
        ),
        Ok(true),
    ),
    (
        "the sizes of a new key, gcm",
        Asked::Built(
            GCM,
            NEW_GCM,
            &[7; 16],
            &[24, 1_048_576, 1_048_552, 16, 16, 12],
        ),
        Ok(true),
    ),
    (
        "15 draws, ctr",
        Asked::Template(Template::Ctr128In4Kb, Of::Makes(CTR, FEW)),
        Err(Kind::RandomFault),
    ),
    (
        "15 draws, gcm",
        Asked::Template(Template::Gcm128In4Kb, Of::Makes(GCM, FEW)),
        Err(Kind::RandomFault),
    ),
];

// The steps of a new registry.
const ALL: &[(&str, Step, Answer)] = &[
    ("all is registered", Step::Init, Ok(true)),
    ("all is registered", Step::Manages(CTR_URL, true), Ok(true)),
    ("all is registered", Step::Manages(GCM_URL, true), Ok(true)),
    (
        "all is registered",
        Step::HasTemplate("AES128_CTR_HMAC_SHA256_4KB"),
        Ok(true),
    ),
    (
        "all is registered",
        Step::HasTemplate("AES256_GCM_HKDF_1MB"),
        Ok(true),
    ),
    ("all is registered", Step::HasTemplates(8), Ok(true)),
    // And then nothing.
    ("all is registered", Step::Init, THERE),
    ("all is registered", Step::HasTemplates(8), Ok(true)),
];

// Those of another one.
const BESIDE: &[(&str, Step, Answer)] = &[
    (
        "nothing is registered beside another manager",
        Step::Manage(GCM_URL),
        Ok(true),
    ),
    (
        "nothing is registered beside another manager",
        Step::Init,
        THERE,
    ),
    (
        "nothing is registered beside another manager",
        Step::HasTemplates(0),
        Ok(true),
    ),
    (
        "nothing is registered beside another manager",
        Step::Manages(CTR_URL, false),
        Ok(true),
    ),
];

fn registries(alloc: Global, verdict: &mut Verdict) {
    verdict.walk(alloc, Registry::new(alloc), ALL);
    verdict.walk(alloc, Registry::new(alloc), BESIDE);
}

pub fn rows(alloc: Global, verdict: &mut Verdict) {
    verdict.walk(alloc, (), ROWS);
    registries(alloc, verdict);
}
