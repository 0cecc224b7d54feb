//! A registry of managers of test keys.

ghost use Rattle.std.specs.Prelude.{◌≡◌, Some};
ghost use Rattle.tink_io.specs.Answering.{Answers};
ghost use Rattle.tink_registry.specs.Listed.{manager_of};

use std::alloc::Global;
use test_util::{
    Answer, Ask, TestAead, TestKinds, TestManager, URL, Verdict, ask_made, draws_of, gives,
    succeeds, template,
};
use tink_io::{Draws, Kind, TinkError};
use tink_primitives::{Aead, Primitive};
use tink_proto::{Bytes, KeyData, KeyMaterialType, KeyTemplate, Text};
use tink_registry::{KeyManager, Registry};

/// What a manager that a registry finds builds of a key.
fn built_by<M: KeyManager>(
    registry: &Registry<M>,
    alloc: Global,
    url: &str,
    key: &[u8],
) -> Result<Primitive<M::Family>, TinkError>
    ensures { (m : M) → manager_of M.url url.now registry.now.managers ≡ Some m → Answers result (M.builds m key.now) }
{
    match registry.get_key_manager(url) {
        Ok(manager) => manager.primitive(alloc, key),
        Err(e) => Err(e),
    }
}

// What is asked of a registry, and of what it hands out.
enum Step {
    // Something is registered.
    Register(Added),
    // Something is registered, or nothing of it.
    Alone(Added),
    // The same beside FIRST and BEFORE, which stay as they are.
    Beside(Added),
    // So many of these were taken, or more.
    Taken(usize),
    // The URL's manager is asked.
    Says(&'static str, Said),
    // The template of the name has the URL.
    HasTemplate(&'static str, &'static str),
    // The names of the templates are these.
    HasNames(&'static str, &'static str),
    // There is a manager of the URL and a template of the name, or neither.
    HasBoth(&'static str, bool),
    // A new key of the URL.
    Makes(&'static str, Made),
    // So many draws are left.
    Left(usize),
    // The AEAD of the URL and the key opens this to abc.
    Opens(&'static str, &'static [u8], &'static [u8]),
    // The manager of the URL that the registry finds builds an AEAD of the key.
    FindsAndBuilds(&'static str, &'static [u8]),
}

enum Added {
    // A manager of the URL.
    Manager(&'static str),
    // Managers of both URLs and a template of each name.
    Both(&'static str, &'static str),
    // A template of the URL under the name.
    Template(&'static str, &'static str),
}

enum Made {
    // Its bytes are sixteen digits 7.
    Key,
    // And so are its data, of the material 1.
    Data,
    // The AEAD of its data seals abc to this.
    Sealing(&'static [u8]),
}

// Puts a template of the URL under a name.
fn put_template(
    alloc: Global,
    registry: &mut Registry<TestManager>,
    name: &str,
    url: &str,
) -> Result<(), TinkError> {
    match template(alloc, url, &[], 1) {
        Ok(kt) => registry.register_template_generator(alloc, name, kt),
        Err(e) => Err(e),
    }
}

// A template whose URL is the name.
fn push_named(
    alloc: Global,
    kts: &mut Vec<(Text, KeyTemplate)>,
    name: &str,
) -> Result<(), TinkError> {
    let text = Text::from_str(alloc, name)?;
    match template(alloc, name, &[], 1) {
        Ok(kt) => Ok(kts.push((text, kt))?),
        Err(e) => Err(e),
    }
}

// Registers managers of both URLs and a template of each name.
fn register_two(
    alloc: Global,
    registry: &mut Registry<TestManager>,
    one: &'static str,
    other: &'static str,
) -> Result<(), TinkError> {
    let mut kts = Vec::new(alloc);
    for name in &[one, other] {
        push_named(alloc, &mut kts, name)?;
    }
    let kms = vec![in alloc; TestManager::new(one), TestManager::new(other)]?;
    registry.register_all(alloc, kms, kts)
}

fn register(
    alloc: Global,
    registry: &mut Registry<TestManager>,
    added: &Added,
) -> Result<(), TinkError> {
    match *added {
        Added::Manager(url) => registry.register_key_manager(alloc, TestManager::new(url)),
        Added::Both(one, other) => register_two(alloc, registry, one, other),
        Added::Template(name, url) => put_template(alloc, registry, name, url),
    }
}

// What is asked of a manager.
enum Said {
    // It says of itself what one of symmetric keys does.
    Symmetric,
    // It gives the public part of a key.
    Public,
}

fn is_said(
    alloc: Global,
    manager: Result<&TestManager, TinkError>,
    url: &str,
    said: &Said,
) -> Result<bool, TinkError> {
    match manager {
        Ok(manager) => match *said {
            Said::Symmetric => Ok(
                (manager.type_url() == url)
                    & manager.does_support(url)
                    & (manager.key_material_type() == KeyMaterialType::Symmetric)
                    & !manager.supports_private_keys(),
            ),
            Said::Public => succeeds(manager.public_key_data(alloc, &[7; 16])),
        },
        Err(e) => Err(e),
    }
}

fn has_template(registry: &Registry<TestManager>, name: &str, url: &str) -> bool {
    match registry.get_template_generator(name) {
        Some(kt) => kt.type_url.as_str() == url,
        None => false,
    }
}

fn are_names(
    names: Result<Vec<Text>, TinkError>,
    one: &str,
    other: &str,
) -> Result<bool, TinkError> {
    match names {
        Ok(names) => match names.as_slice() {
            [a, b] => Ok((a.as_str() == one) & (b.as_str() == other)),
            _ => Ok(false),
        },
        Err(e) => Err(e),
    }
}

// Whether the registry has a manager of the name and a template, or neither, as it is asked.
fn has(registry: &Registry<TestManager>, name: &str, wanted: bool) -> bool {
    (registry.get_key_manager(name).is_ok() == wanted)
        & (registry.get_template_generator(name).is_some() == wanted)
}

// The data are the test URL's, with sixteen digits 7 and of the material 1.
struct Sevens;

impl Ask<KeyData> for Sevens {
    fn answer(&self, _alloc: Global, kd: &mut KeyData) -> Result<bool, TinkError> {
        Ok(
            (kd.type_url.as_str() == URL)
                & (kd.value.as_slice() == [b'7'; 16].as_slice())
                & (kd.key_material_type == 1),
        )
    }
}

type Built = Result<Primitive<TestKinds>, TinkError>;

fn aead_of(built: Built) -> Result<TestAead, TinkError> {
    match built {
        Ok(p) => p.into_aead(),
        Err(e) => Err(e),
    }
}

fn opened_by(alloc: Global, built: Built, sealed: &[u8]) -> Result<Bytes, TinkError> {
    match aead_of(built) {
        Ok(aead) => aead.decrypt(alloc, sealed, b""),
        Err(e) => Err(e),
    }
}

// The text abc, sealed by a primitive.
fn sealed_by(alloc: Global, built: Built, draws: &mut Draws) -> Result<Bytes, TinkError> {
    match aead_of(built) {
        Ok(aead) => aead.encrypt(alloc, b"abc", b"", draws),
        Err(e) => Err(e),
    }
}

// The primitive of the data of a new key.
fn new_primitive(
    alloc: Global,
    registry: &Registry<TestManager>,
    kt: &KeyTemplate,
    draws: &mut Draws,
) -> Built {
    match registry.new_key_data(alloc, kt, draws) {
        Ok(data) => registry.primitive_from_key_data(alloc, &data),
        Err(e) => Err(e),
    }
}

fn makes_by(
    alloc: Global,
    registry: &Registry<TestManager>,
    kt: &KeyTemplate,
    of: &Made,
    draws: &mut Draws,
) -> Result<bool, TinkError> {
    match *of {
        Made::Key => gives(registry.new_key(alloc, kt, draws), &[b'7'; 16]),
        Made::Data => ask_made(alloc, registry.new_key_data(alloc, kt, draws), &Sevens),
        Made::Sealing(want) => {
            let built = new_primitive(alloc, registry, kt, draws);
            gives(sealed_by(alloc, built, draws), want)
        }
    }
}

// A registry, what is drawn, and how many registrations were tried and taken.
#[derive(Drop)]
struct World {
    registry: Registry<TestManager>,
    draws: Draws,
    taken: usize,
}

fn makes(alloc: Global, of: &mut World, url: &str, what: &Made) -> Result<bool, TinkError> {
    match template(alloc, url, &[], 1) {
        Ok(kt) => makes_by(alloc, &of.registry, &kt, what, &mut of.draws),
        Err(e) => Err(e),
    }
}

// Whether what was registered is there, or is not.
fn is_there(registry: &Registry<TestManager>, added: &Added, wanted: bool) -> bool {
    match *added {
        Added::Manager(url) => registry.get_key_manager(url).is_ok() == wanted,
        Added::Both(one, other) => has(registry, one, wanted) & has(registry, other, wanted),
        Added::Template(name, url) => has_template(registry, name, url) == wanted,
    }
}

const FIRST: Added = Added::Manager("first");

const BEFORE: Added = Added::Template("before", URL);

fn is_whole(alloc: Global, of: &mut World, added: &Added) -> bool {
    let done = register(alloc, &mut of.registry, added).is_ok();
    of.taken = of.taken.wrapping_add(done as usize);
    is_there(&of.registry, added, done)
}

fn is_beside(alloc: Global, of: &mut World, added: &Added) -> bool {
    let first = is_there(&of.registry, &FIRST, true);
    let before = is_there(&of.registry, &BEFORE, true);
    is_whole(alloc, of, added)
        & is_there(&of.registry, &FIRST, first)
        & is_there(&of.registry, &BEFORE, before)
}

impl Ask<World> for Step {
    fn answer(&self, alloc: Global, of: &mut World) -> Result<bool, TinkError> {
        match *self {
            Step::Register(ref added) => succeeds(register(alloc, &mut of.registry, added)),
            Step::Alone(ref added) => Ok(is_whole(alloc, of, added)),
            Step::Beside(ref added) => Ok(is_beside(alloc, of, added)),
            Step::Taken(n) => Ok(n <= of.taken),
            Step::Says(url, ref said) => is_said(
                alloc,
                of.registry.get_key_manager(url),
                url,
                said,
            ),
            Step::HasTemplate(name, url) => Ok(has_template(&of.registry, name, url)),
            Step::HasNames(one, other) => are_names(of.registry.template_names(alloc), one, other),
            Step::HasBoth(name, wanted) => Ok(has(&of.registry, name, wanted)),
            Step::Makes(url, ref what) => makes(alloc, of, url, what),
            Step::Left(n) => Ok(of.draws.left() == n),
            Step::FindsAndBuilds(url, key) => succeeds(aead_of(built_by(
                &of.registry,
                alloc,
                url,
                key,
            ))),
            Step::Opens(url, key, sealed) => gives(
                opened_by(alloc, of.registry.primitive(alloc, url, key), sealed),
                b"abc",
            ),
        }
    }
}

const THERE: Answer = Err(Kind::AlreadyRegistered);

const UNSUPPORTED: Answer = Err(Kind::UnsupportedKeyType);

const INVALID: Answer = Err(Kind::InvalidKey);

const NO_DRAWS: Answer = Err(Kind::RandomFault);

// The steps of a new registry, with draws for a key and a nonce and 47 digits 7.
const STEPS: &[(&str, Step, Answer)] = &[
    ("a URL", Step::Register(Added::Manager(URL)), Ok(true)),
    (
        "new data seal",
        Step::Makes(URL, Made::Sealing(b"dabc0123456789abcdef")),
        Ok(true),
    ),
    // A key is made.
    (
        "the data of a new key",
        Step::Makes(URL, Made::Data),
        Ok(true),
    ),
    (
        "the bytes of a new key",
        Step::Makes(URL, Made::Key),
        Ok(true),
    ),
    ("of 47 draws 15 are left", Step::Left(15), Ok(true)),
    // Refusals to make stand in their order.
    (
        "a key of an unknown URL",
        Step::Makes("x", Made::Key),
        UNSUPPORTED,
    ),
    (
        "data of an unknown URL",
        Step::Makes("x", Made::Data),
        UNSUPPORTED,
    ),
    ("a key from 15 draws", Step::Makes(URL, Made::Key), NO_DRAWS),
    ("data from 15 draws", Step::Makes(URL, Made::Data), NO_DRAWS),
    ("a refusal draws nothing", Step::Left(15), Ok(true)),
    // Refusals to build stand in their order.
    ("no key and no URL", Step::Opens("x", b"", b""), INVALID),
    ("no URL", Step::Opens("x", b"k", b""), UNSUPPORTED),
    ("a key of one byte", Step::Opens(URL, b"k", b""), INVALID),
    // A key builds.
    (
        "a key opens",
        Step::Opens(URL, b"0123456789abcdef", b"dabc0123456789abcdef"),
        Ok(true),
    ),
    (
        "a manager that is found builds",
        Step::FindsAndBuilds(URL, &[7; 16]),
        Ok(true),
    ),
    // A URL is registered once.
    ("the URL again", Step::Register(Added::Manager(URL)), THERE),
    (
        "another URL",
        Step::Register(Added::Manager("another")),
        Ok(true),
    ),
    (
        "its manager",
        Step::Says("another", Said::Symmetric),
        Ok(true),
    ),
    (
        "a URL that is not there",
        Step::Says("third", Said::Symmetric),
        UNSUPPORTED,
    ),
    (
        "its public key",
        Step::Says("another", Said::Public),
        Err(Kind::NoPrivateKeys),
    ),
    // Names are sorted and stand once.
    (
        "a template",
        Step::Register(Added::Template("n", "1")),
        Ok(true),
    ),
    (
        "one of an earlier name",
        Step::Register(Added::Template("m", "2")),
        Ok(true),
    ),
    (
        "one of the same name",
        Step::Register(Added::Template("n", "3")),
        Ok(true),
    ),
    ("the names", Step::HasNames("m", "n"), Ok(true)),
    ("the template of m", Step::HasTemplate("m", "2"), Ok(true)),
    ("the newer one of n", Step::HasTemplate("n", "3"), Ok(true)),
    ("none of o", Step::HasTemplate("o", ""), Ok(false)),
    // All are registered, or none.
    ("a URL twice", Step::Register(Added::Both("a", "a")), THERE),
    (
        "nothing of a URL that stands twice",
        Step::HasBoth("a", false),
        Ok(true),
    ),
    (
        "a URL that is there",
        Step::Register(Added::Both("a", URL)),
        THERE,
    ),
    (
        "nothing beside a URL that was there",
        Step::HasBoth("a", false),
        Ok(true),
    ),
    (
        "two of each",
        Step::Register(Added::Both("a", "b")),
        Ok(true),
    ),
    ("the first of two", Step::HasBoth("a", true), Ok(true)),
    ("the second of two", Step::HasBoth("b", true), Ok(true)),
];

// The draws of STEPS.
const DRAWS: &[u8] = b"0123456789abcdefd77777777777777777777777777777777777777777777777";

// What is tried of another one: a call that is refused for `OutOfMemory` registers nothing, and one that isn't registers
// all.
const TRIED: &[(&str, Step, Answer)] = &[
    ("what was registered", Step::Alone(FIRST), Ok(true)),
    ("what was registered", Step::Alone(BEFORE), Ok(true)),
    (
        "what was registered",
        Step::Beside(Added::Manager("e")),
        Ok(true),
    ),
    (
        "what was registered",
        Step::Beside(Added::Template("e", "e")),
        Ok(true),
    ),
    (
        "what was registered",
        Step::Beside(Added::Both("f", "g")),
        Ok(true),
    ),
    // Nearly all are.
    ("what was registered", Step::Taken(4), Ok(true)),
];

// A new registry with these draws.
fn new_world(alloc: Global, draws: &[u8]) -> Result<World, TinkError> {
    match draws_of(alloc, draws) {
        Ok(draws) => Ok(World {
            registry: Registry::new(alloc),
            draws,
            taken: 0,
        }),
        Err(e) => Err(e),
    }
}

pub fn rows(alloc: Global, verdict: &mut Verdict) {
    verdict.walk_made(alloc, new_world(alloc, DRAWS), "the draws", STEPS);
    verdict.walk_made(alloc, new_world(alloc, b""), "the draws", TRIED);
}
