//! Commands, and what they leave.

use crate::known::{
    DELETED, DESTROYED, DISABLED, KEYS, KEYS_JSON, MASTER, MOVED, NINE, PROMOTED, ROTATED, SEALED,
    TEXT, TOKEN, WRAPPED,
};
use crate::steps::{Step, World};
use std::alloc::Global;
use test_util::{CTR_35, Verdict};
use tink_io::Kind;

type Row = (&'static str, Step, Result<bool, Kind>);

// What each row is to answer.
const HOLDS: Result<bool, Kind> = Ok(true);

// Random bytes that count up: what a header of a stream takes.
const COUNTED: &[u8] = b"\
    \x00\x01\x02\x03\x04\x05\x06\x07\x08\x09\x0a\x0b\x0c\x0d\x0e\x0f\x10\x11\x12\x13\x14\x15\x16\x17\
    \x18\x19\x1a\x1b\x1c\x1d\x1e\x1f";

// A key of the id YYYY, and one of ZZZZ.
const OF_YYYY: &[u8] = b"fedcba9876543210YYYY";

const OF_ZZZZ: &[u8] = b"0123456789abcdefYYYYZZZZ";

const NEW: &[Row] = &[
    ("random", Step::Random(OF_YYYY), HOLDS),
    (
        "new",
        Step::Run("new AES128_GCM --prefix raw --format binary -o made", 0),
        HOLDS,
    ),
    ("a new file", Step::Is("made", KEYS), HOLDS),
    (
        "new without random bytes",
        Step::Run("new AES128_GCM -o none", 35),
        HOLDS,
    ),
    ("none is made", Step::IsNone("none"), HOLDS),
    ("other random bytes", Step::Random(OF_ZZZZ), HOLDS),
    (
        "new of a name that is there",
        Step::Run("new AES128_GCM --format binary -o made", 12),
        HOLDS,
    ),
    ("it stays", Step::Is("made", KEYS), HOLDS),
    ("random again", Step::Random(OF_YYYY), HOLDS),
    (
        "new on standard output",
        Step::Run("new AES128_GCM --prefix raw --format binary -o -", 0),
        HOLDS,
    ),
    ("it is there", Step::Output(KEYS), HOLDS),
    ("random for no template", Step::Random(OF_YYYY), HOLDS),
    ("no template", Step::Run("new NONE -o none", 24), HOLDS),
    ("none is made of it", Step::IsNone("none"), HOLDS),
];

const LISTED: &[u8] = b"1499027801\tenabled\tRAW\tAesGcmKey\tprimary\n";

const CONVERTED: &[Row] = &[
    ("keys", Step::Run("keys keys", 0), HOLDS),
    ("its line", Step::Output(LISTED), HOLDS),
    (
        "convert",
        Step::Run("convert keys --format json -o json", 0),
        HOLDS,
    ),
    ("it in JSON", Step::Is("json", KEYS_JSON), HOLDS),
    ("keys of JSON", Step::Run("keys json", 0), HOLDS),
    ("the same line", Step::Output(LISTED), HOLDS),
    (
        "convert again",
        Step::Run("convert json --format binary -o binary", 0),
        HOLDS,
    ),
    ("as it was", Step::Is("binary", KEYS), HOLDS),
    (
        "convert to a name that is there",
        Step::Run("convert keys --format json -o binary", 12),
        HOLDS,
    ),
    ("that stays", Step::Is("binary", KEYS), HOLDS),
    ("standard input", Step::Input(KEYS), HOLDS),
    (
        "convert of it",
        Step::Run("convert - --format json -o -", 0),
        HOLDS,
    ),
    ("JSON on standard output", Step::Output(KEYS_JSON), HOLDS),
];

const GROWN: &[Row] = &[
    ("random", Step::Random(OF_ZZZZ), HOLDS),
    ("rotate", Step::Run("rotate keys AES128_GCM", 0), HOLDS),
    ("rotated", Step::Is("keys", ROTATED), HOLDS),
    ("promote", Step::Run("promote keys 1499027801", 0), HOLDS),
    ("promoted", Step::Is("keys", PROMOTED), HOLDS),
    ("the first file", Step::Put("keys", KEYS), HOLDS),
    ("random for one more", Step::Random(OF_ZZZZ), HOLDS),
    ("add", Step::Run("add keys AES128_GCM", 0), HOLDS),
    ("added", Step::Is("keys", PROMOTED), HOLDS),
    (
        "rotate without random bytes",
        Step::Run("rotate keys AES128_GCM", 35),
        HOLDS,
    ),
    ("it stays", Step::Is("keys", PROMOTED), HOLDS),
];

const OTHER_PRIMITIVE: &[Row] = &[
    (
        "random",
        Step::Random(b"0123456789abcdef0123456789abcdefZZZZ"),
        HOLDS,
    ),
    (
        "rotate to MACs",
        Step::Run("rotate keys HMAC_SHA256_128BITTAG", 18),
        HOLDS,
    ),
    ("it stays", Step::Is("keys", KEYS), HOLDS),
];

const EDITED: &[Row] = &[
    ("two keys", Step::Put("keys", ROTATED), HOLDS),
    ("a link", Step::Link("link", "keys"), HOLDS),
    ("disable", Step::Run("disable keys 1499027801", 0), HOLDS),
    ("disabled", Step::Is("keys", DISABLED), HOLDS),
    (
        "promote of a disabled key",
        Step::Run("promote keys 1499027801", 33),
        HOLDS,
    ),
    (
        "enable by the link",
        Step::Run("enable link 1499027801", 0),
        HOLDS,
    ),
    ("enabled", Step::Is("keys", ROTATED), HOLDS),
    (
        "disable of the primary key",
        Step::Run("disable keys 1515870810", 32),
        HOLDS,
    ),
    (
        "delete of the primary key",
        Step::Run("delete keys 1515870810", 32),
        HOLDS,
    ),
    ("destroy of no key", Step::Run("destroy keys 7", 31), HOLDS),
    ("it stays", Step::Is("link", ROTATED), HOLDS),
    ("destroy", Step::Run("destroy keys 1499027801", 0), HOLDS),
    ("destroyed", Step::Is("keys", DESTROYED), HOLDS),
    ("delete", Step::Run("delete keys 1499027801", 0), HOLDS),
    ("deleted", Step::Is("keys", DELETED), HOLDS),
];

const UNREAD: &[Row] = &[
    ("no file", Step::Run("keys none", 11), HOLDS),
    ("delete in no file", Step::Run("delete none 7", 12), HOLDS),
    ("no keyset", Step::Put("broken", b"none"), HOLDS),
    ("keys of no keyset", Step::Run("keys broken", 13), HOLDS),
    ("no JSON", Step::Put("broken", b"{"), HOLDS),
    ("keys of no JSON", Step::Run("keys broken", 30), HOLDS),
    ("no keys", Step::Put("broken", b"{}"), HOLDS),
    ("keys without a key", Step::Run("keys broken", 14), HOLDS),
    (
        "promote in a broken file",
        Step::Run("promote broken 7", 14),
        HOLDS,
    ),
    ("it stays", Step::Is("broken", b"{}"), HOLDS),
    (
        "encrypt without random bytes",
        Step::Run("encrypt -k ctr -o out text", 35),
        HOLDS,
    ),
    (
        "decrypt of no file",
        Step::Run("decrypt -k ctr -o out none", 11),
        HOLDS,
    ),
    ("nothing is there", Step::IsNone("out"), HOLDS),
];

const STREAMS: &[Row] = &[
    ("random", Step::Random(COUNTED), HOLDS),
    (
        "encrypt",
        Step::Run("encrypt -k ctr --aad May -o sealed text", 0),
        HOLDS,
    ),
    ("encrypted", Step::Is("sealed", SEALED), HOLDS),
    (
        "decrypt",
        Step::Run("decrypt -k ctr --aad May -o again sealed", 0),
        HOLDS,
    ),
    ("decrypted", Step::Is("again", TEXT), HOLDS),
    ("the text on standard input", Step::Input(TEXT), HOLDS),
    ("random again", Step::Random(COUNTED), HOLDS),
    (
        "encrypt of it",
        Step::Run("encrypt -k ctr --aad May", 0),
        HOLDS,
    ),
    ("its stream", Step::Output(SEALED), HOLDS),
    ("the stream on standard input", Step::Input(SEALED), HOLDS),
    (
        "decrypt of it",
        Step::Run("decrypt -k ctr --aad May -o - -", 0),
        HOLDS,
    ),
    ("its text", Step::Output(TEXT), HOLDS),
    ("the keys on standard input", Step::Input(CTR_35), HOLDS),
    (
        "decrypt by them",
        Step::Run("decrypt -k - --aad May sealed", 0),
        HOLDS,
    ),
    ("the text by them", Step::Output(TEXT), HOLDS),
];

const INFO: &[u8] = b"key 16909060\nsegments 2\nsegment 35 bytes\nplaintext 20 bytes\n";

const OPENED: &[Row] = &[
    ("a stream", Step::Put("sealed", SEALED), HOLDS),
    (
        "check",
        Step::Run("check -k ctr --aad May sealed", 0),
        HOLDS,
    ),
    ("nothing is written", Step::Output(b""), HOLDS),
    ("info", Step::Run("info -k ctr --aad May sealed", 0), HOLDS),
    ("its lines", Step::Output(INFO), HOLDS),
    (
        "other data",
        Step::Run("decrypt -k ctr --aad ctr -o out sealed", 21),
        HOLDS,
    ),
    ("no data", Step::Run("check -k ctr sealed", 21), HOLDS),
    (
        "other keys",
        Step::Run("check -k gcm --aad May sealed", 21),
        HOLDS,
    ),
    ("a cut stream", Step::Part("cut", SEALED, 0, 44), HOLDS),
    (
        "check of it",
        Step::Run("check -k ctr --aad May cut", 23),
        HOLDS,
    ),
    (
        "decrypt of it",
        Step::Run("decrypt -k ctr --aad May -o out cut", 23),
        HOLDS,
    ),
    ("a cut segment", Step::Part("cut", SEALED, 0, 63), HOLDS),
    (
        "check of that",
        Step::Run("check -k ctr --aad May cut", 22),
        HOLDS,
    ),
    ("no beginning", Step::Part("cut", SEALED, 1, 64), HOLDS),
    (
        "check without it",
        Step::Run("check -k ctr --aad May cut", 21),
        HOLDS,
    ),
    ("nothing is there", Step::IsNone("out"), HOLDS),
];

const PROTECTED: &[Row] = &[
    ("a link to the keys", Step::Link("link", "ctr"), HOLDS),
    ("random", Step::Random(COUNTED), HOLDS),
    (
        "over the keys",
        Step::Run("encrypt -k ctr -o ctr text", 12),
        HOLDS,
    ),
    (
        "by a link",
        Step::Run("encrypt -k ctr -o link text", 12),
        HOLDS,
    ),
    (
        "over new keys",
        Step::Run("rewrap -k ctr -t gcm -o gcm text", 12),
        HOLDS,
    ),
    (
        "over the master",
        Step::Run("decrypt -k ctr --master master -o master text", 12),
        HOLDS,
    ),
    ("the keys stay", Step::Is("ctr", CTR_35), HOLDS),
    ("the master stays", Step::Is("master", MASTER), HOLDS),
    (
        "a file that is there",
        Step::Run("encrypt -k ctr --aad May --no-clobber -o keys text", 12),
        HOLDS,
    ),
    ("it stays", Step::Is("keys", KEYS), HOLDS),
    ("random again", Step::Random(COUNTED), HOLDS),
    (
        "over the text",
        Step::Run("encrypt -k ctr --aad May -o text text", 0),
        HOLDS,
    ),
    ("the stream of the text", Step::Is("text", SEALED), HOLDS),
    (
        "over the stream",
        Step::Run("decrypt -k ctr --aad May -o text text", 0),
        HOLDS,
    ),
    ("the text of the stream", Step::Is("text", TEXT), HOLDS),
];

const TOKENS_AND_RANGES: &[Row] = &[
    ("a stream", Step::Put("sealed", SEALED), HOLDS),
    (
        "range",
        Step::Run("range -k ctr --aad May --start 0 --length 9 sealed", 0),
        HOLDS,
    ),
    ("nine bytes", Step::Output(NINE), HOLDS),
    (
        "range to a file",
        Step::Run(
            "range -k ctr --aad May --start 0 --length 9 -o nine sealed",
            0,
        ),
        HOLDS,
    ),
    ("nothing beside it", Step::Output(b""), HOLDS),
    ("nine bytes in it", Step::Is("nine", NINE), HOLDS),
    (
        "range with other data",
        Step::Run("range -k ctr --start 0 --length 9 -o none sealed", 21),
        HOLDS,
    ),
    ("no file of it", Step::IsNone("none"), HOLDS),
    ("random", Step::Random(COUNTED), HOLDS),
    (
        "rewrap",
        Step::Run(
            "rewrap -k ctr --aad May -t gcm --to-aad June -o moved sealed",
            0,
        ),
        HOLDS,
    ),
    ("moved", Step::Is("moved", MOVED), HOLDS),
    ("sign", Step::Run("sign -k macs -o token text", 0), HOLDS),
    ("a token", Step::Is("token", TOKEN), HOLDS),
    ("verify", Step::Run("verify -k macs token", 0), HOLDS),
    ("its text", Step::Output(TEXT), HOLDS),
];

const REFUSED_PARTS: &[Row] = &[
    ("a stream", Step::Put("sealed", SEALED), HOLDS),
    (
        "info with other data",
        Step::Run("info -k ctr sealed", 21),
        HOLDS,
    ),
    (
        "info of standard input",
        Step::Run("info -k ctr --aad May", 2),
        HOLDS,
    ),
    (
        "info of no file",
        Step::Run("info -k ctr --aad May none", 11),
        HOLDS,
    ),
    (
        "range of no file",
        Step::Run("range -k ctr --aad May --start 0 --length 9 none", 11),
        HOLDS,
    ),
    (
        "range over the keys",
        Step::Run(
            "range -k ctr --aad May --start 0 --length 9 -o ctr sealed",
            12,
        ),
        HOLDS,
    ),
    ("a cut stream", Step::Part("cut", SEALED, 0, 44), HOLDS),
    (
        "info of it",
        Step::Run("info -k ctr --aad May cut", 23),
        HOLDS,
    ),
    ("no lines", Step::Output(b""), HOLDS),
    (
        "range of it",
        Step::Run("range -k ctr --aad May --start 0 --length 9 cut", 23),
        HOLDS,
    ),
    ("no bytes", Step::Output(b""), HOLDS),
];

const MASTERS: &[Row] = &[
    ("random", Step::Random(b"twelve bytes"), HOLDS),
    (
        "wrap",
        Step::Run(
            "wrap -k master --aad data --format binary -o wrapped keys",
            0,
        ),
        HOLDS,
    ),
    ("wrapped", Step::Is("wrapped", WRAPPED), HOLDS),
    (
        "unwrap",
        Step::Run(
            "unwrap -k master --aad data --format binary -o same wrapped",
            0,
        ),
        HOLDS,
    ),
    ("unwrapped", Step::Is("same", KEYS), HOLDS),
    (
        "unwrap with other data",
        Step::Run("unwrap -k master --aad date -o none wrapped", 34),
        HOLDS,
    ),
    (
        "unwrap over the file",
        Step::Run("unwrap -k master --aad data -o wrapped wrapped", 12),
        HOLDS,
    ),
    ("random for streams", Step::Random(b"twelve bytes"), HOLDS),
    (
        "wrap of streams",
        Step::Run("wrap -k master --aad data -o under ctr", 0),
        HOLDS,
    ),
    ("random for a stream", Step::Random(COUNTED), HOLDS),
    (
        "encrypt by a wrapped file",
        Step::Run(
            "encrypt -k under --master master --master-aad data --aad May -o sealed text",
            0,
        ),
        HOLDS,
    ),
    ("a stream by it", Step::Is("sealed", SEALED), HOLDS),
    (
        "other data of the master",
        Step::Run("check -k under --master master --aad May sealed", 34),
        HOLDS,
    ),
    ("nothing is there", Step::IsNone("none"), HOLDS),
];

const TEXTS: &[Row] = &[
    ("version", Step::Run("version", 0), HOLDS),
    (
        "a version",
        Step::Output(b"tink of Wandrefona 1.0\n"),
        HOLDS,
    ),
    ("help", Step::Run("help rotate", 0), HOLDS),
    ("templates", Step::Run("templates", 0), HOLDS),
    ("no command", Step::Run("frobnicate", 2), HOLDS),
    ("nothing of it", Step::Output(b""), HOLDS),
    (
        "no option",
        Step::Run("encrypt --frobnicate -k ctr", 2),
        HOLDS,
    ),
    ("no keys", Step::Run("encrypt text", 2), HOLDS),
    (
        "no words of the program over streams",
        Step::Run("open 0", 2),
        HOLDS,
    ),
];

fn walk(alloc: Global, verdict: &mut Verdict, name: &'static str, rows: &[Row]) {
    verdict.walk_made(alloc, World::new(alloc), name, rows);
}

// A function names one table: what it costs grows with the square of its literals.
fn new_files(alloc: Global, verdict: &mut Verdict) {
    walk(alloc, verdict, "a world for new files", NEW);
}

fn formats(alloc: Global, verdict: &mut Verdict) {
    walk(alloc, verdict, "a world for formats", CONVERTED);
}

fn new_keys(alloc: Global, verdict: &mut Verdict) {
    walk(alloc, verdict, "a world for new keys", GROWN);
}

fn other_keys(alloc: Global, verdict: &mut Verdict) {
    walk(alloc, verdict, "a world for other keys", OTHER_PRIMITIVE);
}

fn edits(alloc: Global, verdict: &mut Verdict) {
    walk(alloc, verdict, "a world for edits", EDITED);
}

fn errors(alloc: Global, verdict: &mut Verdict) {
    walk(alloc, verdict, "a world for errors", UNREAD);
}

fn whole_streams(alloc: Global, verdict: &mut Verdict) {
    walk(alloc, verdict, "a world for streams", STREAMS);
}

fn wrong_streams(alloc: Global, verdict: &mut Verdict) {
    walk(alloc, verdict, "a world for wrong streams", OPENED);
}

fn outputs(alloc: Global, verdict: &mut Verdict) {
    walk(alloc, verdict, "a world for outputs", PROTECTED);
}

fn parts(alloc: Global, verdict: &mut Verdict) {
    walk(
        alloc,
        verdict,
        "a world for tokens and ranges",
        TOKENS_AND_RANGES,
    );
}

fn refused_parts(alloc: Global, verdict: &mut Verdict) {
    walk(alloc, verdict, "a world for refused parts", REFUSED_PARTS);
}

fn masters(alloc: Global, verdict: &mut Verdict) {
    walk(alloc, verdict, "a world for masters", MASTERS);
}

fn texts(alloc: Global, verdict: &mut Verdict) {
    walk(alloc, verdict, "a world for texts", TEXTS);
}

/// Takes what the rows over files of keys answer.
pub fn files_of_keys(alloc: Global, verdict: &mut Verdict) {
    new_files(alloc, verdict);
    formats(alloc, verdict);
    new_keys(alloc, verdict);
    other_keys(alloc, verdict);
    edits(alloc, verdict);
    errors(alloc, verdict);
}

/// The same of streams.
pub fn streams(alloc: Global, verdict: &mut Verdict) {
    whole_streams(alloc, verdict);
    wrong_streams(alloc, verdict);
    outputs(alloc, verdict);
    parts(alloc, verdict);
    refused_parts(alloc, verdict);
}

/// The same of master keysets and of texts.
pub fn others(alloc: Global, verdict: &mut Verdict) {
    masters(alloc, verdict);
    texts(alloc, verdict);
}
