//! The help of each command.

ghost use Rattle.std.specs.Prelude.{◌≡◌};
ghost use Rattle.tink_cli_words.specs.Help.{help_of};

use crate::Action;

const ALL: &str = "\
tink: keys in files, and files encrypted under them

Keys
  new TEMPLATE -o KEYS         make a file of keys with one new key
  templates                    list the templates of keys
  keys KEYS                    list the keys of a file
  add KEYS TEMPLATE            add a key that is not used to encrypt yet
  rotate KEYS TEMPLATE         add a key that encrypts from now on
  promote KEYS ID              let a key encrypt from now on
  enable, disable KEYS ID      use a key again, or not for now
  destroy, delete KEYS ID      take a key away for good
  convert KEYS -o NEWKEYS      write a file of keys in another format
  wrap, unwrap -k MASTER       encrypt a file of keys, and decrypt it

Files
  encrypt, decrypt -k KEYS     encrypt a file, and decrypt it
  check -k KEYS                read an encrypted file to its end, write nothing
  info -k KEYS IN              print the key and the length of an encrypted file
  rewrap -k KEYS -t NEWKEYS    encrypt an encrypted file under other keys
  range -k KEYS IN             decrypt a part of a file
  sign, verify -k KEYS         make a signed token, and give its payload

  help [COMMAND], version      print the usage of a command, or the version

From nothing to a restored file:
  tink new AES256_GCM_HKDF_1MB -o keys.json
  tink encrypt -k keys.json -o notes.tink notes.txt
  tink decrypt -k keys.json -o notes.again notes.tink

An option with a value is written `--aad TEXT` or `--aad=TEXT`. Behind `--` no
word is an option. Each command takes -q, --quiet and -h, --help. A file `-` is
standard input, and behind -o standard output. If a command changes a file of
keys, `-` is the name of a file.

`tink seal`, `open`, `keygen` and `large` work on the standard streams, with
keys in hexadecimal. So do `rotate` with three words behind it, and `rewrap`,
`sign`, `verify` and `range` without an option.
";

const NEW: &str = "\
tink new TEMPLATE -o KEYS [--format json|binary] [--prefix PREFIX]

Makes a file with one new key. The key comes from the system's random bytes.
Only you may read the file. If a file KEYS exists, it stays as it is.

Keep a copy of the file: without it nothing can be decrypted.

  -o, --output KEYS   the file to be made; `-` is standard output
  --format FORMAT     json or binary; json if it is left out
  --prefix PREFIX     the bytes that the key puts before each output: tink, raw,
                      legacy or crunchy; if it is left out, those of TEMPLATE

`tink templates` lists the templates. Encrypt files by AES256_GCM_HKDF_1MB, sign
by HMAC_SHA256_128BITTAG, and wrap files of keys by AES256_GCM.

  tink new AES256_GCM_HKDF_1MB -o keys.json
";

const ADD: &str = "\
tink add KEYS TEMPLATE

Adds a new key to the file KEYS. The primary key stays: the new key decrypts,
and encrypts nothing before it is promoted. Give the file to all who decrypt,
and then promote the key.

  tink add keys.json AES256_GCM_HKDF_1MB
  tink keys keys.json
  tink promote keys.json ID
";

const KEYS: &str = "\
tink keys [--json] KEYS

Prints one line for each key: its id, its status, its prefix type, its type, and
`primary` for the primary key. Key material is never printed. If KEYS is `-`, it
is standard input.

  --json   print JSON

  tink keys keys.json
";

const TEMPLATES: &str = "\
tink templates

Prints the name of each template of keys, one a line.
";

const ROTATE: &str = "\
tink rotate [--any] KEYS TEMPLATE

Adds a new key to the file KEYS, and makes it the primary key: it encrypts from
now on. What the other keys encrypted is still decrypted.

  --any   take a template of another primitive than that of the other keys

  tink rotate keys.json AES256_GCM_HKDF_1MB
";

const EDIT: &str = "\
tink promote KEYS ID   the key becomes the primary key: it encrypts from now on
tink enable KEYS ID    the key is used again
tink disable KEYS ID   the key is not used for now
tink destroy KEYS ID   the key's bytes are erased, and its id stays
tink delete KEYS ID    the key is taken out of the file

`tink keys KEYS` prints the ids. An ID is a decimal number of 32 bits.

While a key is disabled, what it encrypted is not decrypted. Once it is
destroyed or deleted, what it encrypted is lost: move it to other keys by `tink
rewrap` before. The primary key is only promoted or enabled: promote another key
first.
";

const CONVERT: &str = "\
tink convert KEYS -o NEWKEYS --format json|binary

Writes the keys of the file KEYS to a new file in this format. Only you may read
the new file. KEYS stays as it is. If a file NEWKEYS exists, it stays too.

  -o, --output NEWKEYS   the file to be made
  --format FORMAT        json or binary

  tink convert keys.json -o keys.bin --format binary
";

const STREAM: &str = "\
tink encrypt -k KEYS [OPTION].. [IN]
tink decrypt -k KEYS [OPTION].. [IN]

Encrypts IN by the primary key of KEYS, and decrypts it by the key of KEYS that
encrypted it. IN and OUT are files. If they are left out or `-`, they are
standard input and output.

A file OUT appears when all of it is written, and not before. A file that was
there is replaced then.

  -k, --keys KEYS     the file of keys
  --aad TEXT          the associated data. It is no secret and is not written:
                      give the same to decrypt
  --master MASTER     KEYS was wrapped under the file of keys MASTER
  --master-aad TEXT   the associated data by which KEYS was wrapped
  -o, --output OUT    the file to be written; else standard output
  --no-clobber        keep a file OUT that exists, and refuse
  --force             write ciphertext to a terminal
  -q, --quiet         do not show the progress

  tink encrypt -k keys.json -o notes.tink notes.txt
  tar c work | tink encrypt -k keys.json -o work.tink
  tink decrypt -k keys.json work.tink | tar x
";

const CHECK: &str = "\
tink check -k KEYS [OPTION].. [IN]

Decrypts IN to its end, and writes nothing. The status is 0 if `tink decrypt`
with the same words would succeed. If IN is left out or `-`, it is standard
input.

  -k, --keys KEYS     the file of keys
  --aad TEXT          the associated data. It is no secret and is not written:
                      give the same to decrypt
  --master MASTER     KEYS was wrapped under the file of keys MASTER
  --master-aad TEXT   the associated data by which KEYS was wrapped
  -q, --quiet         do not show the progress

  tink check -k keys.json notes.tink
";

const INFO: &str = "\
tink info -k KEYS [OPTION].. IN

Prints which key of KEYS encrypted the file IN, the number of its segments and
the length of its plaintext in bytes. It opens the first and the last segment
alone: `tink check` opens all.

  -k, --keys KEYS     the file of keys
  --aad TEXT          the associated data. It is no secret and is not written:
                      give the same to decrypt
  --master MASTER     KEYS was wrapped under the file of keys MASTER
  --master-aad TEXT   the associated data by which KEYS was wrapped
  -q, --quiet         do not show the progress

  tink info -k keys.json notes.tink
";

const REWRAP: &str = "\
tink rewrap -k KEYS -t NEWKEYS [OPTION].. [IN]

Decrypts IN by the key of KEYS that encrypted it, and encrypts it by the primary
key of NEWKEYS, in one pass. The plaintext is written nowhere. IN and OUT are as
those of `tink encrypt`.

  -k, --keys KEYS     the file of keys of IN
  --aad TEXT          the associated data of IN
  --master MASTER     KEYS and NEWKEYS were both wrapped under the file MASTER
  --master-aad TEXT   the associated data by which both were wrapped
  -t, --to NEWKEYS    the file of keys of OUT
  --to-aad TEXT       the associated data of OUT, which has none without it
  -o, --output OUT    the file to be written; else standard output
  --no-clobber        keep a file OUT that exists, and refuse
  --force             write ciphertext to a terminal
  -q, --quiet         do not show the progress

  tink rewrap -k old.json -t new.json -o moved.tink notes.tink
";

const RANGE: &str = "\
tink range -k KEYS --start N --length N [OPTION].. IN

Decrypts a part of the file IN. It reads and opens the segments of the part, and
the last one. If one of them was changed or cut, it is refused.

  -k, --keys KEYS     the file of keys
  --aad TEXT          the associated data. It is no secret and is not written:
                      give the same to decrypt
  --master MASTER     KEYS was wrapped under the file of keys MASTER
  --master-aad TEXT   the associated data by which KEYS was wrapped
  --start N           the first byte of the part, counted from 0
  --length N          the bytes of the part; fewer if the plaintext ends before
  -o, --output OUT    the file to be written; else standard output
  --no-clobber        keep a file OUT that exists, and refuse
  --force             write ciphertext to a terminal
  -q, --quiet         do not show the progress

  tink range -k keys.json --start 1000000 --length 512 notes.tink
";

const TOKEN: &str = "\
tink sign -k KEYS [OPTION].. [IN]
tink verify -k KEYS [OPTION].. [IN]

Makes a token of IN by the primary key of KEYS, and gives the payload of a token
that a key of KEYS accepts. Who has the token can read its payload. Who has the
keys sees whether it was changed. A token has 16 MiB at most, and its payload
some 12 MiB. IN and OUT are as those of `tink encrypt`.

  -k, --keys KEYS     the file of keys, which are MACs
  --master MASTER     KEYS was wrapped under the file of keys MASTER
  --master-aad TEXT   the associated data by which KEYS was wrapped
  -o, --output OUT    the file to be written; else standard output
  --no-clobber        keep a file OUT that exists, and refuse
  -q, --quiet         do not show the progress

  tink new HMAC_SHA256_128BITTAG -o macs.json
  tink sign -k macs.json -o notes.token notes.txt
  tink verify -k macs.json notes.token
";

const WRAP: &str = "\
tink wrap -k MASTER -o WRAPPED [--aad TEXT] [--format json|binary] KEYS
tink unwrap -k MASTER -o KEYS [--aad TEXT] [--format json|binary] WRAPPED

Encrypts the file KEYS by the primary key of MASTER, and decrypts it by the key
of MASTER that encrypted it. MASTER is a file of keys that are AEADs. WRAPPED
shows the ids, states and types of the keys, and no key material. Only you may
read the file that is made. If a file of its name exists, it stays as it is.

  -k, --keys MASTER   the file of keys that encrypts or decrypts
  -o, --output FILE   the file to be made
  --aad TEXT          the associated data. It is no secret and is not written:
                      give the same to unwrap
  --format FORMAT     json or binary; json if it is left out

`tink encrypt --master MASTER -k WRAPPED` uses the keys without unwrapping them
to a file.

  tink new AES256_GCM -o master.json
  tink wrap -k master.json -o keys.wrapped keys.json
  tink unwrap -k master.json -o keys.again keys.wrapped
";

const HELP: &str = "\
tink help [COMMAND]
tink version

Prints the usage of a command, or of all, and the version of the program.
";

/// The help of a command, or the list of all commands. No line has more than 80 columns.
pub fn help_text(action: Option<Action>) -> &'static str
    ensures { result.now ≡ help_of action }
{
    match action {
        Some(Action::New) => NEW,
        Some(Action::Add) => ADD,
        Some(Action::Keys) => KEYS,
        Some(Action::Templates) => TEMPLATES,
        Some(Action::Rotate) => ROTATE,
        Some(
            Action::Promote | Action::Enable | Action::Disable | Action::Destroy | Action::Delete,
        ) => EDIT,
        Some(Action::Convert) => CONVERT,
        Some(Action::Encrypt | Action::Decrypt) => STREAM,
        Some(Action::Check) => CHECK,
        Some(Action::Info) => INFO,
        Some(Action::Rewrap) => REWRAP,
        Some(Action::Range) => RANGE,
        Some(Action::Sign | Action::Verify) => TOKEN,
        Some(Action::Wrap | Action::Unwrap) => WRAP,
        Some(Action::Help | Action::Version) => HELP,
        None => ALL,
    }
}
