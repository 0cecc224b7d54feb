//! Laws of the keyset that a command is given. Each function does nothing: its contract is the law.

ghost use Rattle.std.specs.Prelude.{◌≡◌, List, Ok, ℕ};
ghost use Rattle.tink_cli_jobs.specs.Elsewhere.{HoldTheSame, IsUnwrappedInto};
ghost use Rattle.tink_cli_jobs.specs.Loading.{keyset_of};
ghost use Rattle.tink_cli_jobs.specs.declared.keys.KeyWords.{KeyWords};
ghost use Rattle.tink_system.specs.States.{SystemState};

use tink_keyset_io::key_files::law_json_file_read_again;

/// If two names hold the same bytes, they give the same keyset, or the same error. So `-k -` gives what the file gives whose
/// bytes are on standard input.
pub fn law_keys_from_standard_input()
    ensures { (s : SystemState) (one other : KeyWords) → HoldTheSame s one other → keyset_of s one ≡ keyset_of s other }
{}

/// The keyset of a wrapped file under its master is that of the file which `unwrap` makes of it in JSON. The URLs of its keys
/// are UTF-8.
pub fn law_master_gives_the_unwrapped()
    ensures { (s : SystemState) (wrapped plain : KeyWords) (keyset : List ℕ)
        → IsUnwrappedInto s wrapped plain → keyset_of s wrapped ≡ Ok keyset → keyset_of s plain ≡ Ok keyset }
{
    law_json_file_read_again();
}
