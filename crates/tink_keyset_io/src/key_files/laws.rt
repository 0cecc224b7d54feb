//! A law of files of keys. The function does nothing: its contract is the law.

ghost use Rattle.std.specs.Prelude.{◌≡◌, List, Ok, ℕ};
ghost use Rattle.tink_json.specs.ReadAgain.{IsKeyset};
ghost use Rattle.tink_keyset_io.specs.Files.{filed, wire_of};
ghost use Rattle.tink_keyset_io.specs.declared.key_files.formats.Format.TheVariants.{Json};
ghost use Rattle.tink_proto.specs.Messages.{keyset};
ghost use Rattle.tink_proto.specs.declared.messages.keys.Keyset.{Keyset};
ghost use Rattle.wire_format.specs.Message.{encoded};

/// If the URLs of a keyset's keys are UTF-8, a file in JSON that was made of it is read as the same keyset.
pub fn law_json_file_read_again()
    ensures { (ks : Keyset) → (file : List ℕ) → IsKeyset ks → filed Json ks ≡ Ok file → wire_of file ≡ Ok (encoded keyset.write ks) }
{}
