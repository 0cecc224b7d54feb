//! What holds of the text of a keyset. The function does nothing: its contract is the law.

ghost use Rattle.std.specs.Prelude.{◌≡◌, Some};
ghost use Rattle.tink_json.specs.Messages.{keyset, message_of};
ghost use Rattle.tink_json.specs.ReadAgain.{IsKeyset};
ghost use Rattle.tink_json.specs.Written.{keyset_value, pretty_text};
ghost use Rattle.tink_proto.specs.declared.messages.keys.Keyset.{Keyset};

/// A keyset is read from the text that it is written as, where its URLs are UTF-8. All else that `IsKeyset` asks holds
/// of each keyset in memory: a byte is one, and a number has 32 bits.
pub fn law_keyset_read_again()
    ensures { (ks : Keyset) → IsKeyset ks → message_of keyset (pretty_text (keyset_value ks)) ≡ Some ks }
{}
