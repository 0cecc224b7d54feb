//! The wire format of messages, for contracts to cite. One step of a reader is code here: which message a further body
//! is read into.
#![tactic(auto)]

ghost use Rattle.std.specs.Prelude.{◌≡◌, None};
ghost use Rattle.wire_format.specs.Values.{or_start};

/// Takes the message into which a further body of its field is merged (protobuf, "Encoding", on the last one
/// of a field). It is the field's message, or the empty one. The field then has none.
pub fn take_or_start<M: Drop>(slot: &mut Option<M>, start: M) -> M
    ensures value { result ≡ or_start start slot.old }
    ensures taken { slot.new ≡ None }
{
    match slot.take() {
        Some(message) => message,
        None => start,
    }
}
