//! What holds of the grammar and of each message's table. These functions do nothing: their contracts are the laws.

ghost use Rattle.std.specs.Prelude.{◌↔◌, ◌≡◌, ℕ, IsTrue, List, Some};
ghost use Rattle.wire_format.specs.Grammar.{Field as Spelled, AreFields};
ghost use Rattle.wire_format.specs.Reading.{fields_of};
ghost use Rattle.wire_format.specs.Message.{decoded, encoded};
ghost use Rattle.wire_format.specs.Columns.{IsRising};

use crate::wire::Message;

/// The bytes of a message are read as this message.
pub fn law_read_again<M: Message>()
    ensures { (m : M) → IsTrue ((M.table).fits m) → decoded (M.table).read (encoded (M.table).write m) ≡ Some m }
{}

/// A message is written in rising numbers.
pub fn law_rising<M: Message>()
    ensures { (m : M) → IsRising (M.table).low ((M.table).write m) }
{}

/// Bytes spell at most one list of fields, which is the one that is read.
pub fn law_fields()
    ensures { (bytes : List ℕ) (fs : List Spelled) → AreFields bytes fs ↔ (fields_of bytes ≡ Some fs) }
{}
