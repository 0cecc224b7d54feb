//! What follows for a stream that came in pieces.

ghost use Rattle.std.specs.Prelude.{◌≡◌, ℕ, List, Ok};
ghost use Rattle.loading_model.specs.Loading.{Loaded, opening_keys};
ghost use Rattle.tink_c_bytes.specs.Statuses.{ok};
ghost use Rattle.tink_keyset_io.specs.Files.{wire_of};
ghost use Rattle.tink_run.specs.AllKeys.{load};
ghost use Rattle.tink_run.specs.declared.report.Command.TheVariants.{Open};
ghost use Rattle.tink_c_streams.specs.Readers.{EndMeans, IsReading};
ghost use Rattle.tink_c_streams.specs.Streams.{Runs};
ghost use Rattle.tink_c_streams.specs.declared.readers.PieceReader.{PieceReader};

/// A reader began under the keys of a file, and all that came to it is one piece after another. If `end` answers 0, what
/// the reads gave, joined, is exactly what `run_whole` gives of these bytes: the whole text of a stream of a key of the
/// file.
pub fn law_pieces_give_the_text()
    ensures whole { (file aad random came given wire : List ℕ) (loaded : Loaded) (old new : PieceReader)
        → wire_of file ≡ Ok wire → load wire ≡ Ok loaded → IsReading (opening_keys aad loaded) came given old
        → EndMeans old new ok → Runs Open file aad random came given }
    // what `run_whole` gives of these bytes is this text alone
    ensures one { (file aad random others came given text : List ℕ) → Runs Open file aad random came given
        → Runs Open file aad others came text → text ≡ given }
{}
