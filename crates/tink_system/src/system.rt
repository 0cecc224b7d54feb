//! What the commands need of the system.

ghost use Rattle.std.specs.Prelude.{◌≡◌, ◌≤◌, ℕ, List, true, false, Some, None, IfOk, IfErr, OnOk, OnErr, length, option_map};
ghost use Rattle.tink_io.specs.Faults.{Rose};
ghost use Rattle.tink_system.specs.States.{HasBegun, HasContent, IsDrawnFrom, IsOfCause, IsSettled, IsThere, IsUnbegun, IsUnopened, IsUnread, SystemState, known_content};
ghost use Rattle.tink_system.specs.Statuses.{trouble_status};

use crate::trouble::Trouble;
use std::alloc::Global;
use tink_io::{Draws, Place, Sink, Source};
use tink_range::ReadAt;

/// How a draft becomes a file.
#[derive(Clone, Copy, Debug, PartialEq, Eq)]
pub enum How {
    /// If a file has the name it is replaced.
    Replace,
    /// No file may have the name.
    Fresh,
    /// A file has the name and is replaced. Until the draft is shown or taken away there is no other draft of this kind for
    /// the file.
    Change,
}

/// A standard stream.
#[derive(Clone, Copy, Debug, PartialEq, Eq)]
pub enum End {
    Input,
    Output,
    Error,
}

/// Files by their names, drafts that become files, standard input, random bytes and the terminal. A name is any bytes. Links
/// are followed.
pub trait System {
    /// A file, or standard input, that is read from its beginning.
    type Input: Source + Drop;

    /// A file that is read in any place.
    type Object: ReadAt + Drop;

    /// A pipe or a device that is written.
    type Stream: Sink + Drop;

    /// A draft, which becomes a file or is taken away.
    type Draft: Place + Drop;

    // What the commands need of it, if the bytes are known.
    ghost state: { Self → SystemState };

    // How often it has refused. The count never falls, and stays at the last value of u64.
    ghost faults: { Self → ℕ };

    /// Reads the whole of a file, or of standard input if there is no name: at most `most` bytes.
    ///
    /// # Errors
    /// Status 11 if no file has the name, it is a folder, or the system refuses; 13 if it has more bytes; 10.
    fn read_whole<'w>(
        &mut self,
        alloc: Global,
        name: Option<&'w [u8]>,
        most: u64,
    ) -> Result<Vec<u8>, Trouble<'w>>
        ensures content { IfOk result (λ bytes. HasContent (state self.old) (option_map (λ n. n.now) name.entry) bytes.items) }
        ensures bound { IfOk result (λ bytes. length bytes.items ≤ most) }
        ensures refused { IfErr result (IsUnread (state self.old) (option_map (λ n. n.now) name.entry) most
            (faults self.old) (faults self.new)) }
        ensures state { state self.new ≡ state self.old }
        ensures later { faults self.old ≤ faults self.new };

    /// Opens a file, or standard input if there is no name. If it may, it shows the progress on a terminal.
    ///
    /// # Errors
    /// Status 11 if no file has the name, or the system refuses; 10.
    fn open<'w>(
        &mut self,
        name: Option<&'w [u8]>,
        is_quiet: bool,
    ) -> Result<Self::Input, Trouble<'w>>
        ensures left { IfOk result (λ i. Self.Input.left i ≡ known_content (state self.old) (option_map (λ n. n.now) name.entry)) }
        ensures there { OnOk result (IsThere (state self.old) (option_map (λ n. n.now) name.entry)) }
        ensures refused { IfErr result (IsUnopened (state self.old) (option_map (λ n. n.now) name.entry)
            (faults self.old) (faults self.new)) }
        ensures state { state self.new ≡ state self.old }
        ensures later { faults self.old ≤ faults self.new };

    /// Opens a file that is read in any place. If it may, it shows the progress on a terminal.
    ///
    /// # Errors
    /// Status 11 if no file has the name, it is no regular file, or the system refuses; 10.
    fn open_at<'w>(
        &mut self,
        name: &'w [u8],
        total: u64,
        is_quiet: bool,
    ) -> Result<Self::Object, Trouble<'w>>
        ensures bytes { IfOk result (λ a. Self.Object.bytes a ≡ known_content (state self.old) (Some name.now)) }
        ensures there { OnOk result (IsThere (state self.old) (Some name.now)) }
        ensures refused { IfErr result (IsUnopened (state self.old) (Some name.now) (faults self.old) (faults self.new)) }
        ensures state { state self.new ≡ state self.old }
        ensures later { faults self.old ≤ faults self.new };

    /// Opens a pipe or a device, which is written as it comes.
    ///
    /// # Errors
    /// Status 12 if it may not be written; 10.
    fn open_stream<'w>(&mut self, name: &'w [u8]) -> Result<Self::Stream, Trouble<'w>>
        ensures refused { IfErr result (IsOfCause 12 (Rose (faults self.old) (faults self.new))) }
        ensures state { state self.new ≡ state self.old }
        ensures later { faults self.old ≤ faults self.new };

    /// Begins a draft of no bytes for a name.
    ///
    /// # Errors
    /// Status 12 if the name is of a folder, a pipe or a device. Status 12 if a file has it and none is to be
    /// replaced, or none has it and one is to be changed. Status 12 if the file may not be written, another change of
    /// it is at work, or the system refuses. 10. Nothing is left then.
    fn begin<'w>(&mut self, name: &'w [u8], how: How) -> Result<Self::Draft, Trouble<'w>>
        ensures begun { IfOk result (λ d. HasBegun (state self.old) name.now how (Self.Draft.has_draft d)
            (Self.Draft.replaces d) (Self.Draft.got d) (Self.Draft.shown d)) }
        ensures unfailed { IfOk result (λ d. (state self.old).is_known ≡ true → Self.Draft.faults d ≡ 0) }
        ensures refused { IfErr result (IsUnbegun (state self.old) name.now how (faults self.old) (faults self.new)) }
        ensures state { state self.new ≡ state self.old }
        ensures later { faults self.old ≤ faults self.new };

    /// Ends a draft that was shown or taken away: the file under its name is what the draft shows there. If the bytes are known
    /// and the draft has failed, the count of faults rises.
    ///
    /// # Errors
    /// Status 10.
    fn settle(
        &mut self,
        alloc: Global,
        name: &[u8],
        draft: Self::Draft,
    ) -> Result<(), Trouble<'static>>
        requires { Self.Draft.has_draft draft ≡ false }
        ensures settled { OnOk result (IsSettled (state self.old) (state self.new) name.now (Self.Draft.shown draft)) }
        ensures refused { IfErr result (λ t. trouble_status t ≡ 10) }
        ensures kept { OnErr result (state self.new ≡ state self.old) }
        ensures counted { (state self.old).is_known ≡ true → (Self.Draft.faults draft ≡ 0 → ⊥)
            → Rose (faults self.old) (faults self.new) }
        ensures later { faults self.old ≤ faults self.new };

    /// The next n random bytes of the system.
    ///
    /// # Errors
    /// Status 35 if the system gives none; 10.
    fn draws(&mut self, alloc: Global, n: usize) -> Result<Draws, Trouble<'static>>
        ensures drawn { IfOk result (λ d. IsDrawnFrom (state self.old) (state self.new) n d) }
        ensures refused { IfErr result (IsOfCause 35 (Rose (faults self.old) (faults self.new))) }
        ensures kept { OnErr result (state self.new ≡ state self.old) }
        ensures later { faults self.old ≤ faults self.new };

    /// Whether two names are of one file.
    fn are_one(&mut self, name: &[u8], other: &[u8]) -> bool
        ensures still { self.new ≡ self.old }
        ensures known { (state self.old).is_known ≡ true → result ≡ (state self.old).are_one name.now other.now };

    /// Whether a name is of a pipe or a device.
    fn is_stream(&mut self, name: &[u8]) -> bool
        ensures still { self.new ≡ self.old }
        ensures known { (state self.old).is_known ≡ true → result ≡ (state self.old).is_stream name.now };

    /// Whether a standard stream is a terminal. If the bytes are known it is none.
    fn is_terminal(&mut self, end: End) -> bool
        ensures still { self.new ≡ self.old }
        ensures known { (state self.old).is_known ≡ true → result ≡ false };

    /// Whether a name leads to a terminal. If the bytes are known it leads to none.
    fn leads_to_terminal(&mut self, name: &[u8]) -> bool
        ensures still { self.new ≡ self.old }
        ensures known { (state self.old).is_known ≡ true → result ≡ false };

    /// Why the system refused the last call on a draft that failed, in a few words, as `no space left`.
    fn reason_of_draft(&self, draft: &Self::Draft) -> &'static str;

    /// The same of an input.
    fn reason_of_input(&self, input: &Self::Input) -> &'static str;

    /// The same of an object.
    fn reason_of_object(&self, object: &Self::Object) -> &'static str;

    /// The same of a stream.
    fn reason_of_stream(&self, stream: &Self::Stream) -> &'static str;

    /// Clears the line on which the progress of reading is shown.
    fn end_input(&self, input: &Self::Input);

    /// The same of an object.
    fn end_object(&self, object: &Self::Object);

    // Two names of one file have the same content.
    ghost one_content: { (p : Self) (a b : List ℕ) → (state p).are_one a b ≡ true → (state p).file a ≡ (state p).file b };

    // Reading known bytes does not fail.
    ghost input_sure: { (i j : Self.Input) → Self.Input.same i j → (Self.Input.left i ≡ None → ⊥)
        → Rose (Self.Input.faults i) (Self.Input.faults j) → ⊥ };

    ghost object_sure: { (a b : Self.Object) → Self.Object.same a b → (Self.Object.bytes a ≡ None → ⊥)
        → Rose (Self.Object.faults a) (Self.Object.faults b) → ⊥ };
}
