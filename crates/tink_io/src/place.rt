//! Where a file is to appear.

ghost use Rattle.std.specs.Prelude.{◌≡◌, ◌≤◌, ℕ, List, Bool, true, false, OnOk, OnErr};
ghost use Rattle.std.specs.declared.option.Option.{Option};
ghost use Rattle.tink_io.specs.Faults.{CountsFault};
ghost use Rattle.tink_io.specs.Places.{IsShown};

use crate::{Failed, Sink};

/// Where one file is to appear under a name. Writes go to a draft beside it. The draft is then shown under the name,
/// or discarded.
pub trait Place: Sink {
    // What stands under the name, where it is given: no file, or the bytes of one.
    ghost shown: { Self → Option (Option (List ℕ)) };

    // Whether the draft is there.
    ghost has_draft: { Self → Bool };

    // Whether a file that stands under the name is replaced.
    ghost replaces: { Self → Bool };

    // What showing the draft, or taking it away, leaves as it is: all but what is shown and the draft.
    ghost rest: { Self → Self → Type 0 };

    /// Shows the draft under the name, whole and at once, so that no draft is left.
    ///
    /// # Errors
    /// `Failed` if it could not be shown, as when a file has the name and none is to be replaced. It leaves what was
    /// shown, and raises the count of faults.
    fn show(&mut self) -> Result<(), Failed>
        requires { has_draft self.old ≡ true }
        ensures shown { OnOk result
            (IsShown (Self.got self.old) (replaces self.old) (shown self.old) (shown self.new)) }
        ensures gone { OnOk result (has_draft self.new ≡ false) }
        ensures err { OnErr result (shown self.new ≡ shown self.old) }
        ensures cause { CountsFault (Self.faults self.old) (Self.faults self.new) result }
        ensures rest { rest self.old self.new };

    /// Takes the draft away. The file under the name stays.
    fn discard(&mut self)
        ensures gone { has_draft self.new ≡ false }
        ensures shown { shown self.new ≡ shown self.old }
        ensures faults { Self.faults self.old ≤ Self.faults self.new }
        ensures rest { rest self.old self.new };

    // Writing changes nothing of what is shown.
    ghost same_shown: { (p q : Self) → Self.same p q → shown q ≡ shown p };

    ghost same_draft: { (p q : Self) → Self.same p q → has_draft q ≡ has_draft p };

    ghost same_replaces: { (p q : Self) → Self.same p q → replaces q ≡ replaces p };

    ghost rest_refl: { (p : Self) → rest p p };

    ghost rest_trans: { (p q r : Self) → rest p q → rest q r → rest p r };

    // Nor does writing change the rest.
    ghost same_rest: { (p q : Self) → Self.same p q → rest p q };
}
