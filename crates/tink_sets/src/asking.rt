//! The entries of a set, asked one by one until one accepts.

ghost use Rattle.std.specs.Prelude.{◌≡◌, ℕ, List, Result, IfOk, IfErr};
ghost use Rattle.tink_io.specs.declared.error.Kind.{Kind};
ghost use Rattle.tink_io.specs.declared.error.Kind.TheVariants.{OutOfMemory};
ghost use Rattle.tink_io.specs.Answering.{Answers};
ghost use Rattle.tink_primitives.specs.Meaning.{IsTold};
ghost use Rattle.tink_sets.specs.declared.entry.TypedEntry.{TypedEntry};
ghost use Rattle.tink_set_groups.specs.Groups.{group_of};
ghost use Rattle.tink_sets.specs.Accepting.{accepted, accepted_behind_prefix, first_value, prefixed_value};

use crate::cryptofmt::NON_RAW_PREFIX_SIZE;
use crate::entry::TypedEntry;
use crate::typed_set::TypedPrimitiveSet;
use std::alloc::Global;
use tink_io::{Kind, TinkError};

/// A question to each entry of a set about an input without its prefix. Examples: whether a MAC is accepted,
/// which text a ciphertext opens to.
pub trait Question<P> {
    /// What an entry gives that accepts.
    type Answer: Drop;

    // The answer of an entry on an input.
    ghost answers: { Self → TypedEntry P → List ℕ → Result Self.Answer Kind };

    /// The answer of `entry` on `input`.
    ///
    /// # Errors
    /// What the meaning `answers` gives for the entry and the input. `OutOfMemory`.
    fn ask(
        &self,
        alloc: Global,
        entry: &TypedEntry<P>,
        input: &[u8],
    ) -> Result<Self::Answer, TinkError>
        ensures answer { Answers result (answers self.now entry.now input.now) };

    // Each answer is given.
    ghost answers_told: { (q : Self) (entry : TypedEntry P) (input : List ℕ) → IsTold (answers q entry input) };
}

/// The answer of the first entry that accepts. If the input is longer than five bytes, the entries of its first five
/// bytes try the rest, in their order. Then the entries without a prefix try the whole input.
///
/// # Errors
/// `none` exactly where no entry accepts; an entry's `OutOfMemory` ends the call as such.
pub fn ask_entries<P, Q: Question<P>>(
    alloc: Global,
    set: &TypedPrimitiveSet<P>,
    question: &Q,
    input: &[u8],
    none: Kind,
) -> Result<Q::Answer, TinkError>
    ensures answer { Answers result (accepted (Q.answers question.now) (group_of set.now.entries) none input.now) }
{
    if let Some(answer) = ask_prefixed(alloc, set, question, input)? {
        return Ok(answer);
    }
    match first_answer(alloc, group(set, &[]), question, input)? {
        Some(answer) => Ok(answer),
        None => Err(TinkError::new(none)),
    }
}

/// The answer of the first entry that accepts, as `ask_entries` gives it, for an input of more than five bytes.
///
/// # Errors
/// `none` exactly where the input has five bytes or fewer, or no entry accepts; an entry's `OutOfMemory` ends the call
/// as such.
pub fn ask_behind_prefix<P, Q: Question<P>>(
    alloc: Global,
    set: &TypedPrimitiveSet<P>,
    question: &Q,
    input: &[u8],
    none: Kind,
) -> Result<Q::Answer, TinkError>
    ensures answer { Answers result
        (accepted_behind_prefix (Q.answers question.now) (group_of set.now.entries) none input.now) }
{
    if input.len() > NON_RAW_PREFIX_SIZE {
        return ask_entries(alloc, set, question, input, none);
    }
    Err(TinkError::new(none))
}

// The entries of a prefix.
fn group<'a, P>(set: &'a TypedPrimitiveSet<P>, prefix: &[u8]) -> &'a [TypedEntry<P>]
    ensures value { result.now ≡ group_of set.now.entries prefix.now }
{
    match set.entries_for_prefix(prefix) {
        Some(entries) => entries,
        None => &[],
    }
}

// The answer of the entries of the input's prefix on the rest, where the input has a rest.
fn ask_prefixed<P, Q: Question<P>>(
    alloc: Global,
    set: &TypedPrimitiveSet<P>,
    question: &Q,
    input: &[u8],
) -> Result<Option<Q::Answer>, TinkError>
    ensures value { IfOk result (λ v.
        v ≡ prefixed_value (Q.answers question.now) (group_of set.now.entries) input.now) }
    ensures cause { IfErr result (λ e. e.kind ≡ OutOfMemory) }
{
    if input.len() <= NON_RAW_PREFIX_SIZE {
        return Ok(None);
    }
    let entries = group(set, &input[..NON_RAW_PREFIX_SIZE]);
    first_answer(alloc, entries, question, &input[NON_RAW_PREFIX_SIZE..])
}

// The answer of the first of a list that accepts.
fn first_answer<P, Q: Question<P>>(
    alloc: Global,
    entries: &[TypedEntry<P>],
    question: &Q,
    input: &[u8],
) -> Result<Option<Q::Answer>, TinkError>
    ensures value { IfOk result (λ v. v ≡ first_value (λ e. Q.answers question.now e input.now) entries.now) }
    ensures cause { IfErr result (λ e. e.kind ≡ OutOfMemory) }
{
    for entry in entries {
        match question.ask(alloc, entry, input) {
            Ok(answer) => return Ok(Some(answer)),
            Err(e) => {
                if e.kind == Kind::OutOfMemory {
                    return Err(e);
                }
            }
        }
    }
    Ok(None)
}
