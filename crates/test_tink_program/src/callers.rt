//! A caller of `program`, whose clause follows from that of the call. The rows go through it.

ghost use Rattle.std.specs.Prelude.{Some};
ghost use Rattle.tink_program.specs.Program.{Promised};
ghost use Rattle.tink_io.specs.Outside.{Outside};
ghost use Rattle.tink_cli_words.specs.Forms.{words_of};

use std::alloc::Global;
use tink_io::{MemSink, MemSource, SureSink};
use tink_program::program::program;

/// Does what the words say over memory, and answers the status. What it promises is promised of what the sink got.
pub fn in_memory(
    alloc: Global,
    words: &Vec<String>,
    input: &mut MemSource,
    output: &mut MemSink,
    line: &mut SureSink,
) -> u8
    ensures promised { Promised (words_of words.now)
        (record { left = Some input.old.left; read_faults = input.old.faults; got = Some output.old.got; write_faults = output.old.faults })
        (record { left = Some input.new.left; read_faults = input.new.faults; got = Some output.new.got; write_faults = output.new.faults })
        result }
{
    program(alloc, words, input, output, line)
}
