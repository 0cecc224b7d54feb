//! tink: keys in files, and files and streams encrypted under them.
#![tactic(auto)]

use std::process::ExitCode;
use tink_cli::run;
use tink_io::{StdSink, write_line};
use tink_system::trouble::status;
use tink_unix::Unix;
use tink_unix_names::standard::occupy_standard_streams;
use tink_unix_names::words_of_process;

fn main(rt: HostRuntime) -> ExitCode {
    occupy_standard_streams(&rt);
    let mut faults = StdSink::new(rt.stderr());
    match words_of_process(&rt) {
        Ok(words) => {
            let mut system = Unix::new(&rt);
            let mut sink = StdSink::new(rt.stdout());
            ExitCode::from(run(
                rt.alloc(),
                &mut system,
                words.as_slice(),
                &mut sink,
                &mut faults,
            ))
        }
        Err(e) => {
            write_line(&mut faults, e.kind);
            ExitCode::from(status(e.kind))
        }
    }
}
