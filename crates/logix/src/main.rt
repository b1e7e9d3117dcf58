//! The program: its words are those of the call, its shelf the files, and its sink standard output.
#![tactic(auto)]

use fcp_model::Seq;
use logix_app::{Status, run_alone};
use logix_edge::{FileShelf, OutSink};
use std::env;
use std::io::ErrorKind;
use std::process::ExitCode;

fn main(rt: HostRuntime) -> ExitCode {
    let mut words = Seq::empty(rt.alloc());
    match env::args(&rt) {
        Ok(args) => {
            for word in args.skip(1) {
                if words.push(word).is_err() {
                    return ExitCode::from(Status::NoMemory.number());
                }
            }
        }
        Err(error) if error.kind() == ErrorKind::OutOfMemory => {
            return ExitCode::from(Status::NoMemory.number());
        }
        // Words that are no text are as if there were none.
        Err(_) => {}
    }
    let mut shelf = FileShelf::make(&rt);
    let mut sink = OutSink::make(&rt);
    let status = run_alone(rt.alloc(), words.as_slice(), &mut shelf, &mut sink);
    ExitCode::from(status.number())
}
