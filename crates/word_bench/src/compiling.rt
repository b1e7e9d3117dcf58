//! The time to read, load and compile a module.
ghost use Rattle.std.specs.Prelude.{◌≤◌, length};

use crate::stopwatch::print_seconds;
use anyhow::{Result, bail};
use clause_compiler::{Code, compile};
use fcp_loader::load;
use fcp_model::{Loaded, Names, Refused};
use fcp_reader::read_module;
use logix_edge::{Fetched, FileShelf, Shelf};
use std::alloc::Global;
use std::rt::{Clock, Files};
use std::time::Instant;

/// The most bytes of a file.
const MOST_FILE_BYTES: u64 = 1_048_576;

/// The module of a text.
fn load_text(alloc: Global, text: &[u8]) -> std::result::Result<Loaded, Refused>
    requires { length text.now ≤ 1048576 }
{
    let mut names = Names::for_text(alloc, text)?;
    let module = read_module(alloc, text, &mut names)?;
    load(alloc, module)
}

/// The number of instructions.
fn instructions(code: &Code) -> u32 {
    for at in 0..u32::MAX {
        if code.instr(at).is_none() {
            return at;
        }
    }
    u32::MAX
}

/// Compiles a text, and prints how long it took.
fn print_text<R: Clock + Print + AllocGlobal>(rt: &R, text: &[u8]) -> Result<()>
    requires { length text.now ≤ 1048576 }
{
    let start = Instant::now(rt)?;
    let loaded = load_text(rt.alloc(), text)?;
    print_seconds(rt, "read and load", start)?;
    let start = Instant::now(rt)?;
    let code = compile(rt.alloc(), &loaded)?;
    print_seconds(rt, "compile", start)?;
    println!(rt; "instructions: {}", instructions(&code))?;
    println!(rt; "slots: {}", code.slots())?;
    Ok(())
}

/// Compiles the module of a file, and prints how long it took.
pub(crate) fn print_compile<R: Clock + Files + Print + AllocGlobal>(
    rt: &R,
    file: &str,
) -> Result<()> {
    let mut shelf = FileShelf::make(rt);
    match shelf.fetch(rt.alloc(), file, MOST_FILE_BYTES) {
        Fetched::Bytes(text) => print_text(rt, text.as_slice()),
        Fetched::TooLong => bail!("the file is too long"),
        Fetched::Failed => bail!("the file cannot be read"),
        Fetched::NoMemory => bail!("out of memory"),
    }
}
