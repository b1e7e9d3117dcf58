//! The code of a module's text.
ghost use Rattle.std.specs.Prelude.{◌≤◌, IfOk, length};
ghost use Rattle.laid_texts.specs.Texts.{IsCodeOfText};

use clause_compiler::{Code, compile};
use fcp_loader::load;
use fcp_model::{Names, Refused};
use fcp_reader::read_module;
use std::alloc::Global;

/// The code of a module that is read from a text and loads. What a module is refused for is the error.
pub fn compile_text(alloc: Global, file: &[u8]) -> Result<Code, Refused>
    requires { length file.now ≤ 1048576 }
    ensures { IfOk result (IsCodeOfText file.now) }
{
    let mut names = Names::make(alloc)?;
    let read = read_module(alloc, file, &mut names)?;
    let loaded = load(alloc, read)?;
    let code = compile(alloc, &loaded)?;
    Ok(code)
}
