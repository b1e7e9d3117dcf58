//! The strings that names and quoted tokens stand for.
ghost use Rattle.std.specs.Prelude.{◌≡◌, ◌≤◌, ◌+◌, ◌++◌, false, length, IfOk};
ghost use Rattle.std.specs.String.{string_bytes};
ghost use Rattle.std.specs.Str.{IsUtf8};
ghost use Rattle.fcp_text.specs.QuotedStrings.{without_quotes, unquoted};
ghost use Rattle.fcp_text.specs.Tokens as lexer;
ghost use Rattle.fcp_terminals.specs.Numbering as spec;

use fcp_grammar::StringForm;
use fcp_model::NoMemory;
use fcp_text::Token;
use std::alloc::Global;

/// The bytes of a token of the text.
pub fn bytes_of(text: &[u8], token: Token) -> &[u8]
    requires { token.at + token.len ≤ length text.now }
    ensures { result.now ≡ lexer.text_of text.now token }
{
    let at = token.at as usize;
    &text[at..at + token.len as usize]
}

/// UTF-8 as a text.
pub fn as_text(bytes: &[u8]) -> &str
    requires { IsUtf8 bytes.now }
    ensures { result.now ≡ bytes.now }
{
    match str::from_utf8(bytes) {
        Ok(text) => text,
        Err(_) => unreachable!(),
    }
}

/// How a name is written.
pub fn name_form(name: &str) -> StringForm
    ensures { result ≡ spec.name_form name.now }
{
    if name == "mod" {
        StringForm::Mod
    } else if name == "module" {
        StringForm::Module
    } else if name == "export" {
        StringForm::Export
    } else {
        StringForm::Name
    }
}

/// The bytes without the quotes, but for each quote directly behind one that is left out.
fn bytes_without(alloc: Global, quote: u8, mut bytes: &[u8]) -> Result<Vec<u8>, NoMemory>
    ensures { IfOk result (λ v. v.items ≡ without_quotes quote false bytes.entry.now) }
{
    let mut kept = Vec::new(alloc);
    let mut is_second = false;
    while let [byte, rest @ ..] = bytes {
        if !is_second && *byte == quote {
            is_second = true;
        } else {
            is_second = false;
            if kept.push(*byte).is_err() {
                return Err(NoMemory);
            }
        }
        bytes = rest;
    }
    Ok(kept)
}

/// The string that a quoted token stands for: what is between its quotes, with one quote for each two.
pub fn content(alloc: Global, quoted: &[u8]) -> Result<String, NoMemory>
    requires { IsUtf8 (unquoted quoted.now) }
    ensures { IfOk result (λ s. string_bytes s ≡ unquoted quoted.now) }
{
    let [quote, rest @ ..] = quoted else {
        return Ok(String::new(alloc));
    };
    match String::from_utf8(bytes_without(alloc, *quote, rest)?) {
        Ok(string) => Ok(string),
        Err(_) => unreachable!(),
    }
}
