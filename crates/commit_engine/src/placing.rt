//! Which of the places that an entry writes are new.
ghost use Rattle.std.specs.Prelude.{◌≡◌, ◌↔◌, true, IfOk, IfSome};
ghost use Rattle.heap_words.specs.Cells.{decoded};
ghost use Rattle.commit_engine.specs.Holding.{ArePlaced, IsNew, IsOpen};
ghost use Rattle.commit_engine.specs.Making.{is_above_top, PutsPlace};

use fcp_model::NoMemory;
use heap_words::{Cell, Trail, decode, is_final};
use page_layout::Written;
use std::alloc::Global;

/// How many words a page has.
const PAGE: u32 = 1024;

/// Whether the word at an address was read and may change.
fn is_open(read: &Trail, addr: u32) -> bool
    ensures { (result ≡ true) ↔ IsOpen read.now.kept addr }
{
    read.once();
    match read.kept_word(addr) {
        Some(word) => !is_final(word),
        None => false,
    }
}

/// Whether a word says a page's top that an address is not below.
fn is_above_top(word: u64, addr: u32) -> bool
    ensures { result ≡ is_above_top (decoded word) addr }
{
    match decode(word) {
        Some(Cell::Top(top)) => top <= addr,
        _ => false,
    }
}

/// Whether the top of its page was read, and an address is not below it.
fn is_new(read: &Trail, addr: u32) -> bool
    ensures { (result ≡ true) ↔ IsNew read.now.kept addr }
{
    read.once();
    match read.kept_word(PAGE * (addr / PAGE)) {
        Some(word) => is_above_top(word, addr),
        None => false,
    }
}

/// Puts a place at the end of the list, if it is not open and is new; `false` where it is neither.
fn put_place(places: &mut Vec<u32>, read: &Trail, addr: u32) -> Result<bool, NoMemory>
    ensures { IfOk result (λ b. b ≡ true → PutsPlace read.now.kept addr places.old.items places.new.items) }
{
    if is_open(read, addr) {
        return Ok(true);
    }
    if !is_new(read, addr) {
        return Ok(false);
    }
    match places.push(addr) {
        Ok(()) => Ok(true),
        Err(_) => Err(NoMemory),
    }
}

/// The places that are new among those that are written. `None` where one of them is neither new nor was read, which no plan has.
pub(crate) fn new_places(
    alloc: Global,
    read: &Trail,
    writes: &[Written],
) -> Result<Option<Vec<u32>>, NoMemory>
    ensures { IfOk result (λ o. IfSome o (λ v. ArePlaced read.now.kept writes.now v.items)) }
{
    let mut places = Vec::new(alloc);
    for at in 0..writes.len() {
        let write = writes[at];
        if !put_place(&mut places, read, write.addr)? {
            return Ok(None);
        }
    }
    Ok(Some(places))
}
