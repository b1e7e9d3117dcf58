//! The look through all words in use.
ghost use Rattle.std.specs.Prelude.{◌≡◌, ◌+◌, ◌*◌, ◌<◌, ℕ, pos, true, Some, IfOk, OnOk, length, map};
ghost use Rattle.heap_words.specs.Cells.{decoded};
ghost use Rattle.heap_words.specs.Heaps.{IsHeap, top_said, is_inside};
ghost use Rattle.heap_words.specs.declared.cell.Cell.TheVariants.{Small};
ghost use Rattle.ready_lists.specs.Ready.{AreListed, AreReady, AreLive};
ghost use Rattle.ready_lists.specs.Finding.{stands_so, is_status, HasFound};

use fcp_model::NoMemory;
use heap_words::{Cell, Stand, decode};
use std::alloc::Global;

const PAGE: u32 = 1024;

/// Which processes are sought: those that are Ready, or all that are not done.
#[derive(Clone, Copy, Debug, PartialEq, Eq)]
enum Sought {
    Ready,
    Live,
}

/// A process that was found: the number in its name word, and its address. They are compared by name first.
#[derive(Clone, Copy, Debug, PartialEq, Eq, PartialOrd, Ord)]
struct Found {
    name: u64,
    process: u32,
}

/// The address that a page's first word says, or 0 where it is no top.
fn top_of(word: u64) -> u32
    ensures { result ≡ top_said (decoded word) }
{
    match decode(word) {
        Some(Cell::Top(top)) => top,
        _ => 0,
    }
}

/// Whether a process that stands so is sought.
fn is_sought(sought: Sought, stand: Stand) -> bool
    ensures { result ≡ stands_so sought stand }
{
    match stand {
        Stand::Ready => true,
        Stand::Waiting(_) => sought == Sought::Live,
        Stand::Done => false,
    }
}

/// Whether a word is the status of a process that is sought.
fn is_status(sought: Sought, word: u64) -> bool
    ensures { result ≡ is_status (stands_so sought) (decoded word) }
{
    match decode(word) {
        Some(Cell::Status(stand)) => is_sought(sought, stand),
        _ => false,
    }
}

/// The number that a word says, and 0 where it says none from 0 on.
fn number_in(word: u64) -> u64
    ensures { (n : ℕ) → decoded word ≡ Some (Small (pos n)) → result ≡ n }
{
    match decode(word) {
        Some(Cell::Small(number)) => if number >= 0 { number as u64 } else { 0 },
        _ => 0,
    }
}

/// Puts the process at an address at the end of the list of those below it, where its word is the status of one that is sought.
fn put_process(
    found: &mut Vec<Found>,
    words: &[u64],
    addr: u32,
    sought: Sought,
) -> Result<(), NoMemory>
    requires heap { IsHeap words.now }
    requires inside { is_inside words.now addr ≡ true }
    requires before { HasFound (stands_so sought) words.now addr found.old.items }
    ensures { OnOk result (HasFound (stands_so sought) words.now (addr + 1) found.new.items) }
{
    if !is_status(sought, words[addr as usize]) {
        return Ok(());
    }
    let name = number_in(words[addr as usize + 1]);
    match found.push(Found {
        name,
        process: addr,
    }) {
        Ok(()) => Ok(()),
        Err(_) => Err(NoMemory),
    }
}

/// Puts the processes of a page that are sought at the end of the list of those of the pages before it.
fn put_page(
    found: &mut Vec<Found>,
    words: &[u64],
    page: u32,
    sought: Sought,
) -> Result<(), NoMemory>
    requires heap { IsHeap words.now }
    requires there { 1024 * page < length words.now }
    requires before { HasFound (stands_so sought) words.now (1024 * page) found.old.items }
    ensures { OnOk result (HasFound (stands_so sought) words.now (1024 * page + 1024) found.new.items) }
{
    let first = PAGE * page;
    for addr in first + 1..top_of(words[first as usize]) {
        put_process(found, words, addr, sought)?;
    }
    Ok(())
}

/// The addresses of these processes, in their order.
fn addresses(alloc: Global, found: &[Found]) -> Result<Vec<u32>, NoMemory>
    ensures { IfOk result (λ qs. qs.items ≡ map (λ (f : Found). f.process) found.now) }
{
    let mut processes = Vec::new(alloc);
    for one in found {
        if processes.push(one.process).is_err() {
            return Err(NoMemory);
        }
    }
    Ok(processes)
}

/// The addresses of the processes of a heap that are sought, by name.
fn listed(alloc: Global, words: &[u64], sought: Sought) -> Result<Vec<u32>, NoMemory>
    requires { IsHeap words.now }
    ensures { IfOk result (λ qs. AreListed (stands_so sought) words.now qs.items) }
{
    let mut found = Vec::new(alloc);
    for page in 0..words.len() as u32 / PAGE {
        put_page(&mut found, words, page, sought)?;
    }
    found.sort_unstable();
    addresses(alloc, found.as_slice())
}

/// The addresses of the processes of a heap that are Ready, by name.
pub fn ready_processes(alloc: Global, words: &[u64]) -> Result<Vec<u32>, NoMemory>
    requires { IsHeap words.now }
    ensures { IfOk result (λ qs. AreReady words.now qs.items) }
{
    listed(alloc, words, Sought::Ready)
}

/// The addresses of the processes of a heap that are not done, by name.
pub fn live_processes(alloc: Global, words: &[u64]) -> Result<Vec<u32>, NoMemory>
    requires { IsHeap words.now }
    ensures { IfOk result (λ qs. AreLive words.now qs.items) }
{
    listed(alloc, words, Sought::Live)
}
