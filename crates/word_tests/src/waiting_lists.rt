//! Tests of `suspension_lists`: who waits on places, in words that are put slot by slot.
ghost use Rattle.std.specs.Prelude.{◌≡◌, ◌≤◌, OnOk, length};

use crate::slots::Slots;
use fcp_model::NoMemory;
use heap_words::{Cell, Stand, Trail, encode};
use std::alloc::Global;
use std::test::Fail;
use suspension_lists::{Sleepers, hang_pieces, waiters, wake_writes};

/// The words of a test stand below this address.
const MOST: usize = 4_000_000;

/// A slot: a process with its name, a place with the first entry of its list, and an entry with its process, number and link.
#[derive(Clone, Copy)]
struct Slot {
    stand: Stand,
    name: u32,
    first: u32,
    process: u32,
    number: u32,
    link: u32,
}

/// Where the place of a slot stands, and where its entry begins.
const PLACE: u32 = 3;

const ENTRY: u32 = 4;

fn put(slots: &mut Slots, word: u64) -> Result<(), NoMemory>
    ensures { OnOk result (length slots.new.words.items ≤ 4000000) }
{
    if slots.words.len() >= MOST {
        return Err(NoMemory);
    }
    match slots.words.push(word) {
        Ok(()) => Ok(()),
        Err(_) => Err(NoMemory),
    }
}

fn link_word(link: u32) -> u64 {
    if link == 0 {
        encode(Cell::Nil)
    } else {
        encode(Cell::Cons(link))
    }
}

fn put_slot(slots: &mut Slots, slot: Slot) -> Result<(), NoMemory> {
    put(slots, encode(Cell::Status(slot.stand)))?;
    put(slots, encode(Cell::Small(slot.name as i64)))?;
    put(slots, encode(Cell::Nil))?;
    put(slots, encode(Cell::Unbound(slot.first)))?;
    put(slots, encode(Cell::Raw(slot.process)))?;
    put(slots, encode(Cell::Small(slot.number as i64)))?;
    put(slots, link_word(slot.link))?;
    put(slots, encode(Cell::Nil))?;
    Ok(())
}

/// The processes that wait on a place.
fn waiting(alloc: Global, slots: &mut Slots, place: u32) -> Result<Vec<u32>, NoMemory> {
    if place as usize >= slots.words.len() || slots.words.len() > MOST {
        return Err(NoMemory);
    }
    let mut sleepers = Sleepers::make(alloc);
    let mut trail = Trail::make(alloc)?;
    waiters(&mut sleepers, &mut trail, slots, place)?;
    Ok(sleepers.processes)
}

/// The writes that wake those who wait on two places, of which the second is named twice.
fn waking(
    alloc: Global,
    slots: &mut Slots,
    one: u32,
    two: u32,
) -> Result<Vec<(u32, u64)>, NoMemory> {
    let count = slots.words.len();
    if one as usize >= count || two as usize >= count || count > MOST {
        return Err(NoMemory);
    }
    let mut sleepers = Sleepers::make(alloc);
    let mut trail = Trail::make(alloc)?;
    let mut writes = Vec::new(alloc);
    wake_writes(
        &mut sleepers,
        &mut trail,
        slots,
        &[one, two, two],
        &mut writes,
    )?;
    Ok(writes)
}

/// Six slots. The lists of their places: none for the first, the second and the third; of the fourth the entries 28, 20, 12, 4; of
/// the fifth the entry 36; of the sixth the entries 44 and 36.
fn six(alloc: Global) -> Result<Slots, NoMemory> {
    let mut slots = Slots {
        words: Vec::new(alloc),
    };
    for (stand, name, first, process, number, link) in [
        (Stand::Waiting(5), 30, 0, 0, 5, 0),
        // its entry is left from an earlier hang
        (Stand::Waiting(7), 20, 0, 8, 6, 4),
        (Stand::Ready, 10, 0, 16, 4, 12),
        (Stand::Waiting(8), 25, 28, 24, 8, 20),
        (Stand::Done, 5, 36, 8, 7, 0),
        (Stand::Done, 6, 44, 0, 5, 36),
    ] {
        put_slot(
            &mut slots,
            Slot {
                stand,
                name,
                first,
                process,
                number,
                link,
            },
        )?;
    }
    Ok(slots)
}

#[test]
fn those_whose_number_is_in_the_entry_wait(rt: HostRuntime) -> Result<(), Fail> {
    let mut slots = six(rt.alloc())?;
    let none = waiting(rt.alloc(), &mut slots, PLACE)?;
    assert_eq!(rt; none.as_slice(), [].as_slice());
    let four = waiting(rt.alloc(), &mut slots, 24 + PLACE)?;
    assert_eq!(rt; four.as_slice(), [24, 0].as_slice());
    let six = waiting(rt.alloc(), &mut slots, 40 + PLACE)?;
    assert_eq!(rt; six.as_slice(), [8, 0].as_slice());
    let all = waking(rt.alloc(), &mut slots, 24 + PLACE, 40 + PLACE)?;
    assert_eq!(rt; all.as_slice(), [(8, 9), (24, 9), (0, 9)].as_slice());
    Ok(())
}

/// So many processes on the list of the last slot's place, the oldest one first.
fn many(alloc: Global, count: u32) -> Result<Slots, NoMemory> {
    let mut slots = Slots {
        words: Vec::new(alloc),
    };
    let mut link = 0;
    for at in 0..count {
        let process = at.saturating_mul(8);
        let entry = process.saturating_add(ENTRY);
        put_slot(
            &mut slots,
            Slot {
                stand: Stand::Waiting(1),
                name: count.saturating_sub(at),
                first: entry,
                process,
                number: 1,
                link,
            },
        )?;
        link = entry;
    }
    Ok(slots)
}

/// Whether these are so many processes, each once and by its name: the last one has the least name.
fn are_all(processes: &[u32], count: u32) -> bool {
    let mut above = count.saturating_mul(8);
    for process in processes {
        if process.checked_add(8) != Some(above) {
            return false;
        }
        above = *process;
    }
    above == 0
}

/// Whether these writes make these processes Ready, in their order.
fn are_woken(writes: &[(u32, u64)], processes: &[u32]) -> bool {
    if writes.len() != processes.len() {
        return false;
    }
    for (write, process) in writes.iter().zip(processes) {
        if *write != (*process, encode(Cell::Status(Stand::Ready))) {
            return false;
        }
    }
    true
}

#[test]
fn many_processes_wait_on_one_place(rt: HostRuntime) -> Result<(), Fail> {
    let mut slots = many(rt.alloc(), 5000)?;
    let found = waiting(rt.alloc(), &mut slots, 8 * 4999 + PLACE)?;
    assert!(rt; are_all(found.as_slice(), 5000));
    let woken = waking(rt.alloc(), &mut slots, 8 * 4999 + PLACE, PLACE)?;
    assert!(rt; are_woken(woken.as_slice(), found.as_slice()));
    Ok(())
}

#[test]
fn a_hang_lays_an_entry_for_each_place(rt: HostRuntime) -> Result<(), Fail> {
    let mut pieces = Vec::new(rt.alloc());
    hang_pieces(&mut pieces, 8, &[(27, 0x1c0), (19, 0)])?;
    assert_eq!(rt; pieces.as_slice(), [0x8a, 0, 0x1c7, 0x8a, 0, 6].as_slice());
    Ok(())
}
