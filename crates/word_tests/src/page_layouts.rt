//! Tests of `page_layout`: where pieces go, and what a commit and a hang write.
use fcp_model::NoMemory;
use heap_words::{Cell, PlainHeap, Stand, Trail, encode};
use page_layout::{Room, Written, first_open, lay, put_commit, put_hang};
use std::alloc::{AllocError, Global};
use std::test::Fail;

/// Where pieces of these sizes go in a new heap of three pages, if they find room.
#[derive(Drop)]
struct Layout {
    rooms: Vec<Room>,
    table: Vec<u32>,
    all: bool,
}

fn laid(alloc: Global, sizes: &[u32]) -> Result<Layout, NoMemory> {
    let mut heap = PlainHeap::make(alloc, 3)?;
    let mut trail = Trail::make(alloc)?;
    let mut rooms = Vec::new(alloc);
    let mut table = Vec::new(alloc);
    let all = lay(&mut heap, &mut trail, &mut rooms, &mut table, 0, 3, sizes)?;
    Ok(Layout { rooms, table, all })
}

#[test]
fn a_piece_goes_to_the_first_page_with_room(rt: HostRuntime) -> Result<(), Fail> {
    let four = laid(rt.alloc(), &[1000, 100, 20, 500])?;
    assert!(rt; four.all);
    assert_eq!(rt; four.table.get(0).copied(), Some(1));
    assert_eq!(rt; four.table.get(1000).copied(), Some(1025));
    assert_eq!(rt; four.table.get(1100).copied(), Some(1001));
    assert_eq!(rt; four.table.get(1120).copied(), Some(1125));
    let full = laid(rt.alloc(), &[1023, 1023, 1023, 1])?;
    assert!(rt; !full.all);
    Ok(())
}

#[test]
fn pages_that_were_looked_at_are_told_from_those_that_were_used(
    rt: HostRuntime,
) -> Result<(), Fail> {
    let two = laid(rt.alloc(), &[1000, 24])?;
    assert_eq!(rt;
        two.rooms.as_slice(),
        [
            Room {
                page: 0,
                old: 1,
                top: 1001
            },
            Room {
                page: 1,
                old: 1025,
                top: 1049
            },
        ]
        .as_slice()
    );
    let none = laid(rt.alloc(), &[1000, 1024])?;
    assert!(rt; !none.all);
    assert_eq!(rt; none.rooms.len(), 3);
    assert!(rt; none.rooms[0].grew());
    assert!(rt; !none.rooms[1].grew());
    Ok(())
}

#[test]
fn the_next_entry_is_laid_from_the_first_page_that_is_not_nearly_full(
    rt: HostRuntime,
) -> Result<(), Fail> {
    let none: [Room; 0] = [];
    assert_eq!(rt; first_open(&none, 4), 4);
    // 95 free words, 0, and 96
    let rooms = [
        Room {
            page: 1,
            old: 1025,
            top: 1953,
        },
        Room {
            page: 2,
            old: 2049,
            top: 3072,
        },
        Room {
            page: 3,
            old: 3073,
            top: 4000,
        },
    ];
    assert_eq!(rt; first_open(&rooms, 1), 3);
    assert_eq!(rt; first_open(&rooms, 0), 0);
    Ok(())
}

/// The words of the entry of this number, each with its address.
fn words_of(alloc: Global, writes: &[Written], number: u32) -> Result<Vec<(u32, u64)>, AllocError> {
    let mut words = Vec::new(alloc);
    for write in writes {
        let grown = write.step.saturating_mul(number as u64);
        words.push((write.addr, write.word.saturating_add(grown)))?;
    }
    Ok(words)
}

/// The number of entry 3 in a name word.
const THIRD: i64 = 3 * 268_435_456;

#[test]
fn a_commit_writes_what_it_binds_wakes_and_makes(rt: HostRuntime) -> Result<(), Fail> {
    let alloc = rt.alloc();
    let mut heap = PlainHeap::make(alloc, 1)?;
    let mut trail = Trail::make(alloc)?;
    let mut rooms = Vec::new(alloc);
    let mut table = Vec::new(alloc);
    let mut writes = Vec::new(alloc);
    let all = lay(
        &mut heap,
        &mut trail,
        &mut rooms,
        &mut table,
        0,
        1,
        &[2, 5, 2],
    )?;
    assert!(rt; all);
    // a place; a process with one argument, which is the place; a pair of the place and the empty list
    let own = [0, 0, 9, 0, 0x7a, 0x1a, 64_000_000_017, 64_000_000_017, 6];
    assert_eq!(rt; table.len(), 9);
    let pair = encode(Cell::Cons(4_000_000_007));
    put_commit(
        &mut writes,
        rooms.as_slice(),
        table.as_slice(),
        600,
        &[(500, pair)],
        &[700],
        &own,
        &[2, 5, 2],
    )?;
    let words = words_of(alloc, writes.as_slice(), 3)?;
    assert_eq!(rt;
        words.as_slice(),
        [
            (600, encode(Cell::Status(Stand::Done))),
            (500, encode(Cell::Cons(8))),
            (700, encode(Cell::Status(Stand::Ready))),
            (0, encode(Cell::Top(10))),
            (1, encode(Cell::Small(THIRD + 1))),
            (2, encode(Cell::Unbound(0))),
            (3, encode(Cell::Status(Stand::Ready))),
            (4, encode(Cell::Small(THIRD + 1))),
            (5, encode(Cell::Raw(7))),
            (6, encode(Cell::Raw(1))),
            (7, encode(Cell::Ref(2))),
            (8, encode(Cell::Ref(2))),
            (9, encode(Cell::Nil)),
        ]
        .as_slice()
    );
    Ok(())
}

#[test]
fn a_hang_writes_an_entry_before_the_list_of_each_place(rt: HostRuntime) -> Result<(), Fail> {
    let alloc = rt.alloc();
    let mut heap = PlainHeap::make(alloc, 1)?;
    let mut trail = Trail::make(alloc)?;
    let mut rooms = Vec::new(alloc);
    let mut table = Vec::new(alloc);
    let mut writes = Vec::new(alloc);
    let all = lay(&mut heap, &mut trail, &mut rooms, &mut table, 0, 1, &[3, 3])?;
    assert!(rt; all);
    put_hang(
        &mut writes,
        rooms.as_slice(),
        table.as_slice(),
        600,
        &[(500, 0), (510, 44)],
    )?;
    let words = words_of(alloc, writes.as_slice(), 2)?;
    assert_eq!(rt;
        words.as_slice(),
        [
            (600, encode(Cell::Status(Stand::Waiting(2)))),
            (500, encode(Cell::Unbound(1))),
            (510, encode(Cell::Unbound(4))),
            (0, encode(Cell::Top(7))),
            (1, encode(Cell::Raw(600))),
            (2, encode(Cell::Small(2))),
            (3, encode(Cell::Nil)),
            (4, encode(Cell::Raw(600))),
            (5, encode(Cell::Small(2))),
            (6, encode(Cell::Cons(44))),
        ]
        .as_slice()
    );
    Ok(())
}
