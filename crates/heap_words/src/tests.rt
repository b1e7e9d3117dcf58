ghost use Rattle.std.specs.Prelude.{◌≡◌, true, IfOk};
ghost use Rattle.heap_words.specs.Heaps.{IsHeap, is_inside};

use crate::{Cell, PlainHeap, Stand, Trail, Words, decode, encode, is_final};
use fcp_model::{NoMemory, Sym};
use std::alloc::Global;
use std::test::Fail;

const MOST: u32 = 0xffff_ffff;

#[test]
fn cells(rt: HostRuntime) {
    // 2^55 is 0x80_0000_0000_0000: a small number is raised by it
    for (word, cell, last) in [
        (0x0, Cell::Unbound(0), false),
        (0xf_ffff_fff0, Cell::Unbound(MOST), false),
        (0x1, Cell::Ref(0), true),
        (0xf_ffff_fff1, Cell::Ref(MOST), true),
        (0x2, Cell::RoRef(0), true),
        (0xf_ffff_fff2, Cell::RoRef(MOST), true),
        (0x3, Cell::Small(-0x80_0000_0000_0000), true),
        (0x7ff_ffff_ffff_fff3, Cell::Small(-1), true),
        (0x800_0000_0000_0003, Cell::Small(0), true),
        (0x800_0000_0000_0013, Cell::Small(1), true),
        (0xfff_ffff_ffff_fff3, Cell::Small(0x7f_ffff_ffff_ffff), true),
        (0x4, Cell::Wide(0, 0), true),
        (0x20_0000_0014, Cell::Wide(1, 2), true),
        (0xfff_ffff_fff4, Cell::Wide(MOST, 255), true),
        (0x5, Cell::Str(Sym(0)), true),
        (0xf_ffff_fff5, Cell::Str(Sym(MOST)), true),
        (0x6, Cell::Nil, true),
        (0x7, Cell::Cons(0), true),
        (0xf_ffff_fff7, Cell::Cons(MOST), true),
        (0x8, Cell::Tuple(0), true),
        (0xf_ffff_fff8, Cell::Tuple(MOST), true),
        (0x9, Cell::Status(Stand::Ready), false),
        (0x19, Cell::Status(Stand::Done), false),
        (0x29, Cell::Status(Stand::Waiting(0)), false),
        (0x10_0000_0019, Cell::Status(Stand::Waiting(MOST)), false),
        (0xa, Cell::Raw(0), true),
        (0xf_ffff_fffa, Cell::Raw(MOST), true),
        (0xb, Cell::Top(0), false),
        (0xf_ffff_fffb, Cell::Top(MOST), false),
    ] {
        let found = decode(word);
        assert_eq!(rt; found, Some(cell), "{word:x}");
        if let Some(back) = found {
            assert_eq!(rt; encode(back), word, "{word:x}");
        }
        assert_eq!(rt; is_final(word), last, "{word:x}");
    }
}

#[test]
fn words_of_no_cell(rt: HostRuntime) {
    for word in [
        0xc,
        0xd,
        0xe,
        0xf,
        0xffff_ffff_ffff_ffff,
        0x10_0000_0000,
        0x10_0000_0001,
        0x10_0000_0002,
        0x1000_0000_0000_0003,
        0x1000_0000_0004,
        0x10_0000_0005,
        0x16,
        0x10_0000_0007,
        0x10_0000_0008,
        0x10_0000_0029,
        0x10_0000_000a,
        0x10_0000_000b,
    ] {
        assert_eq!(rt; decode(word), None, "{word:x}");
        assert!(rt; is_final(word), "{word:x}");
    }
}

#[test]
fn a_heap_of_two_pages(rt: HostRuntime) -> Result<(), Fail> {
    let mut heap = PlainHeap::make(rt.alloc(), 2)?;
    assert_eq!(rt; heap.room(1), 1023);
    let top = encode(Cell::Top(1026));
    heap.store(1024, top);
    let seven = encode(Cell::Small(7));
    heap.store(1025, seven);
    assert_eq!(rt; heap.room(0), 1023);
    assert_eq!(rt; heap.room(1), 1022);
    assert_eq!(rt; decode(heap.load(1025)), Some(Cell::Small(7)));
    let words = heap.into_words();
    assert_eq!(rt; words.len(), 2048);
    for (addr, word) in words.as_slice().iter().enumerate() {
        let wanted = match addr {
            0 => 27,
            1024 => 16427,
            1025 => 0x800_0000_0000_0073,
            _ => 0,
        };
        assert_eq!(rt; *word, wanted, "at {addr}");
    }
    Ok(())
}

/// A page with one unbound place, at address 1.
fn one_place(alloc: Global) -> Result<PlainHeap, NoMemory>
    ensures heap { IfOk result (λ h. IsHeap h.words.items) }
    ensures place { IfOk result (λ h. is_inside h.words.items 1 ≡ true) }
{
    let mut heap = PlainHeap::make(alloc, 1)?;
    let top = encode(Cell::Top(2));
    heap.store(0, top);
    Ok(heap)
}

#[test]
fn a_word_is_kept_once(rt: HostRuntime) -> Result<(), Fail> {
    let mut heap = one_place(rt.alloc())?;
    let mut trail = Trail::make(rt.alloc())?;
    let first = trail.word(&mut heap, 1)?;
    let second = trail.word(&mut heap, 1)?;
    assert_eq!(rt; first, 0);
    assert_eq!(rt; second, 0);
    assert_eq!(rt; trail.kept_at(0), Some((1, 0)));
    assert_eq!(rt; trail.kept_at(1), None);
    assert_eq!(rt; trail.kept_word(1), Some(0));
    assert_eq!(rt; trail.kept_word(2), None);
    trail.clear();
    assert_eq!(rt; trail.kept_at(0), None);
    Ok(())
}

#[test]
fn a_binding_is_seen_until_it_is_undone(rt: HostRuntime) -> Result<(), Fail> {
    let mut heap = one_place(rt.alloc())?;
    let mut trail = Trail::make(rt.alloc())?;
    let nil = encode(Cell::Nil);
    trail.bind(1, nil)?;
    trail.note_read(1)?;
    assert_eq!(rt; trail.bound(1), Some(6));
    assert_eq!(rt; trail.bound_at(0), Some((1, 6)));
    let bound = trail.look(&mut heap, 1)?;
    assert_eq!(rt; bound, 6);
    assert_eq!(rt; trail.kept_at(0), None);
    trail.undo();
    assert_eq!(rt; trail.bound(1), None);
    assert_eq!(rt; trail.bound_at(0), None);
    let free = trail.look(&mut heap, 1)?;
    assert_eq!(rt; free, 0);
    assert_eq!(rt; trail.kept_at(0), Some((1, 0)));
    assert_eq!(rt; trail.read_at(0), Some(1));
    trail.clear();
    assert_eq!(rt; trail.read_at(0), None);
    Ok(())
}
