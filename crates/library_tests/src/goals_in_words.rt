//! Tests of `goal_layout`: the words of a goal.
ghost use Rattle.std.specs.Prelude.{◌≤◌, length};

use fcp_loader::{load, load_goal};
use fcp_model::Names;
use fcp_reader::{read_goal, read_module};
use goal_layout::{Laid, lay_goal};
use heap_words::PlainHeap;
use std::alloc::Global;
use std::test::Fail;

/// The goal of a text laid into a new heap of so many pages.
fn laid(alloc: Global, file: &[u8], text: &[u8], pages: u32) -> Result<(Vec<u64>, Laid), Fail>
    requires file { length file.now ≤ 1048576 }
    requires text { length text.now ≤ 1048576 }
    requires pages { pages ≤ 3906250 }
{
    let mut names = Names::make(alloc)?;
    let read = read_module(alloc, file, &mut names)?;
    let loaded = load(alloc, read)?;
    let goal = read_goal(alloc, text, &mut names)?;
    let numbered = load_goal(alloc, &loaded, goal)?;
    let heap = PlainHeap::make(alloc, pages)?;
    let mut words = heap.into_words();
    let answer = lay_goal(&mut words, &numbered);
    Ok((words, answer))
}

/// `p` and `a` are strings 9 and 10, the goal's `X` and `b` are 11 and 12. The number is 2^63 - 1: its upper bits are 0x7f, and its lower
/// ones those of -1.
#[test]
fn a_goal_is_laid(rt: HostRuntime) -> Result<(), Fail> {
    let text = b"p([X?|b]), X = 9223372036854775807";
    let (words, answer) = laid(rt.alloc(), b"p(a).", text, 1)?;
    assert!(rt; answer == Laid::Done(5));
    let expected = [
        // the top; the place, with its name
        0x11b,
        0x800_0000_0000_0013,
        0,
        // the pair; the first process
        0x22,
        0xc5,
        0x9,
        0x800_0000_0000_0013,
        0xa,
        0x1a,
        0x37,
        // the lower bits; the second process
        0x7ff_ffff_ffff_fff3,
        0x9,
        0x800_0000_0000_0023,
        0xf_ffff_ffea,
        0x2a,
        0x21,
        0x7f0_0000_00a4,
        0,
    ];
    for (at, word) in expected.iter().enumerate() {
        assert_eq!(rt; words.get(at).copied(), Some(*word));
    }
    Ok(())
}

#[test]
fn a_goal_finds_no_room(rt: HostRuntime) -> Result<(), Fail> {
    let (words, answer) = laid(rt.alloc(), b"p(a).", b"p(f(X))", 0)?;
    assert!(rt;
        answer
            == Laid::NoRoom {
                needed: 10,
                free: 0
            }
    );
    assert_eq!(rt; words.len(), 0);
    Ok(())
}
