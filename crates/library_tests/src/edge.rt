//! Tests of `logix_edge`: shelves and sinks.
use fcp_model::Seq;
use logix_edge::{Fetched, FileShelf, MemoryShelf, MemorySink, OutSink, Put, Shelf, Sink};
use std::alloc::Global;
use std::cell::Cell;
use std::fmt::Display;
use std::test::Fail;
use std::{fs, io};

const PATH: &str = "library_tests_file";

/// Three times as much as one read asks for.
const LENGTH: usize = 12288;

/// An output that takes two bytes at a time, and none once it is full.
#[derive(Drop)]
struct Narrow {
    room: Cell<usize>,
}

impl Print for Narrow {
    fn print<D: Display + Drop>(&self, _value: D) -> io::Result<()> {
        Ok(())
    }

    fn println<D: Display + Drop>(&self, _value: D) -> io::Result<()> {
        Ok(())
    }

    fn write_all(&self, _bytes: &[u8]) -> io::Result<()> {
        Ok(())
    }

    fn write_some(&self, bytes: &[u8]) -> io::Result<usize> {
        let room = self.room.get();
        let count = bytes.len().min(2).min(room);
        self.room.set(room - count);
        Ok(count)
    }
}

fn holds(fetched: &Fetched, bytes: &[u8]) -> bool {
    match fetched {
        Fetched::Bytes(found) => found.as_slice() == bytes,
        _ => false,
    }
}

/// A shelf with the text `12345` under the name `five`. The second fetch fails.
fn shelf_of(alloc: Global) -> Result<MemoryShelf, Fail> {
    let name = String::from_str(alloc, "five")?;
    let names = Seq::of(Vec::from_array(alloc, [name])?);
    let text = Vec::from_slice(alloc, b"12345")?;
    let texts = Seq::of(Vec::from_array(alloc, [text])?);
    let fails = Seq::of(Vec::from_slice(alloc, &[2])?);
    Ok(MemoryShelf::make(alloc, names, texts, fails))
}

#[test]
fn a_shelf_in_memory_gives_its_texts(rt: HostRuntime) -> Result<(), Fail> {
    let mut shelf = shelf_of(rt.alloc())?;
    assert!(rt; holds(&shelf.fetch(rt.alloc(), "five", 5), b"12345"));
    assert!(rt; matches!(shelf.fetch(rt.alloc(), "five", 5), Fetched::Failed));
    assert!(rt; matches!(shelf.fetch(rt.alloc(), "five", 4), Fetched::TooLong));
    assert!(rt; matches!(shelf.fetch(rt.alloc(), "six", 9), Fetched::Failed));
    Ok(())
}

#[test]
fn a_sink_in_memory_takes_what_it_has_room_for(rt: HostRuntime) -> Result<(), Fail> {
    let fails = Seq::of(Vec::from_slice(rt.alloc(), &[2])?);
    let mut sink = MemorySink::make(rt.alloc(), 5, fails)?;
    for (piece, put) in [
        (b"123".as_slice(), Put::Done),
        (b"4", Put::Failed),
        (b"456", Put::Failed),
        (b"45", Put::Done),
        (b"", Put::Done),
    ] {
        assert_eq!(rt; sink.put(piece), put, "{piece:?}");
    }
    assert_eq!(rt; sink.bytes(), b"12345".as_slice());
    Ok(())
}

#[test]
fn a_file_of_several_buffers_is_read_up_to_the_limit(rt: HostRuntime) -> Result<(), Fail> {
    let text = vec![in rt.alloc(); b'x'; LENGTH]?;
    fs::write(&rt, PATH, text.as_slice())?;
    let mut shelf = FileShelf::make(&rt);
    let whole = shelf.fetch(rt.alloc(), PATH, LENGTH as u64);
    let cut = shelf.fetch(rt.alloc(), PATH, LENGTH as u64 - 1);
    fs::remove_file(&rt, PATH)?;
    assert!(rt; holds(&whole, text.as_slice()));
    assert!(rt; matches!(cut, Fetched::TooLong));
    for lacking in [PATH, "."] {
        let found = shelf.fetch(rt.alloc(), lacking, 100);
        assert!(rt; matches!(found, Fetched::Failed), "{lacking}");
    }
    Ok(())
}

#[test]
fn a_path_that_begins_with_a_point_is_opened_as_it_is(rt: HostRuntime) -> Result<(), Fail> {
    fs::write(&rt, ".library_tests_hidden", "hidden")?;
    fs::write(&rt, "library_tests_hidden", "plain")?;
    let mut shelf = FileShelf::make(&rt);
    let here = shelf.fetch(rt.alloc(), "./library_tests_hidden", 9);
    let hidden = shelf.fetch(rt.alloc(), ".library_tests_hidden", 9);
    fs::remove_file(&rt, ".library_tests_hidden")?;
    fs::remove_file(&rt, "library_tests_hidden")?;
    assert!(rt; holds(&here, b"plain"));
    assert!(rt; holds(&hidden, b"hidden"));
    Ok(())
}

#[test]
fn a_write_that_takes_nothing_is_a_fault(rt: HostRuntime) {
    let narrow = Narrow { room: Cell::new(5) };
    let mut sink = OutSink::make(&narrow);
    assert_eq!(rt; sink.put(b"abc"), Put::Done);
    assert_eq!(rt; narrow.room.get(), 2);
    assert_eq!(rt; sink.put(b"def"), Put::Failed);
    assert_eq!(rt; narrow.room.get(), 0);
}
