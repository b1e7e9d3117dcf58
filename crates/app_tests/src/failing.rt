use fcp_model::{Outcome, Seq};
use logix_app::{Status, run_alone};
use logix_edge::{MemoryShelf, MemorySink};
use std::alloc::Global;
use std::test::Fail;

const NONE: &[u32] = &[];

const FIRST: &[u32] = &[1];

const SECOND: &[u32] = &[2];

/// The words of a line, with one space between two.
fn words_in(alloc: Global, line: &str) -> Result<Vec<String>, Fail> {
    let mut words = Vec::new(alloc);
    for word in line.split(' ') {
        words.push(String::from_str(alloc, word)?)?;
    }
    Ok(words)
}

/// A shelf with one file, `f`.
fn shelf_of(alloc: Global, file: &[u8], fails: &[u32]) -> Result<MemoryShelf, Fail> {
    let name = String::from_str(alloc, "f")?;
    let names = Seq::of(Vec::from_array(alloc, [name])?);
    let text = Vec::from_slice(alloc, file)?;
    let texts = Seq::of(Vec::from_array(alloc, [text])?);
    let fails = Seq::of(Vec::from_slice(alloc, fails)?);
    Ok(MemoryShelf::make(alloc, names, texts, fails))
}

/// A sink of so much room.
fn sink_of(alloc: Global, room: usize, fails: &[u32]) -> Result<MemorySink, Fail> {
    let fails = Seq::of(Vec::from_slice(alloc, fails)?);
    Ok(MemorySink::make(alloc, room, fails)?)
}

/// How a line of words is answered over the file. The sink keeps what was put.
fn answered(
    alloc: Global,
    line: &str,
    file: &[u8],
    shelf_fails: &[u32],
    sink: &mut MemorySink,
) -> Result<Status, Fail> {
    let words = words_in(alloc, line)?;
    let mut shelf = shelf_of(alloc, file, shelf_fails)?;
    Ok(run_alone(alloc, words.as_slice(), &mut shelf, sink))
}

/// The report of `p(X)` has 66 bytes, and that of `true` has 53. Each text goes out by one put.
#[test]
fn calls_that_fail_are_told(rt: HostRuntime) -> Result<(), Fail> {
    let report =
        b"logix log 1\n1 commit #0.1 1 _0.1=a\nend 1\noutcome terminated\nX = a\n".as_slice();
    let built_in = b"logix log 1\n1 commit #0.1 0\nend 1\noutcome terminated\n".as_slice();
    let shelf = b"logix: shelf fault\n".as_slice();
    let control = b"logix: control fault at 5\n".as_slice();
    let unread = Status::Control { at: 5 };
    let after = "run f p(X) --control after";
    let done = Status::Ended(Outcome::Terminated);
    let rows = [
        ("run f p(X)", NONE, NONE, 66, done, report),
        ("run f p(X)", FIRST, NONE, 66, Status::Shelf, shelf),
        ("run f p(X)", NONE, FIRST, 66, Status::Sink, b""),
        ("run f p(X)", NONE, NONE, 65, Status::Sink, b""),
        (after, NONE, NONE, 26, unread, control),
        (after, FIRST, NONE, 26, Status::Shelf, shelf),
        (after, NONE, FIRST, 26, Status::Sink, b""),
        ("run f true", NONE, NONE, 53, done, built_in),
        ("run f true", NONE, NONE, 52, Status::Sink, b""),
        ("run f true", FIRST, FIRST, 66, Status::Sink, b""),
        ("show f", NONE, SECOND, 6, Status::Shown, b"p(a).\n"),
        ("show f", NONE, FIRST, 6, Status::Sink, b""),
        ("show f", NONE, NONE, 5, Status::Sink, b""),
    ];
    for (line, shelf_fails, sink_fails, room, status, text) in rows {
        let mut sink = sink_of(rt.alloc(), room, sink_fails)?;
        let given = answered(rt.alloc(), line, b"p(a).", shelf_fails, &mut sink)?;
        assert_eq!(rt; given, status, "{line}");
        assert_eq!(rt; sink.bytes(), text, "{line}");
    }
    Ok(())
}

/// 64 processes, each of which makes 64 others: the report has more than 65,536 bytes, and the second put fails.
#[test]
fn pieces_have_65536_bytes(rt: HostRuntime) -> Result<(), Fail> {
    let mut file = Vec::new(rt.alloc());
    for (front, item) in [(b"p:-q".as_slice(), b",q".as_slice()), (b"q:-r", b",r")] {
        file.extend_from_slice(front)?;
        for _ in 0..63 {
            file.extend_from_slice(item)?;
        }
        file.push(b'.')?;
    }
    file.extend_from_slice(b"r.")?;
    let mut sink = sink_of(rt.alloc(), 1_000_000, &[2])?;
    let given = answered(rt.alloc(), "run f p", file.as_slice(), NONE, &mut sink)?;
    assert_eq!(rt; given, Status::Sink);
    assert_eq!(rt; sink.bytes().len(), 65_536);
    Ok(())
}
