ghost use Rattle.std.specs.Prelude.{◌≡◌, ◌≤◌, true, false, length, IfOk};
ghost use Rattle.nest_io.specs.Count.{NoneFails};

use nest_io::{MemorySink, MemorySource, StdSink, StdSource, TakeFault, put_all, take_all};
use nest_syntax::NoMemory;
use std::alloc::{AllocError, Global};
use std::test::Fail;

// What the streams in memory are to give: where no coming call fails, no count rises.
fn count_after_take(alloc: Global, source: &mut MemorySource)
    requires going { source.old.ended ≡ false }
    requires fails { NoneFails source.old.fails source.old.calls }
    ensures { source.new.faults ≡ source.old.faults }
{
    let _ = take_all(alloc, source);
}

fn count_after_put(sink: &mut MemorySink, bytes: &[u8])
    requires fails { NoneFails sink.old.fails sink.old.calls }
    requires room { length bytes.now ≤ sink.old.room }
    ensures { sink.new.faults ≡ sink.old.faults }
{
    let _ = put_all(sink, bytes);
}

const TEXT: &str = "a 7 2 6 7\nb 1 2\n";

// A source of the text in pieces of 7, of which the read with this number fails.
fn source(alloc: Global, fails: u64) -> Result<MemorySource, AllocError>
    ensures { IfOk result (λ source. source.ended ≡ false) }
{
    let bytes = Vec::from_slice(alloc, TEXT.as_bytes())?;
    Ok(MemorySource::new(bytes, 7, vec![in alloc; fails]?))
}

// A sink with so much room that takes pieces of 7, of which the write with this number fails.
fn sink(alloc: Global, room: usize, fails: u64) -> Result<MemorySink, NoMemory> {
    MemorySink::new(alloc, room, 7, vec![in alloc; fails]?)
}

// Whether a read failed.
fn read_fails(alloc: Global, source: &mut MemorySource) -> bool
    requires { source.old.ended ≡ false }
    ensures { result ≡ true → source.new.ended ≡ false }
{
    matches!(take_all(alloc, source), Err(TakeFault::Read))
}

// The text takes three reads, and one more finds its end.
#[test]
fn a_read_that_fails_loses_only_what_was_read(rt: HostRuntime) -> Result<(), Fail> {
    for (number, left) in [
        (0, "a 7 2 6 7\nb 1 2\n"),
        (1, " 7\nb 1 2\n"),
        (2, "2\n"),
        (3, ""),
    ] {
        let mut source = source(rt.alloc(), number)?;
        assert!(rt; read_fails(rt.alloc(), &mut source), "read {number}");
        let bytes = take_all(rt.alloc(), &mut source)?;
        assert_eq!(rt; bytes.as_slice(), left.as_bytes(), "behind read {number}");
    }
    Ok(())
}

#[test]
fn a_write_that_fails_leaves_the_bytes_before_it(rt: HostRuntime) -> Result<(), Fail> {
    for (room, number, written) in [
        (16, 0, ""),
        (16, 1, "a 7 2 6"),
        (16, 2, "a 7 2 6 7\nb 1 "),
        (16, 3, TEXT),
        (15, 9, "a 7 2 6 7\nb 1 2"),
        (5, 9, "a 7 2"),
        (0, 9, ""),
    ] {
        let mut sink = sink(rt.alloc(), room, number)?;
        let outcome = put_all(&mut sink, TEXT.as_bytes());
        assert_eq!(rt;
            outcome.is_ok(),
            written == TEXT,
            "room {room} write {number}"
        );
        assert_eq!(rt;
            sink.bytes(),
            written.as_bytes(),
            "room {room} write {number}"
        );
    }
    Ok(())
}

// A test's standard input is empty.
#[test]
fn the_standard_streams_are_read_and_written(rt: HostRuntime) -> Result<(), Fail> {
    let bytes = take_all(rt.alloc(), &mut StdSource::new(&rt))?;
    assert!(rt; bytes.is_empty());
    put_all(&mut StdSink::new(&rt), TEXT.as_bytes())?;
    Ok(())
}
