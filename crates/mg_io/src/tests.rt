ghost use Rattle.std.specs.Prelude.{◌≡◌, ◌<◌};

use super::*;
use std::alloc::Global;
use std::io::{self, Cursor, Write};
use std::marker::Brand;
use std::sync::ledger::{Blank, Ledger};
use std::test::Fail;

const TEXT: &[u8] = b"report\nfunded ";

const FIRST_TEN: &[u8] = b"report\nfun";

#[test]
fn reads_to_the_end_within_the_limit(rt: HostRuntime) -> Result<(), Fail> {
    let alloc = rt.alloc();
    for (most, limit) in [(1usize, 14usize), (5, 14), (100, 15)] {
        let mut source = MemorySource::new(alloc, TEXT.to_vec(alloc)?, most, Vec::new(alloc));
        assert_eq!(rt; read_all(alloc, &mut source, limit)?.as_slice(), TEXT);
    }
    for (most, limit) in [(1usize, 13usize), (100, 13), (3, 0)] {
        let mut source = MemorySource::new(alloc, TEXT.to_vec(alloc)?, most, Vec::new(alloc));
        assert_eq!(rt;
            read_all(alloc, &mut source, limit).err(),
            Some(ReadRefused::TooLong)
        );
    }
    Ok(())
}

#[test]
fn a_failing_second_read_is_a_fault(rt: HostRuntime) -> Result<(), Fail> {
    let alloc = rt.alloc();
    let failing = [1u64].to_vec(alloc)?;
    let mut source = MemorySource::new(alloc, TEXT.to_vec(alloc)?, 1, failing);
    assert_eq!(rt;
        read_all(alloc, &mut source, 100).err(),
        Some(ReadRefused::Fault)
    );
    assert_eq!(rt; read_all(alloc, &mut source, 100)?.as_slice(), &TEXT[1..]);
    Ok(())
}

#[test]
fn writes_all_or_counts_what_was_taken(rt: HostRuntime) -> Result<(), Fail> {
    let alloc = rt.alloc();
    let mut sink = MemorySink::new(alloc, 3, Vec::new(alloc));
    assert_eq!(rt; write_all(&mut sink, TEXT), Ok(()));
    assert_eq!(rt; sink.taken(), TEXT);
    let mut sink = MemorySink::new(alloc, 10, [1u64].to_vec(alloc)?);
    assert_eq!(rt;
        write_all(&mut sink, TEXT),
        Err(WriteRefused::Fault { written: 10 })
    );
    assert_eq!(rt; sink.taken(), FIRST_TEN);
    Ok(())
}

#[test]
fn firm_ones_never_fail(rt: HostRuntime) -> Result<(), Fail> {
    let alloc = rt.alloc();
    let mut source = FirmSource::new(TEXT.to_vec(alloc)?);
    assert_eq!(rt; read_all(alloc, &mut source, 14)?.as_slice(), TEXT);
    let mut sink = FirmSink::new();
    assert_eq!(rt; write_all(&mut sink, TEXT), Ok(()));
    Ok(())
}

#[test]
fn a_reader_is_a_source(rt: HostRuntime) -> Result<(), Fail> {
    let alloc = rt.alloc();
    let mut source = InputSource::new(TEXT);
    assert_eq!(rt; read_all(alloc, &mut source, 14)?.as_slice(), TEXT);
    Ok(())
}

#[test]
fn a_writer_is_a_sink(rt: HostRuntime) -> Result<(), Fail> {
    let alloc = rt.alloc();
    let mut written: Vec<u8> = Vec::new(alloc);
    let mut sink = OutputSink::new(&mut written);
    assert_eq!(rt; write_all(&mut sink, TEXT), Ok(()));
    assert_eq!(rt; written.as_slice(), TEXT);
    let mut room = [0u8; 10];
    let mut sink = OutputSink::new(Cursor::new(room.as_mut_slice()));
    assert_eq!(rt;
        write_all(&mut sink, TEXT),
        Err(WriteRefused::Fault { written: 10 })
    );
    Ok(())
}

/// A writer that takes three bytes of each piece, and counts its flushes.
#[derive(Drop)]
struct Flushed {
    flushes: u32,
}

impl Write for Flushed {
    fn write(&mut self, buf: &[u8]) -> io::Result<usize> {
        Ok(buf.len().min(3))
    }

    fn flush(&mut self) -> io::Result<()> {
        self.flushes = self.flushes.saturating_add(1);
        Ok(())
    }
}

#[test]
fn each_piece_is_flushed(rt: HostRuntime) -> Result<(), Fail> {
    let mut writer = Flushed { flushes: 0 };
    let mut sink = OutputSink::new(&mut writer);
    assert_eq!(rt; write_all(&mut sink, TEXT), Ok(()));
    assert_eq!(rt; writer.flushes, 5);
    Ok(())
}

fn read_by_single_bytes<L: Ledger>(alloc: Global, blank: Blank) -> Result<usize, Fail>
    requires { (blank.name ≡ L.name) × (blank.parts ≡ L.parts) × (0 < L.parts) }
{
    let mut steps: Steps<L> = Steps::new(blank);
    let mut source = MemorySource::new(alloc, TEXT.to_vec(alloc)?, 1, Vec::new(alloc));
    let bytes = read_counted(alloc, &mut source, 14, &mut steps)?;
    Ok(bytes.len())
}

#[test]
fn reads_with_a_count_of_steps(rt: HostRuntime) -> Result<(), Fail> {
    assert_eq!(rt;
        read_by_single_bytes::<Brand>(rt.alloc(), Blank::new(1))?,
        14
    );
    Ok(())
}
