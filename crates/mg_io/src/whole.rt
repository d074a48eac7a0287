// Reading all that a source has, and writing all of a text.
ghost use Rattle.std.specs.Prelude.{◌≡◌, ◌≢◌, ◌+◌, ◌<◌, ◌≤◌, length, take, drop, Some, Err, IfOk, IfErr, OnOk, OnErr, IfSome};
ghost use Rattle.std.specs.Io.{ReadsAtMost};
ghost use Rattle.std.specs.Io.KnownBytes.{ReadConsumes, Appends};
ghost use Rattle.mg_io.specs.Bytes.{ReadsWhole, LosesUpTo};
ghost use Rattle.mg_io.specs.Causes.{HasCause, Rose};
ghost use Rattle.mg_io.specs.Written.{written_of};

use crate::outside::{Failed, Sink, Source};
use crate::steps::Steps;
use std::alloc::Global;
use std::marker::Brand;
use std::sync::ledger::{Blank, Ledger};
use thiserror::Error;

/// The greatest limit of bytes that may be set for reading.
pub const MOST_READ: usize = 67_108_864;

/// How many bytes are asked for at a call.
const CHUNK: usize = 4096;

/// Why a source wasn't read whole.
#[derive(Clone, Copy, Debug, PartialEq, Eq, Error)]
pub enum ReadRefused {
    /// The source failed.
    #[error("the source failed")]
    Fault,

    /// The source has more bytes than the limit.
    #[error("there are more bytes than the limit")]
    TooLong,

    /// Want of memory.
    #[error("out of memory")]
    NoMemory,
}

/// Why a text wasn't written whole.
#[derive(Clone, Copy, Debug, PartialEq, Eq, Error)]
pub enum WriteRefused {
    /// The sink failed after it had taken so many bytes of the text.
    #[error("the sink failed after {written} bytes")]
    Fault { written: usize },
}

/// Reads all bytes up to the end of input. `Fault` comes only where the source failed in this call,
/// `TooLong` exactly where a byte after the first `limit` bytes was read with no fault before it.
/// After a refusal the bytes read are lost.
pub fn read_all<S: Source>(
    alloc: Global,
    source: &mut S,
    limit: usize,
) -> Result<Vec<u8>, ReadRefused>
    requires { limit ≤ MOST_READ }

    ensures whole { IfOk result (λ bytes. ReadsWhole (S.left source.old)
        (S.left source.new) bytes.items) }
    ensures within { IfOk result (λ bytes. length bytes.items ≤ limit) }

    ensures fault { result ≡ Err ReadRefused.Fault →
        Rose (S.faults source.old) (S.faults source.new) }
    ensures quiet { result ≢ Err ReadRefused.Fault → S.faults source.new ≡ S.faults source.old }
    ensures later { S.faults source.old ≤ S.faults source.new }

    ensures too_long { result ≡ Err ReadRefused.TooLong →
        IfSome (S.left source.old) (λ all. (limit < length all) ×
        (S.left source.new ≡ Some (drop (limit + 1) all))) }
    ensures lost { LosesUpTo (S.left source.old) (S.left source.new) (limit + 1) }
{
    read_with::<S, Brand>(alloc, source, limit, Blank::new(1))
}

/// As `read_all`, with a step for each call of `read`: at most `limit + 1` of them, whatever the
/// source is.
pub fn read_counted<S: Source, L: Ledger>(
    alloc: Global,
    source: &mut S,
    limit: usize,
    steps: &mut Steps<L>,
) -> Result<Vec<u8>, ReadRefused>
    requires { limit ≤ MOST_READ }

    ensures whole { IfOk result (λ bytes. ReadsWhole (S.left source.old)
        (S.left source.new) bytes.items) }
    ensures within { IfOk result (λ bytes. length bytes.items ≤ limit) }

    ensures fault { result ≡ Err ReadRefused.Fault →
        Rose (S.faults source.old) (S.faults source.new) }
    ensures quiet { result ≢ Err ReadRefused.Fault → S.faults source.new ≡ S.faults source.old }
    ensures later { S.faults source.old ≤ S.faults source.new }

    ensures too_long { result ≡ Err ReadRefused.TooLong →
        IfSome (S.left source.old) (λ all. (limit < length all) ×
        (S.left source.new ≡ Some (drop (limit + 1) all))) }
    ensures lost { LosesUpTo (S.left source.old) (S.left source.new) (limit + 1) }

    ensures cost { (steps.old < steps.new) × (steps.new ≤ steps.old + (limit + 1)) }
{
    let mut chunk = [0; CHUNK];
    read_by_chunks(alloc, source, &mut chunk, limit, steps)
}

// Reads whole with a ledger that was never written to.
fn read_with<S: Source, L: Ledger>(
    alloc: Global,
    source: &mut S,
    limit: usize,
    blank: Blank,
) -> Result<Vec<u8>, ReadRefused>
    requires limit { limit ≤ MOST_READ }
    requires blank { (blank.name ≡ L.name) × (blank.parts ≡ L.parts) × (0 < L.parts) }

    ensures whole { IfOk result (λ bytes. ReadsWhole (S.left source.old)
        (S.left source.new) bytes.items) }
    ensures within { IfOk result (λ bytes. length bytes.items ≤ limit) }
    ensures fault { result ≡ Err ReadRefused.Fault →
        Rose (S.faults source.old) (S.faults source.new) }
    ensures quiet { result ≢ Err ReadRefused.Fault → S.faults source.new ≡ S.faults source.old }
    ensures later { S.faults source.old ≤ S.faults source.new }
    ensures too_long { result ≡ Err ReadRefused.TooLong →
        IfSome (S.left source.old) (λ all. (limit < length all) ×
        (S.left source.new ≡ Some (drop (limit + 1) all))) }
    ensures lost { LosesUpTo (S.left source.old) (S.left source.new) (limit + 1) }
{
    let mut steps: Steps<L> = Steps::new(blank);
    read_counted(alloc, source, limit, &mut steps)
}

// Reads whole, a chunk at a time. At `limit` bytes it asks for one more byte, and for no others.
fn read_by_chunks<S: Source, L: Ledger>(
    alloc: Global,
    source: &mut S,
    chunk: &mut [u8],
    limit: usize,
    steps: &mut Steps<L>,
) -> Result<Vec<u8>, ReadRefused>
    requires { 0 < length chunk.old }

    ensures whole { IfOk result (λ bytes. ReadsWhole (S.left source.old)
        (S.left source.new) bytes.items) }
    ensures within { IfOk result (λ bytes. length bytes.items ≤ limit) }
    ensures fault { result ≡ Err ReadRefused.Fault →
        Rose (S.faults source.old) (S.faults source.new) }
    ensures quiet { result ≢ Err ReadRefused.Fault → S.faults source.new ≡ S.faults source.old }
    ensures later { S.faults source.old ≤ S.faults source.new }
    ensures too_long { result ≡ Err ReadRefused.TooLong →
        IfSome (S.left source.old) (λ all. (limit < length all) ×
        (S.left source.new ≡ Some (drop (limit + 1) all))) }
    ensures lost { LosesUpTo (S.left source.old) (S.left source.new) (limit + 1) }
    ensures cost { (steps.old < steps.new) × (steps.new ≤ steps.old + (limit + 1)) }
{
    let mut bytes = Vec::new(alloc);
    loop {
        let room = (limit - bytes.len()).min(chunk.len()).max(1);
        let count = match read_step(source, &mut chunk[..room], steps) {
            Ok(count) => count,
            Err(Failed) => return Err(ReadRefused::Fault),
        };
        if count == 0 {
            return Ok(bytes);
        }
        if bytes.len() == limit {
            return Err(ReadRefused::TooLong);
        }
        if bytes.extend_from_slice(&chunk[..count]).is_err() {
            return Err(ReadRefused::NoMemory);
        }
    }
}

// One call of `read`, and one step.
fn read_step<S: Source, L: Ledger>(
    source: &mut S,
    buf: &mut [u8],
    steps: &mut Steps<L>,
) -> Result<usize, Failed>
    requires { 0 < length buf.old }
    ensures bound { ReadsAtMost result buf.new }
    ensures bytes { ReadConsumes (S.left source.old) (S.left source.new) result buf.new }
    ensures cause { HasCause (S.faults source.old) (S.faults source.new) result }
    ensures step { steps.new ≡ steps.old + 1 }
{
    steps.tick();
    source.read(buf)
}

/// Writes all bytes in order, and takes no memory. `Fault` comes only where the sink failed in this
/// call: it has taken exactly the first `written` bytes then.
pub fn write_all<K: Sink>(sink: &mut K, bytes: &[u8]) -> Result<(), WriteRefused>
    ensures whole { OnOk result (Appends (K.taken sink.old) (K.taken sink.new) bytes.now) }

    ensures fault { OnErr result (Rose (K.faults sink.old) (K.faults sink.new)) }
    ensures short { IfErr result (λ refused. written_of refused < length bytes.now) }
    ensures front { IfErr result (λ refused.
        Appends (K.taken sink.old) (K.taken sink.new) (take (written_of refused) bytes.now)) }
    ensures quiet { OnOk result (K.faults sink.new ≡ K.faults sink.old) }
    ensures later { K.faults sink.old ≤ K.faults sink.new }
{
    let mut written = 0;
    while written < bytes.len() {
        match sink.write(&bytes[written..]) {
            Ok(count) => written += count,
            Err(Failed) => return Err(WriteRefused::Fault { written }),
        }
    }
    Ok(())
}
