// Standard input and output, or any reader and writer of std, as a source and a sink.
ghost use Rattle.std.specs.Prelude.{◌≡◌, ◌<◌, List, ℕ, length, take, None, IfOk, IfSome, OnErr, ◌≤◌};
ghost use Rattle.std.specs.Io.{ReadsAtMost};
ghost use Rattle.std.specs.Io.KnownBytes.{ReadConsumes, WriteAppends, Appends};
ghost use Rattle.mg_io.specs.Bytes.{TakesSome};
ghost use Rattle.mg_io.specs.Causes.{HasCause, raised};
ghost use Rattle.mg_io.specs.Counted.{Counted};

use crate::outside::{Failed, Sink, Source};
use std::io::{Read, Write};
use std::marker::Model;

/// A reader, as standard input, with a count of its errors. It doesn't tell its bytes.
#[derive(Drop)]
pub struct InputSource<R> {
    reader: R,
    faults: u64,
}

impl<R> Model for InputSource<R> {
    ghost Value = { Counted R };

    ghost view = { λ s. record { inner = s.reader; faults = s.faults } };
}

impl<R> InputSource<R> {
    /// Reads from this reader, and has counted no error yet.
    pub fn new(reader: R) -> InputSource<R>
        ensures { result ≡ record { inner = reader; faults = 0 } }
    {
        InputSource { reader, faults: 0 }
    }
}

impl<R: Read> Source for InputSource<R> {
    ghost left = { λ _. None };

    ghost faults = { λ s. s.faults };

    fn read(&mut self, buf: &mut [u8]) -> Result<usize, Failed>
        requires { 0 < length buf.old }

        ensures bound { ReadsAtMost result buf.new }
        ensures bytes { ReadConsumes None None result buf.new }
        ensures cause { HasCause self.old.faults self.new.faults result }

        // What the reader did is handed on.
        ensures reader { ReadConsumes (R.remaining self.old.inner)
            (R.remaining self.new.inner) result buf.new }
        ensures err { OnErr result (self.new.faults ≡ raised self.old.faults) }
    {
        match self.reader.read(buf) {
            Ok(count) => Ok(count),
            Err(_) => {
                self.faults = self.faults.saturating_add(1);
                Err(Failed)
            }
        }
    }
}

/// A writer, as standard output, with a count of its errors. It is flushed after each piece, and
/// doesn't tell its bytes.
#[derive(Drop)]
pub struct OutputSink<W> {
    writer: W,
    faults: u64,
}

impl<W> Model for OutputSink<W> {
    ghost Value = { Counted W };

    ghost view = { λ s. record { inner = s.writer; faults = s.faults } };
}

impl<W> OutputSink<W> {
    /// Writes to this writer, and has counted no error yet.
    pub fn new(writer: W) -> OutputSink<W>
        ensures { result ≡ record { inner = writer; faults = 0 } }
    {
        OutputSink { writer, faults: 0 }
    }
}

impl<W: Write> Sink for OutputSink<W> {
    ghost taken = { λ _. None };

    ghost faults = { λ s. s.faults };

    /// A writer that takes nothing has failed, and so has one that takes bytes and can't flush them.
    fn write(&mut self, piece: &[u8]) -> Result<usize, Failed>
        requires { 0 < length piece.now }

        ensures count { TakesSome result piece.now }
        ensures bytes { WriteAppends None None result piece.now }
        ensures cause { HasCause self.old.faults self.new.faults result }

        // What the writer did is handed on.
        ensures writer { IfOk result (λ n. Appends (W.contents self.old.inner)
            (W.contents self.new.inner) (take n piece.now)) }
        ensures err { OnErr result (self.new.faults ≡ raised self.old.faults) }
    {
        match write_through(&mut self.writer, piece) {
            Some(count) => Ok(count),
            None => {
                self.faults = self.faults.saturating_add(1);
                Err(Failed)
            }
        }
    }
}

// Writes from the front of the piece and flushes; None at an error, and where nothing was taken.
fn write_through<W: Write>(writer: &mut W, piece: &[u8]) -> Option<usize>
    ensures count { IfSome result (λ n. (0 < n) × (n ≤ length piece.now)) }
    ensures bytes { IfSome result (λ n. Appends (W.contents writer.old) (W.contents writer.new)
        (take n piece.now)) }
{
    match writer.write(piece) {
        Ok(0) | Err(_) => None,
        Ok(count) => match writer.flush() {
            Ok(()) => Some(count),
            Err(_) => None,
        },
    }
}
