// A source and a sink that never fail.
ghost use Rattle.std.specs.Prelude.{◌≡◌, ◌<◌, ◌≤◌, ◌++◌, List, ℕ, min, length, take, drop, Option, Some, None, Ok};
ghost use Rattle.std.specs.Io.{ReadsAtMost};
ghost use Rattle.std.specs.Io.KnownBytes.{ReadConsumes, WriteAppends};
ghost use Rattle.mg_io.specs.Bytes.{TakesSome};
ghost use Rattle.mg_io.specs.Causes.{HasCause};

use crate::copying::copy_front;
use crate::outside::{Failed, Sink, Source};
use std::marker::Model;

/// Gives the bytes of a vector, as many at a call as fit, and never fails.
#[derive(Drop)]
pub struct FirmSource {
    bytes: Vec<u8>,
    at: usize,
}

impl Model for FirmSource {
    ghost Value = { List ℕ };

    ghost view = { λ s. drop s.at s.bytes.items };

    ghost invariant = { λ s. s.at ≤ length s.bytes.items };
}

impl FirmSource {
    /// All of the bytes are left.
    pub fn new(bytes: Vec<u8>) -> FirmSource
        ensures { result ≡ bytes.items }
    {
        FirmSource { bytes, at: 0 }
    }
}

impl Source for FirmSource {
    ghost left = { λ s. Some s };

    ghost faults = { λ _. 0 };

    fn read(&mut self, buf: &mut [u8]) -> Result<usize, Failed>
        requires { 0 < length buf.old }

        ensures bound { ReadsAtMost result buf.new }
        ensures bytes { ReadConsumes (Some self.old) (Some self.new) result buf.new }
        ensures cause { HasCause 0 0 result }

        ensures count { result ≡ Ok (min (length buf.old) (length self.old)) }
        ensures given { buf.new ≡ take (length buf.old) self.old ++ drop (length self.old) buf.old }
        ensures left { self.new ≡ drop (length buf.old) self.old }
    {
        let count = copy_front(&self.bytes[self.at..], buf, usize::MAX);
        self.at += count;
        Ok(count)
    }
}

/// Takes each piece whole, keeps nothing of it, and never fails.
#[derive(Clone, Copy, Debug, Default)]
pub struct FirmSink;

impl FirmSink {
    /// A sink that never fails.
    pub fn new() -> FirmSink {
        FirmSink
    }
}

impl Sink for FirmSink {
    ghost taken = { λ _. None };

    ghost faults = { λ _. 0 };

    fn write(&mut self, piece: &[u8]) -> Result<usize, Failed>
        requires { 0 < length piece.now }

        ensures count { TakesSome result piece.now }
        ensures bytes { WriteAppends None None result piece.now }
        ensures cause { HasCause 0 0 result }

        ensures whole { result ≡ Ok (length piece.now) }
    {
        Ok(piece.len())
    }
}
