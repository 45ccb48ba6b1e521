ghost use Rattle.std.specs.Prelude.{None};

use crate::sink::{Pushed, Sink};
use crate::source::{Pulled, Source};
use std::io::{Read, Write};

/// A reader of the system. Nothing is told of its bytes; each error counts as one fault.
#[derive(Drop)]
pub struct StdIn<R: Read + Drop> {
    reader: R,
    faults: u64,
}

impl<R: Read + Drop> StdIn<R> {
    /// Reads from `reader`, with no fault so far.
    pub fn new(reader: R) -> Self {
        StdIn { reader, faults: 0 }
    }
}

impl<R: Read + Drop> Source for StdIn<R> {
    ghost left = { λ _. None };

    ghost faults = { λ s. s.faults };

    fn pull(&mut self, out: &mut [u8]) -> Pulled {
        match self.reader.read(out) {
            Ok(0) => Pulled::End,
            Ok(count) => Pulled::Got(count),
            Err(_) => {
                self.faults = self.faults.saturating_add(1);
                Pulled::Failed
            }
        }
    }
}

/// A writer of the system. Nothing is told of its bytes; each error, and each piece of which it takes nothing, counts
/// as one fault.
#[derive(Drop)]
pub struct StdOut<W: Write + Drop> {
    writer: W,
    faults: u64,
}

impl<W: Write + Drop> StdOut<W> {
    /// Writes to `writer`, with no fault so far.
    pub fn new(writer: W) -> Self {
        StdOut { writer, faults: 0 }
    }
}

impl<W: Write + Drop> Sink for StdOut<W> {
    ghost taken = { λ _. None };

    ghost faults = { λ s. s.faults };

    fn push(&mut self, piece: &[u8]) -> Pushed {
        match self.writer.write(piece) {
            Ok(0) | Err(_) => {
                self.faults = self.faults.saturating_add(1);
                Pushed::Failed
            }
            Ok(count) => Pushed::Took(count),
        }
    }
}
