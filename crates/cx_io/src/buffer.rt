ghost use Rattle.std.specs.Prelude.{◌≡◌, ◌<◌, Some, IfSome};

use crate::sink::{Pushed, Sink};

/// A buffer in memory that takes every push.
///
/// Where it finds no memory for bytes it answers as if it had, and tells no more what it has taken.
#[derive(Drop)]
pub struct SureBuffer {
    bytes: Vec<u8>,
    lost: bool,
    most: usize,
    ghost some: { 0 < most },
}

impl SureBuffer {
    ghost use Rattle.cx_io.specs.InMemory.{taken_by_sure};

    /// Has taken `bytes` and takes at most `most` further ones a call.
    pub fn new(bytes: Vec<u8>, most: usize) -> SureBuffer
        requires { 0 < most }
        ensures { taken_by_sure result ≡ Some bytes.items }
    {
        SureBuffer {
            bytes,
            lost: false,
            most,
        }
    }

    /// The bytes that it has taken and found memory for.
    pub fn bytes(&self) -> &[u8]
        ensures { IfSome (taken_by_sure self.now) (λ taken. result.now ≡ taken) }
    {
        self.bytes.as_slice()
    }
}

impl Sink for SureBuffer {
    ghost use Rattle.cx_io.specs.InMemory.{taken_by_sure};

    ghost taken = { λ s. taken_by_sure s };

    ghost faults = { λ _. 0 };

    fn push(&mut self, piece: &[u8]) -> Pushed {
        let count = piece.len().min(self.most);
        match self.bytes.extend_from_slice(&piece[..count]) {
            Ok(()) => {}
            Err(_) => self.lost = true,
        }
        Pushed::Took(count)
    }
}

/// A buffer in memory of which chosen pushes fail.
///
/// Where it finds no memory for bytes it answers as if it had, and tells no more what it has taken.
#[derive(Drop)]
pub struct Buffer {
    buffer: SureBuffer,
    failing: Vec<u64>,
    calls: u64,
    faults: u64,
}

impl Buffer {
    ghost use Rattle.cx_io.specs.InMemory.{taken_by};

    /// Has taken `bytes`, takes at most `most` further ones a call, and fails at the calls with the numbers in
    /// `failing`, counted from 0.
    pub fn new(bytes: Vec<u8>, most: usize, failing: Vec<u64>) -> Buffer
        requires { 0 < most }
        ensures { taken_by result ≡ Some bytes.items }
    {
        Buffer {
            buffer: SureBuffer::new(bytes, most),
            failing,
            calls: 0,
            faults: 0,
        }
    }

    /// The bytes that it has taken and found memory for.
    pub fn bytes(&self) -> &[u8]
        ensures { IfSome (taken_by self.now) (λ taken. result.now ≡ taken) }
    {
        self.buffer.bytes()
    }
}

impl Sink for Buffer {
    ghost use Rattle.cx_io.specs.InMemory.{taken_by};

    ghost taken = { λ s. taken_by s };

    ghost faults = { λ s. s.faults };

    fn push(&mut self, piece: &[u8]) -> Pushed {
        let call = self.calls;
        self.calls = self.calls.saturating_add(1);
        if self.failing.contains(&call) {
            self.faults = self.faults.saturating_add(1);
            return Pushed::Failed;
        }
        self.buffer.push(piece)
    }
}
