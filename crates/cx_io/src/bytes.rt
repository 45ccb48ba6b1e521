ghost use Rattle.std.specs.Prelude.{◌≡◌, ◌≤◌, ◌<◌, length, take, Some};

use crate::source::{Pulled, Source};

/// Bytes in memory, of which every pull succeeds.
#[derive(Drop)]
pub struct SureBytes {
    bytes: Vec<u8>,
    at: usize,
    most: usize,
    ghost within: { at ≤ length bytes.items },
    ghost some: { 0 < most },
}

impl SureBytes {
    ghost use Rattle.cx_io.specs.InMemory.{left_of_sure};

    /// Gives these bytes, at most `most` of them a call.
    pub fn new(bytes: Vec<u8>, most: usize) -> SureBytes
        requires { 0 < most }
        ensures { left_of_sure result ≡ bytes.items }
    {
        SureBytes { bytes, at: 0, most }
    }
}

impl Source for SureBytes {
    ghost use Rattle.cx_io.specs.InMemory.{left_of_sure};

    ghost left = { λ s. Some (left_of_sure s) };

    ghost faults = { λ _. 0 };

    fn pull(&mut self, out: &mut [u8]) -> Pulled {
        let rest = &self.bytes[self.at..];
        if rest.is_empty() {
            return Pulled::End;
        }
        let count = rest.len().min(out.len()).min(self.most);
        put_front(out, &rest[..count]);
        self.at += count;
        Pulled::Got(count)
    }
}

/// Puts the bytes at the front of the buffer.
fn put_front(out: &mut [u8], bytes: &[u8])
    requires { length bytes.now ≤ length out.old }
    ensures { take (length bytes.now) out.new ≡ bytes.now }
{
    let front = &mut out[..bytes.len()];
    front.copy_from_slice(bytes);
}

/// Bytes in memory, of which chosen pulls fail.
#[derive(Drop)]
pub struct Bytes {
    bytes: SureBytes,
    failing: Vec<u64>,
    calls: u64,
    faults: u64,
}

impl Bytes {
    ghost use Rattle.cx_io.specs.InMemory.{left_of};

    /// Gives these bytes, at most `most` of them a call, and fails at the calls with the numbers in `failing`,
    /// counted from 0.
    pub fn new(bytes: Vec<u8>, most: usize, failing: Vec<u64>) -> Bytes
        requires { 0 < most }
        ensures { left_of result ≡ bytes.items }
    {
        Bytes {
            bytes: SureBytes::new(bytes, most),
            failing,
            calls: 0,
            faults: 0,
        }
    }
}

impl Source for Bytes {
    ghost use Rattle.cx_io.specs.InMemory.{left_of};

    ghost left = { λ s. Some (left_of s) };

    ghost faults = { λ s. s.faults };

    fn pull(&mut self, out: &mut [u8]) -> Pulled {
        let call = self.calls;
        self.calls = self.calls.saturating_add(1);
        if self.failing.contains(&call) {
            self.faults = self.faults.saturating_add(1);
            return Pulled::Failed;
        }
        self.bytes.pull(out)
    }
}
