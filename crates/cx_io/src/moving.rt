ghost use Rattle.std.specs.Prelude.{◌≡◌, ◌<◌, ◌≤◌, ◌^◌, IfOk};
ghost use Rattle.cx_io.specs.Edge.{IsRead, Rose, WritesTo};

use crate::sink::{Pushed, Sink};
use crate::source::{Pulled, Source};
use std::alloc::Global;

/// Why a source was not read to its end.
#[derive(Clone, Copy, Debug, PartialEq, Eq)]
pub enum ReadFail {
    /// A pull failed.
    Failed,
    /// Memory ran out.
    NoMemory,
}

/// How many bytes are asked of a source at once.
const PIECE: usize = 4_096;

/// Reads what a source has left, to its end or to one byte past `limit`.
///
/// `limit` is a number of bytes below 2^32. An answer that is longer than `limit` says that the source had more.
pub fn read_all<R: Source>(alloc: Global, source: &mut R, limit: usize) -> Result<Vec<u8>, ReadFail>
    requires { limit < 2 ^ 32 }
    ensures read { IfOk result (λ bytes. IsRead limit (R.left source.old) bytes.items) }
    ensures faults { R.faults source.old ≤ R.faults source.new }
    ensures failed { result ≡ Err ReadFail.Failed → Rose (R.faults source.old) (R.faults source.new) }
{
    let mut bytes = Vec::new(alloc);
    let mut piece = [0u8; PIECE];
    while bytes.len() <= limit {
        let most = (limit + 1 - bytes.len()).min(PIECE);
        let front = &mut piece[..most];
        match source.pull(front) {
            Pulled::End => return Ok(bytes),
            Pulled::Failed => return Err(ReadFail::Failed),
            Pulled::Got(count) => {
                let (got, _) = front.split_at(count);
                match bytes.extend_from_slice(got) {
                    Ok(()) => {}
                    Err(_) => return Err(ReadFail::NoMemory),
                }
            }
        }
    }
    Ok(bytes)
}

/// Writes the whole text and answers true, or answers false at the first failed push.
pub fn write_all<K: Sink>(sink: &mut K, text: &[u8]) -> bool
    ensures { WritesTo result (K.taken sink.old) (K.taken sink.new) (K.faults sink.old) (K.faults sink.new) text.now }
{
    let mut rest = text;
    while !rest.is_empty() {
        match sink.push(rest) {
            Pushed::Failed => return false,
            Pushed::Took(count) => {
                let (_, after) = rest.split_at(count);
                rest = after;
            }
        }
    }
    true
}
