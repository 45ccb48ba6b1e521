ghost use Rattle.std.specs.Prelude.{◌≡◌, ◌≤◌, ◌==◌, ◌+◌, ◌-◌, suc, IfOk, Ok, Err, Option, Some, None, length, take, drop};
ghost use Rattle.std.specs.List.{position_or_len};
ghost use Rattle.cx_text.specs.Lines.{lines_of};
ghost use Rattle.cx_text.specs.Views.{lines_left};
ghost use Rattle.cx_scenario.specs.Views.{state_of};
ghost use Rattle.cx_scenario.specs.Steps.{opening_state};
ghost use Rattle.cx_scenario.specs.Front.{FrontReads, bytes_of, line_bytes};
ghost use Rattle.cx_scenario.specs.Whole.{FrontAs};

use crate::reader::{Reader, Room, next_number};
use cx_names::NoMemory;
use cx_text::{Fault, Lines};
use std::alloc::Global;

/// Reads lines to their first fault, to the `end` of main, or to their end; with how many were
/// read.
fn read_front<'a>(
    alloc: Global,
    reader: &mut Reader<'a>,
    lines: Lines<'a>,
) -> Result<(Option<Fault>, u64), NoMemory>
    requires { state_of reader.old ≡ opening_state }
    ensures { IfOk result (λ p. FrontReads (lines_left lines.entry) p.0 (state_of reader.new) p.1) }
{
    let mut left = lines;
    let mut room = Room::new(alloc);
    let mut count = 0u64;
    while let Some(line) = left.next() {
        let number = next_number(count)?;
        let fault = reader.take_line(alloc, &mut room, line)?;
        if let Some(kind) = fault {
            return Ok((Some(Fault { line: number, kind }), number));
        }
        let over = reader.place.is_over();
        if over {
            return Ok((None, number));
        }
        count = number;
    }
    let fault = reader.fault_at_end(count)?;
    Ok((fault, count))
}

/// Where the first line feed stands; the length where there is none.
fn feed_at(text: &[u8]) -> usize
    ensures { result ≡ position_or_len (λ b. b == 10) text.now }
{
    match text.iter().position(|b| *b == b'\n') {
        Some(at) => at,
        None => text.len(),
    }
}

/// The bytes of the first line with its end.
fn line_bytes(text: &[u8]) -> usize
    ensures { result ≡ line_bytes text.now }
{
    let end = feed_at(text);
    if end < text.len() {
        end + 1
    } else {
        text.len()
    }
}

/// The bytes of so many lines with their ends.
fn bytes_of(text: &[u8], count: u64) -> usize
    ensures { result ≡ bytes_of count text.now }
{
    let mut rest = text;
    let mut bytes = 0usize;
    for i in 0..count {
        let here = line_bytes(rest);
        let (_, after) = rest.split_at(here);
        bytes += here;
        rest = after;
    }
    bytes
}

/// Reads the front of a text, of which no more than one byte past `room` bytes counts: what it
/// says with its bytes and its lines, or its first fault.
pub fn read_front_text<'a>(
    alloc: Global,
    room: usize,
    text: &'a [u8],
) -> Result<Result<(Reader<'a>, u64), Fault>, NoMemory>
    ensures { IfOk result (λ found. FrontAs room text.now found) }
{
    let mut reader = Reader::new(alloc)?;
    let (fault, count) = read_front(alloc, &mut reader, Lines::of(room, text))?;
    match fault {
        None => Ok(Ok((reader, count))),
        Some(fault) => Ok(Err(fault)),
    }
}

/// The bytes of so many lines of a text, of which no more than one byte past `room` bytes counts.
pub fn front_bytes(room: usize, text: &[u8], count: u64) -> usize
    ensures { result ≡ bytes_of count (take (suc room) text.now) }
{
    if text.len() <= room {
        return bytes_of(text, count);
    }
    bytes_of(&text[..room + 1], count)
}
