ghost use Rattle.std.specs.Prelude.{◌≡◌, ◌<◌, IfOk, Ok, Err, Option, Some, None};
ghost use Rattle.cx_text.specs.Lines.{lines_of};
ghost use Rattle.cx_text.specs.Views.{lines_left};
ghost use Rattle.cx_scenario.specs.Views.{state_of};
ghost use Rattle.cx_scenario.specs.Steps.{opening_state};
ghost use Rattle.cx_scenario.specs.Finished.{ReadsTo};
ghost use Rattle.cx_scenario.specs.Whole.{ReadsAs};

use crate::reader::{Reader, Room, next_number};
use cx_names::NoMemory;
use cx_text::{Fault, Lines};
use std::alloc::Global;

/// Why a text gives no scenario.
#[derive(Clone, Copy)]
pub enum ReadErr {
    /// The text has this first fault.
    Bad(Fault),
    /// Memory ran out.
    NoMemory,
}

/// Reads lines to their first fault, or to their end.
fn read_lines<'a>(
    alloc: Global,
    reader: &mut Reader<'a>,
    lines: Lines<'a>,
) -> Result<Option<Fault>, NoMemory>
    requires { state_of reader.old ≡ opening_state }
    ensures { IfOk result (λ fault. ReadsTo (lines_left lines.entry) fault (state_of reader.new)) }
{
    let mut left = lines;
    let mut room = Room::new(alloc);
    let mut count = 0u64;
    while let Some(line) = left.next() {
        let number = next_number(count)?;
        let fault = reader.take_line(alloc, &mut room, line)?;
        match fault {
            Some(kind) => return Ok(Some(Fault { line: number, kind })),
            None => count = number,
        }
    }
    let fault = reader.fault_at_end(count)?;
    Ok(fault)
}

/// Reads a text of which no more than one byte past `limit` bytes counts: what it says, or its
/// first fault.
pub fn read_text<'a>(
    alloc: Global,
    limit: usize,
    text: &'a [u8],
) -> Result<Result<Reader<'a>, Fault>, NoMemory>
    ensures { IfOk result (λ found. ReadsAs limit text.now found) }
{
    let mut reader = Reader::new(alloc)?;
    let fault = read_lines(alloc, &mut reader, Lines::of(limit, text))?;
    match fault {
        None => Ok(Ok(reader)),
        Some(fault) => Ok(Err(fault)),
    }
}
