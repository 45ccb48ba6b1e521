ghost use Rattle.std.specs.Prelude.{◌≡◌, ◌≤◌, ◌+◌, ◌<◌, ◌^◌, IfOk, Ok, Err, Option, Some, None, map, length};
ghost use Rattle.cx_text.specs.Lines.{lines_of};
ghost use Rattle.cx_text.specs.Views.{lines_left};
ghost use Rattle.cx_text.specs.declared.fault.Fault.{Fault as FaultSeen};
ghost use Rattle.cx_script.specs.Numbered.{numbered};
ghost use Rattle.cx_history.specs.IsRecord.{IsRecord};
ghost use Rattle.cx_history.specs.Views.{recorded_of};
ghost use Rattle.cx_record.specs.RecordSteps.{opening_state, ReadsTo};
ghost use Rattle.cx_record.specs.RosterSeen.{roster_seen};
ghost use Rattle.cx_record.specs.ReaderSeen.{state_of};
ghost use Rattle.cx_record.specs.Parsed.{record_meaning, AreShort};
ghost use Rattle.cx_record.specs.ReaderSeen.{MeansAs};

use crate::reader::{Reader, Room};
use crate::roster::Roster;
use cx_history::Record;
use cx_names::NoMemory;
use cx_scenario::{ReadErr, Scenario};
use cx_text::{Fault, Lines};
use std::alloc::Global;

/// Reads lines to their first fault, or to their end; `first` is the number of the first line.
fn read_lines<'a>(
    alloc: Global,
    reader: &mut Reader<'a>,
    first: u32,
    lines: Lines<'a>,
) -> Result<Option<Fault>, NoMemory>
    requires { state_of reader.old ≡ opening_state (roster_seen reader.old.roster) }
    ensures { IfOk result (λ fault. ReadsTo (roster_seen reader.old.roster) first (lines_left lines.entry) fault (state_of reader.new)) }
{
    let mut left = lines;
    let mut room = Room::new(alloc);
    let mut number = u64::from(first);
    while let Some(line) = left.next() {
        let fault = reader.take_line(alloc, &mut room, line)?;
        match fault {
            Some(kind) => return Ok(Some(Fault { line: number, kind })),
            None => number = next_number(number)?,
        }
    }
    match reader.place.fault_at_end() {
        None => Ok(None),
        Some(kind) => Ok(Some(Fault { line: number, kind })),
    }
}

/// The number of the next line.
fn next_number(number: u64) -> Result<u64, NoMemory>
    ensures { IfOk result (λ n. n ≡ number + 1) }
{
    number.checked_add(1).ok_or(NoMemory)
}

/// Reads the text of a record: what it says, or its first fault.
fn parse_text(
    alloc: Global,
    scenario: &Scenario,
    first: u32,
    room: usize,
    text: &[u8],
) -> Result<Result<Record, Fault>, NoMemory>
    ensures { IfOk result (λ found. MeansAs scenario.now first room text.now found) }
{
    let roster = Roster::of(alloc, scenario)?;
    let mut reader = Reader::new(alloc, roster);
    let fault = read_lines(alloc, &mut reader, first, Lines::of(room, text))?;
    let version = reader.roster.version;
    match fault {
        None => Ok(Ok(Record {
            version,
            lists: reader.lists,
        })),
        Some(fault) => Ok(Err(fault)),
    }
}

/// Reads the text of a record of a scenario.
///
/// The lines of the text are numbered from `first_line`, which is at most 2,147,483,648. `room` is the limit of the text in bytes, at most
/// 1,073,741,824: where the text is longer, the line that holds the first byte past it is too long.
///
/// Errors: the first fault of the text, with its line; no memory.
pub fn parse(
    alloc: Global,
    scenario: &Scenario,
    text: &[u8],
    first_line: u32,
    room: usize,
) -> Result<Record, ReadErr>
    requires room { room ≤ 1073741824 }
    requires first { first_line ≤ 2147483648 }
    ensures found { IfOk result (λ r. record_meaning scenario.now first_line room text.now ≡ Ok (recorded_of r)) }
    ensures bad { (f : FaultSeen) → result ≡ Err (ReadErr.Bad f) → record_meaning scenario.now first_line room text.now ≡ Err f }
    ensures well_formed { IfOk result (λ r. IsRecord (numbered scenario.now) (recorded_of r)) }
    ensures short { IfOk result (λ r. AreShort (recorded_of r)) }
{
    match parse_text(alloc, scenario, first_line, room, text) {
        Err(_) => Err(ReadErr::NoMemory),
        Ok(found) => match found {
            Err(fault) => Err(ReadErr::Bad(fault)),
            Ok(record_of) => Ok(record_of),
        },
    }
}
