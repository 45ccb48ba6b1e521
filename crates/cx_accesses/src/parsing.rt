ghost use Rattle.std.specs.Prelude.{◌≡◌, ◌≤◌, ◌+◌, map, IfOk, Err, None};
ghost use Rattle.cx_text.specs.Lines.{lines_of};
ghost use Rattle.cx_text.specs.Views.{lines_left};
ghost use Rattle.cx_text.specs.declared.fault.Fault.{Fault as FaultSeen};
ghost use Rattle.cx_history.specs.Views.{recorded_of};
ghost use Rattle.cx_script.specs.Script.{names_in};
ghost use Rattle.cx_races.specs.Races.{AreAccesses};
ghost use Rattle.cx_accesses.specs.AccessLines.{opening, read_line};
ghost use Rattle.cx_accesses.specs.AccessesMeant.{reads_of, AreMeant, IsFirstFault};
ghost use Rattle.cx_accesses.specs.AccessesSeen.{names_seen, state_of, ReadsTo, MeansAs};

use crate::accesses::Accesses;
use crate::names::Names;
use crate::reader::Reader;
use cx_history::Record;
use cx_names::NoMemory;
use cx_scenario::{ReadErr, Scenario};
use cx_text::{Fault, Lines};
use std::alloc::Global;

/// The number of the next line.
fn next_number(number: u64) -> Result<u64, NoMemory>
    ensures { IfOk result (λ n. n ≡ number + 1) }
{
    number.checked_add(1).ok_or(NoMemory)
}

/// Reads lines to their first fault, or to their end; `first` is the number of the first line.
fn read_lines<'a>(
    alloc: Global,
    reader: &mut Reader<'a>,
    first: u32,
    lines: Lines<'a>,
) -> Result<Option<Fault>, NoMemory>
    requires { state_of reader.old ≡ opening }
    ensures reads { IfOk result (λ fault. ReadsTo (names_seen reader.old.declared) (recorded_of reader.old.recorded.now) first (map read_line (lines_left lines.entry)) fault (state_of reader.new)) }
    ensures points { IfOk result (λ fault. fault ≡ None → AreAccesses (recorded_of reader.old.recorded.now) reader.new.accesses.items) }
{
    let mut left = lines;
    let mut words = Vec::new(alloc);
    let mut number = u64::from(first);
    while let Some(line) = left.next() {
        let fault = reader.take_line(&mut words, line)?;
        match fault {
            Some(kind) => return Ok(Some(Fault { line: number, kind })),
            None => number = next_number(number)?,
        }
    }
    match reader.place.fault_at_end() {
        None => Ok(None),
        Some(kind) => Ok(Some(Fault { line: number, kind })),
    }
}

/// Reads the text of a list of accesses: what it says, or its first fault.
fn parse_text(
    alloc: Global,
    scenario: &Scenario,
    recorded: &Record,
    first: u32,
    room: usize,
    text: &[u8],
) -> Result<Result<Accesses, Fault>, NoMemory>
    ensures means { IfOk result (λ found. MeansAs (names_in scenario.now) (recorded_of recorded.now) first (reads_of room text.now) found) }
    ensures points { IfOk result (λ found. IfOk found (λ a. AreAccesses (recorded_of recorded.now) a.accesses.items)) }
{
    let names = Names::of(alloc, scenario)?;
    let mut reader = Reader::new(alloc, names, recorded);
    let fault = read_lines(alloc, &mut reader, first, Lines::of(room, text))?;
    match fault {
        None => Ok(Ok(Accesses {
            accesses: reader.accesses,
            names: reader.names,
        })),
        Some(fault) => Ok(Err(fault)),
    }
}

/// Reads the text of a list of accesses to plain variables, which stands behind a scenario and a record of it.
///
/// The lines of the text are numbered from `first_line`, which is at most 4,294,967,295. `room` is the limit of the text in bytes, at most
/// 1,073,741,824: where the text is longer, the line that holds the first byte past it is too long.
///
/// Errors: the first fault of the text, with its line; no memory.
pub fn parse_accesses(
    alloc: Global,
    scenario: &Scenario,
    recorded: &Record,
    text: &[u8],
    first_line: u32,
    room: usize,
) -> Result<Accesses, ReadErr>
    requires room { room ≤ 1073741824 }
    ensures found { IfOk result (λ a. AreMeant (names_in scenario.now) (recorded_of recorded.now) (reads_of room text.now) a.accesses.items a.names) }
    ensures bad { (f : FaultSeen) → result ≡ Err (ReadErr.Bad f) → IsFirstFault (names_in scenario.now) (recorded_of recorded.now) first_line (reads_of room text.now) f }
    ensures points { IfOk result (λ a. AreAccesses (recorded_of recorded.now) a.accesses.items) }
{
    match parse_text(alloc, scenario, recorded, first_line, room, text) {
        Err(_) => Err(ReadErr::NoMemory),
        Ok(found) => match found {
            Err(fault) => Err(ReadErr::Bad(fault)),
            Ok(accesses) => Ok(accesses),
        },
    }
}
