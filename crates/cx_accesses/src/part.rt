ghost use Rattle.std.specs.Prelude.{◌≡◌, ◌≢◌, ◌==◌, ◌&&◌, ◌≤◌, ◌+◌, ◌-◌, if◌then◌else◌, suc, IfOk, Ok, Err, Some, None, map, length, take};
ghost use Rattle.std.specs.List.{position_or_len};
ghost use Rattle.cx_text.specs.Lines.{lines_of};
ghost use Rattle.cx_text.specs.Views.{lines_left, now_all, line_seen as text_line_seen};
ghost use Rattle.cx_text.specs.declared.fault.Fault.{Fault as FaultSeen};
ghost use Rattle.cx_script.specs.Numbered.{numbered};
ghost use Rattle.cx_scenario.specs.Front.{bytes_of, line_bytes};
ghost use Rattle.cx_history.specs.IsRecord.{IsRecord};
ghost use Rattle.cx_history.specs.Views.{recorded_of};
ghost use Rattle.cx_record.specs.Roster.{roster_of};
ghost use Rattle.cx_record.specs.ItemLines.{part_of};
ghost use Rattle.cx_record.specs.RecordFaults.{read_line};
ghost use Rattle.cx_record.specs.Parsed.{AreShort};
ghost use Rattle.cx_accesses.specs.PartFound.{fault_found, IsEnd};
ghost use Rattle.cx_accesses.specs.RecordPart.{item_limit, is_done, ends_record, count_to_done, part_lines, is_item, says_item, item_past, is_tried_before, is_sooner, with_limit, part_meaning, IsRecordPart};

use cx_history::Record;
use cx_names::NoMemory;
use cx_record::parse;
use cx_scenario::{ReadErr, Scenario};
use cx_text::{Fault, FaultKind, ItemForm, Line, Lines, Value, read_line, split_words};
use std::alloc::Global;

/// How many items a record has at most that is followed by accesses.
const ITEM_LIMIT: u32 = 65_536;

// ---- where the record ends

/// Whether words are the one word `done`.
fn is_done(words: &[&[u8]]) -> bool
    ensures { result ≡ is_done (now_all words.now) }
{
    match words {
        [word] => b"done".as_slice() == *word,
        _ => false,
    }
}

/// Whether a line ends the record.
fn ends_record<'a>(words: &mut Vec<&'a [u8]>, line: Line<'a>) -> Result<bool, NoMemory>
    ensures { IfOk result (λ ends. ends ≡ ends_record (text_line_seen line.entry)) }
{
    split_words(words, line.bytes)?;
    Ok(is_done(words))
}

/// The next number.
fn next_number(number: u64) -> Result<u64, NoMemory>
    ensures { IfOk result (λ n. n ≡ number + 1) }
{
    number.checked_add(1).ok_or(NoMemory)
}

/// How many lines there are up to and with the first `done`.
fn count_to_done<'a>(alloc: Global, lines: Lines<'a>) -> Result<u64, NoMemory>
    ensures { IfOk result (λ n. n ≡ count_to_done (lines_left lines.entry)) }
{
    let mut left = lines;
    let mut words = Vec::new(alloc);
    let mut count = 0u64;
    while let Some(line) = left.next() {
        count = next_number(count)?;
        let ends = ends_record(&mut words, line)?;
        if ends {
            return Ok(count);
        }
    }
    Ok(count)
}

/// Where the first line feed stands; the length where there is none.
fn feed_at(text: &[u8]) -> usize
    ensures { result ≡ position_or_len (λ b. b == 10) text.now }
{
    match text.iter().position(|b| *b == b'\n') {
        Some(at) => at,
        None => text.len(),
    }
}

/// The bytes of the first line with its end.
fn line_bytes(text: &[u8]) -> usize
    ensures { result ≡ line_bytes text.now }
{
    let end = feed_at(text);
    if end < text.len() {
        end + 1
    } else {
        text.len()
    }
}

/// The bytes of so many lines with their ends.
fn bytes_of(text: &[u8], count: u64) -> usize
    ensures { result ≡ bytes_of count text.now }
{
    let mut rest = text;
    let mut bytes = 0usize;
    for i in 0..count {
        let here = line_bytes(rest);
        let (_, after) = rest.split_at(here);
        bytes += here;
        rest = after;
    }
    bytes
}

/// The bytes of so many lines of a text, of which no more than one byte past `room` bytes counts.
fn part_bytes(room: usize, text: &[u8], count: u64) -> usize
    requires { room ≤ 1073741824 }
    ensures { result ≡ bytes_of count (take (suc room) text.now) }
{
    if text.len() <= room {
        return bytes_of(text, count);
    }
    bytes_of(&text[..room + 1], count)
}

// ---- its limit

/// Whether a row of the table of record lines is that of an item.
fn is_item(form: ItemForm) -> bool
    ensures { result ≡ is_item (part_of form) }
{
    !matches!(
        form,
        ItemForm::RecordOne
            | ItemForm::Acts
            | ItemForm::Unstarted
            | ItemForm::EndOfActs
            | ItemForm::Done
            | ItemForm::StuckAt
    )
}

/// Whether a line says an item.
fn says_item<'a>(
    words: &mut Vec<&'a [u8]>,
    values: &mut Vec<Value<'a>>,
    line: Line<'a>,
) -> Result<bool, NoMemory>
    ensures { IfOk result (λ says. says ≡ says_item (read_line (text_line_seen line.entry))) }
{
    split_words(words, line.bytes)?;
    let form: Option<ItemForm> = read_line(words, values)?;
    match form {
        None => Ok(false),
        Some(form) => Ok(is_item(form)),
    }
}

/// Whether a line says one item more where no more are left.
fn is_past(says: bool, more: u32) -> bool
    ensures { result ≡ (says && (more == 0)) }
{
    says && more == 0
}

/// How many more items may follow.
fn fewer(says: bool, more: u32) -> u32
    ensures { result ≡ (if says then more - 1 else more) }
{
    if says { more.saturating_sub(1) } else { more }
}

/// The number of the line of the item that is one past the limit, where there is one; `first` is the number of the first line.
fn item_past<'a>(alloc: Global, first: u32, lines: Lines<'a>) -> Result<Option<u64>, NoMemory>
    ensures { IfOk result (λ line. line ≡ item_past first item_limit (map read_line (lines_left lines.entry))) }
{
    let mut left = lines;
    let mut words = Vec::new(alloc);
    let mut values = Vec::new(alloc);
    let mut number = u64::from(first);
    let mut more = ITEM_LIMIT;
    while let Some(line) = left.next() {
        let says = says_item(&mut words, &mut values, line)?;
        let past = is_past(says, more);
        if past {
            return Ok(Some(number));
        }
        more = fewer(says, more);
        number = next_number(number)?;
    }
    Ok(None)
}

/// Whether a kind is tried on a line before TooMany.
fn is_tried_before(kind: FaultKind) -> bool
    ensures { result ≡ is_tried_before kind }
{
    matches!(
        kind,
        FaultKind::NotAscii | FaultKind::TooLong | FaultKind::BadVersion | FaultKind::BadWord
    )
}

/// The first fault, where this one is found and the line of this number, if any, has one item too many.
fn sooner(past: Option<u64>, fault: Fault) -> Fault
    ensures { Some result ≡ with_limit past (Some fault) }
{
    match past {
        None => fault,
        Some(line) => {
            if fault.line < line || (fault.line == line && is_tried_before(fault.kind)) {
                fault
            } else {
                Fault {
                    line,
                    kind: FaultKind::TooMany,
                }
            }
        }
    }
}

// ---- reading it

/// The number of the line behind so many.
fn line_behind(first: u32, count: u64) -> Result<u32, NoMemory>
    ensures { IfOk result (λ n. n ≡ first + count) }
{
    let number = u64::from(first).checked_add(count).ok_or(NoMemory)?;
    u32::try_from(number).ok().ok_or(NoMemory)
}

/// The first bytes of a text.
fn front(text: &[u8], len: usize) -> &[u8]
    requires { len ≤ length text.now }
    ensures { result.now ≡ take len text.now }
{
    let (front, _) = text.split_at(len);
    front
}

/// Where the record in the front of a text ends.
#[derive(Clone, Copy)]
struct End {
    /// The bytes of the front.
    len: usize,
    /// The number of the line behind it.
    next: u32,
    /// The number of the line of the item that is one past the limit, where there is one.
    past: Option<u64>,
}

/// Finds where the record in the front of a text ends.
fn end_of(alloc: Global, text: &[u8], first_line: u32, room: usize) -> Result<End, NoMemory>
    requires { room ≤ 1073741824 }
    ensures { IfOk result (λ e. IsEnd first_line room text.now e) }
{
    let lines = Lines::of(room, text);
    let count = count_to_done(alloc, lines)?;
    let len = part_bytes(room, text, count);
    let part = Lines::of(room, front(text, len));
    let past = item_past(alloc, first_line, part)?;
    let next = line_behind(first_line, count)?;
    Ok(End { len, next, past })
}

/// What was found by reading a record, with its limit.
fn within_limit(past: Option<u64>, found: Result<Record, ReadErr>) -> Result<Record, ReadErr>
    ensures kept { IfOk result (λ r. (past ≡ None) × (found ≡ Ok r)) }
    ensures none { (f : FaultSeen) → result ≡ Err (ReadErr.Bad f) → Some f ≡ with_limit past (fault_found found) }
    ensures memory { (f : FaultSeen) → result ≡ Err (ReadErr.Bad f) → found ≢ Err ReadErr.NoMemory }
{
    match found {
        Err(ReadErr::NoMemory) => Err(ReadErr::NoMemory),
        Err(ReadErr::Bad(fault)) => Err(ReadErr::Bad(sooner(past, fault))),
        Ok(record_of) => match past {
            None => Ok(record_of),
            Some(line) => Err(ReadErr::Bad(Fault {
                line,
                kind: FaultKind::TooMany,
            })),
        },
    }
}

/// Reads the record in the front of a text that ends there.
fn read_front(
    alloc: Global,
    scenario: &Scenario,
    text: &[u8],
    first_line: u32,
    room: usize,
    end: End,
) -> Result<(Record, usize, u32), ReadErr>
    requires room { room ≤ 1073741824 }
    requires first { first_line ≤ 2147483648 }
    requires end { IsEnd first_line room text.now end }
    ensures found { IfOk result (λ p. IsRecordPart scenario.now first_line room text.now (recorded_of p.0) p.1 p.2) }
    ensures bad { (f : FaultSeen) → result ≡ Err (ReadErr.Bad f) → part_meaning (roster_of scenario.now) first_line (part_lines (lines_of room text.now)) ≡ Err f }
    ensures well_formed { IfOk result (λ p. IsRecord (numbered scenario.now) (recorded_of p.0)) }
    ensures short { IfOk result (λ p. AreShort (recorded_of p.0)) }
{
    let found = parse(alloc, scenario, front(text, end.len), first_line, room);
    let limited = within_limit(end.past, found);
    match limited {
        Ok(record_of) => Ok((record_of, end.len, end.next)),
        Err(fault) => Err(fault),
    }
}

/// Reads the record in the front of a text that goes on behind it: its lines up to and with the first `done`.
///
/// `room` and `first_line` are as in [`parse`]. It gives the record, the bytes of the front, and the number of the line behind it.
///
/// Errors: the first fault of the front, with its line, where the line of the 65,537th item has too many; no memory.
pub fn parse_part(
    alloc: Global,
    scenario: &Scenario,
    text: &[u8],
    first_line: u32,
    room: usize,
) -> Result<(Record, usize, u32), ReadErr>
    requires room { room ≤ 1073741824 }
    requires first { first_line ≤ 2147483648 }
    ensures found { IfOk result (λ p. IsRecordPart scenario.now first_line room text.now (recorded_of p.0) p.1 p.2) }
    ensures bad { (f : FaultSeen) → result ≡ Err (ReadErr.Bad f) → part_meaning (roster_of scenario.now) first_line (part_lines (lines_of room text.now)) ≡ Err f }
    ensures well_formed { IfOk result (λ p. IsRecord (numbered scenario.now) (recorded_of p.0)) }
    ensures short { IfOk result (λ p. AreShort (recorded_of p.0)) }
{
    match end_of(alloc, text, first_line, room) {
        Ok(end) => read_front(alloc, scenario, text, first_line, room, end),
        Err(_) => Err(ReadErr::NoMemory),
    }
}
