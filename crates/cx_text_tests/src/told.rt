//! What is told of a text.

use cx_names::NoMemory;
use cx_scenario::{ReadErr, read};
use cx_text::FaultKind;
use std::alloc::Global;

fn kind_name(kind: FaultKind) -> &'static str {
    match kind {
        FaultKind::NotAscii => "NotAscii",
        FaultKind::TooLong => "TooLong",
        FaultKind::BadVersion => "BadVersion",
        FaultKind::BadWord => "BadWord",
        FaultKind::TooMany => "TooMany",
        FaultKind::UnknownName => "UnknownName",
        FaultKind::WrongKind => "WrongKind",
        FaultKind::OutOfRange => "OutOfRange",
        FaultKind::Twice => "Twice",
        FaultKind::LatchOver => "LatchOver",
        FaultKind::BadOrder => "BadOrder",
        FaultKind::NoEnd => "NoEnd",
    }
}

/// Whether this is what is told of a text: `fine`, or its first fault.
pub fn is_told(alloc: Global, text: &[u8], want: &str) -> Result<bool, NoMemory> {
    match read(alloc, text) {
        Ok(_) => Ok(want == "fine"),
        Err(ReadErr::NoMemory) => Ok(false),
        Err(ReadErr::Bad(fault)) => {
            let line = fault.line.to_string(alloc)?;
            match want.split_once(' ') {
                None => Ok(false),
                Some((number, kind)) => Ok(
                    line.as_str() == number && kind_name(fault.kind) == kind,
                ),
            }
        }
    }
}

/// Adds a text in which `/` stands for a line feed.
fn put_lines(out: &mut Vec<u8>, text: &str) -> Result<(), NoMemory> {
    for b in text.as_bytes() {
        out.push(if *b == b'/' { b'\n' } else { *b })?;
    }
    Ok(())
}

/// Whether a row holds: what is told of a text, a bar, and how the text goes on behind its front.
pub fn row_holds(alloc: Global, front: &[u8], row: &str) -> Result<bool, NoMemory> {
    match row.split_once('|') {
        None => Ok(false),
        Some((want, rest)) => {
            let mut text = Vec::from_slice(alloc, front)?;
            put_lines(&mut text, rest)?;
            is_told(alloc, &text, want)
        }
    }
}

/// The number of the first row that doesn't hold, where one doesn't.
pub fn wrong_row(alloc: Global, front: &[u8], rows: &str) -> Result<Option<u32>, NoMemory> {
    let mut rest = rows;
    for number in 1..1000u32 {
        match rest.split_once('\n') {
            None => return Ok(None),
            Some((row, after)) => {
                if !row_holds(alloc, front, row)? {
                    return Ok(Some(number));
                }
                rest = after;
            }
        }
    }
    Ok(Some(0))
}
