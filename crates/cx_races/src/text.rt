ghost use Rattle.std.specs.Prelude.{◌≡◌, ◌<◌, ◌++◌, map, length, slice_get, IfOk, OnOk, Some, None};
ghost use Rattle.cx_races.specs.Report.{entry_line, report_text, cycle_line};

use crate::reporting::Pair;
use cx_names::NoMemory;
use std::alloc::Global;

/// The line of a variable with its line feed.
fn entry_line(alloc: Global, name: &[u8], entry: Option<Pair>) -> Result<Vec<u8>, NoMemory>
    ensures { IfOk result (λ text. text.items ≡ entry_line name.now entry) }
{
    match entry {
        None => free_line(alloc, name),
        Some(pair) => race_line(alloc, name, pair),
    }
}

/// The line of a variable without a race.
fn free_line(alloc: Global, name: &[u8]) -> Result<Vec<u8>, NoMemory>
    ensures { IfOk result (λ text. text.items ≡ entry_line name.now None) }
{
    let mut line = b"free ".to_vec(alloc)?;
    line.extend_from_slice(name)?;
    line.extend_from_slice(b"\n")?;
    Ok(line)
}

/// The line of a variable with a race.
fn race_line(alloc: Global, name: &[u8], pair: Pair) -> Result<Vec<u8>, NoMemory>
    ensures { IfOk result (λ text. text.items ≡ entry_line name.now (Some pair)) }
{
    let mut line = b"race ".to_vec(alloc)?;
    line.extend_from_slice(name)?;
    let rest = format!(in alloc; " {} {}\n", pair.first, pair.second)?;
    line.extend_from_slice(rest.as_bytes())?;
    Ok(line)
}

/// Name `i`.
fn name_at(names: &[Vec<u8>], i: usize) -> &[u8]
    requires { i < length names.now }
    ensures { slice_get (map (λ n. n.items) names.now) i ≡ Some result.now }
{
    names[i].as_slice()
}

/// Entry `i`.
fn entry_at(entries: &[Option<Pair>], i: usize) -> Option<Pair>
    requires { i < length entries.now }
    ensures { slice_get entries.now i ≡ Some result }
{
    entries[i]
}

/// Puts the line of a variable behind a text.
fn put_line(
    alloc: Global,
    text: &mut Vec<u8>,
    name: &[u8],
    entry: Option<Pair>,
) -> Result<(), NoMemory>
    ensures { OnOk result (text.new.items ≡ text.old.items ++ entry_line name.now entry) }
{
    let line = entry_line(alloc, name, entry)?;
    text.extend_from_slice(&line)?;
    Ok(())
}

/// The text of a report: a line for each variable, `free VAR` or `race VAR A B`.
///
/// Errors: no memory.
pub fn report_text(
    alloc: Global,
    names: &[Vec<u8>],
    entries: &[Option<Pair>],
) -> Result<Vec<u8>, NoMemory>
    ensures { IfOk result (λ text. text.items ≡ report_text (map (λ n. n.items) names.now) entries.now) }
{
    let mut text = Vec::new(alloc);
    let count = names.len().min(entries.len());
    for i in 0..count {
        let name = name_at(names, i);
        let entry = entry_at(entries, i);
        put_line(alloc, &mut text, name, entry)?;
    }
    Ok(text)
}

/// The line `cycle NAME POINT` with its line feed.
///
/// Errors: no memory.
pub fn cycle_line(alloc: Global, name: &[u8], point: u32) -> Result<Vec<u8>, NoMemory>
    ensures { IfOk result (λ text. text.items ≡ cycle_line name.now point) }
{
    let mut line = b"cycle ".to_vec(alloc)?;
    line.extend_from_slice(name)?;
    let rest = format!(in alloc; " {}\n", point)?;
    line.extend_from_slice(rest.as_bytes())?;
    Ok(line)
}
