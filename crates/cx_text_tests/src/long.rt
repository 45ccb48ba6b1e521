//! Long texts.

use cx_names::NoMemory;
use std::alloc::Global;

/// Adds a line for each of these numbers, with the number between its head and its tail.
pub fn put_numbered(
    alloc: Global,
    out: &mut Vec<u8>,
    head: &[u8],
    tail: &[u8],
    from: u32,
    to: u32,
) -> Result<(), NoMemory> {
    for i in from..to {
        let digits = i.to_string(alloc)?;
        out.extend_from_slice(head)?;
        out.extend_from_slice(digits.as_bytes())?;
        out.extend_from_slice(tail)?;
    }
    Ok(())
}

/// Adds the same bytes so many times.
pub fn put_same(out: &mut Vec<u8>, bytes: &[u8], count: u32) -> Result<(), NoMemory> {
    for _ in 0..count {
        out.extend_from_slice(bytes)?;
    }
    Ok(())
}

/// The front of a text: its first lines, and numbered declarations.
pub fn declared(
    alloc: Global,
    first: &[u8],
    head: &[u8],
    tail: &[u8],
    count: u32,
) -> Result<Vec<u8>, NoMemory> {
    let mut out = Vec::from_slice(alloc, b"cxthread 1\n")?;
    out.extend_from_slice(first)?;
    put_numbered(alloc, &mut out, head, tail, 0, count)?;
    Ok(out)
}
