use crate::long::{declared, put_numbered, put_same};
use crate::told::{is_told, row_holds, wrong_row};
use cx_names::NoMemory;
use std::alloc::Global;
use std::test::Fail;

const ONE_OBJECT_MORE: &str = "fine|main/end/
130 TooMany|mutex m 0/
130 TooMany|promise p x y/
130 TooMany|promise p o1 o2/
130 TooMany|mutex m 9/
130 TooMany|mutex o1 0/
130 BadWord|mutex M 0/
130 Twice|thread o1/
";

const ONE_CALL_MORE: &str = "fine|end/
4103 TooMany|count_down l 1/
4103 TooMany|deregister k/
4103 TooMany|deregister x/
4103 TooMany|count_down k 70000/
4103 BadWord|mutex m 0/
";

#[test]
fn one_too_many_is_told_before_names(rt: HostRuntime) -> Result<(), Fail> {
    let alloc = rt.alloc();
    let objects = declared(alloc, b"", b"once o", b"\n", 128)?;
    assert_eq!(rt; wrong_row(alloc, &objects, ONE_OBJECT_MORE)?, None);
    let mut calls = Vec::from_slice(
        alloc,
        b"cxthread 1\nlatch l 4096\nstop s main\ncondition c\ncallback k s notify_one c\nmain\n",
    )?;
    put_same(&mut calls, b"count_down l 1\n", 4096)?;
    assert_eq!(rt; wrong_row(alloc, &calls, ONE_CALL_MORE)?, None);
    Ok(())
}

/// Whether so many of these declarations are fine, and one more on this line is too many.
fn is_limit(
    alloc: Global,
    head: &[u8],
    tail: &[u8],
    count: u32,
    want: &str,
) -> Result<bool, NoMemory> {
    let fits = declared(alloc, b"stop s\ncondition c\n", head, tail, count)?;
    let over = declared(
        alloc,
        b"stop s\ncondition c\n",
        head,
        tail,
        count.saturating_add(1),
    )?;
    Ok(row_holds(alloc, &fits, "fine|main/end/")? && is_told(alloc, &over, want)?)
}

#[test]
fn limits_are_kept(rt: HostRuntime) -> Result<(), Fail> {
    let alloc = rt.alloc();
    assert!(rt; is_limit(alloc, b"thread t", b"\n", 63, "67 TooMany")?);
    assert!(rt; is_limit(alloc, b"jthread t", b"\n", 63, "67 TooMany")?);
    assert!(rt; is_limit(alloc, b"async a", b" async throw 0\n", 63, "67 TooMany")?);
    assert!(rt; is_limit(alloc, b"callback k", b" s notify_one c\n", 64, "68 TooMany")?);
    Ok(())
}

#[test]
fn calls_of_all_bodies_are_counted(rt: HostRuntime) -> Result<(), Fail> {
    let alloc = rt.alloc();
    let mut body = Vec::new(alloc);
    put_same(&mut body, b"try_acquire q\n", 4096)?;
    body.extend_from_slice(b"end\n")?;
    let mut calls = declared(alloc, b"semaphore q 0 1\n", b"thread t", b"\n", 17)?;
    for i in 0..16u32 {
        put_numbered(alloc, &mut calls, b"body t", b"\n", i, i + 1)?;
        calls.extend_from_slice(&body)?;
    }
    // that this is the first fault says that the 65,536 calls before it are fine
    assert!(rt; row_holds(alloc, &calls, "65589 TooMany|main/try_acquire q/end/")?);
    Ok(())
}

#[test]
fn bytes_are_counted(rt: HostRuntime) -> Result<(), Fail> {
    let alloc = rt.alloc();
    let mut line = Vec::from_slice(alloc, b"#")?;
    put_same(&mut line, b"x", 119)?;
    line.extend_from_slice(b"\n")?;
    // 11 bytes, 69,327 lines of 121 bytes, and 30 bytes
    let mut text = Vec::from_slice(alloc, b"cxthread 1\n")?;
    put_same(&mut text, &line, 69327)?;
    text.extend_from_slice(b"#xxxxxxxxxxxxxxxxxxxx\nmain\nend")?;
    assert_eq!(rt; text.len(), 8388608);
    assert!(rt; is_told(alloc, &text, "fine")?);
    text.push(b'\n')?;
    assert!(rt; is_told(alloc, &text, "69331 TooLong")?);
    Ok(())
}

/// Whether a comment of so many bytes, whose line ends so, gives this.
fn is_length(alloc: Global, bytes: u32, row: &str) -> Result<bool, NoMemory> {
    let mut text = Vec::from_slice(alloc, b"cxthread 1\n#")?;
    put_same(&mut text, b"x", bytes.saturating_sub(1))?;
    row_holds(alloc, &text, row)
}

#[test]
fn lines_have_their_lengths(rt: HostRuntime) -> Result<(), Fail> {
    let alloc = rt.alloc();
    assert!(rt; is_length(alloc, 120, "fine|/main/end/")?);
    assert!(rt; is_length(alloc, 120, "fine|\r/main/end/")?);
    assert!(rt; is_length(alloc, 121, "2 TooLong|/main/end/")?);
    assert!(rt; is_length(alloc, 121, "2 TooLong|\r/main/end/")?);
    Ok(())
}
