use crate::forged::{FORGED, TIES};
use crate::rows::{
    CROWDS, ENDED, FAULTY, NOTHING_TO_ACQUIRE, ONE_SEMAPHORE, PADDED, TWO_THREADS,
    TWO_THREADS_SEEDED,
};
use cx_commands::{Status, check_call, cxthread, replay_call};
use cx_io::{Buffer, Bytes, Sure, SureBuffer, SureBytes};
use cx_names::NoMemory;
use std::alloc::Global;
use std::ops::Range;
use std::sync::Wait;
use std::test::Fail;
use std::thread::Threads;

const USAGE: &[u8] = b"usage: cxthread run | replay [SEED] | check | make N | trial N | races\n";

fn owned(alloc: Global, words: &[&str]) -> Result<Vec<String>, Fail> {
    let mut all = Vec::new(alloc);
    for word in words {
        all.push(String::from_str(alloc, word)?)?;
    }
    Ok(all)
}

/// Whether a replay of the text ends with this status, having written these two texts one after the other.
fn replays(
    alloc: Global,
    seed: Option<u64>,
    text: &[u8],
    wanted: Status,
    front: &[u8],
    rest: &[u8],
) -> Result<bool, NoMemory> {
    let mut source = SureBytes::new(text.to_vec(alloc)?, 100);
    let mut sink = SureBuffer::new(Vec::new(alloc), 100);
    let status = replay_call(alloc, seed, &mut source, &mut sink);
    let mut written = front.to_vec(alloc)?;
    written.extend_from_slice(rest)?;
    Ok(status == wanted && sink.bytes() == written.as_slice())
}

/// Whether a check of these two texts, one after the other, ends with this status, having written this line.
fn checks(
    alloc: Global,
    front: &[u8],
    rest: &[u8],
    wanted: Status,
    line: &[u8],
) -> Result<bool, NoMemory> {
    let mut text = front.to_vec(alloc)?;
    text.extend_from_slice(rest)?;
    let mut source = SureBytes::new(text, 100);
    let mut sink = SureBuffer::new(Vec::new(alloc), 100);
    let status = check_call(alloc, &mut source, &mut sink);
    Ok(status == wanted && sink.bytes() == line)
}

/// Whether the program, asked with these words, ends with this status, having written this line of this text.
pub fn answers<T: Threads + Wait + Copy + Send + 'static>(
    rt: &T,
    alloc: Global,
    words: &[&str],
    text: Vec<u8>,
    wanted: Status,
    line: &[u8],
) -> Result<bool, Fail> {
    let mut source = SureBytes::new(text, 100);
    let mut sink = SureBuffer::new(Vec::new(alloc), 100);
    let mut spawner = Sure::new(alloc);
    let words = owned(alloc, words)?;
    let (status, _fronts) = cxthread(rt, alloc, &words, &mut source, &mut sink, &mut spawner);
    Ok(status == wanted && sink.bytes() == line)
}

/// Adds a piece of text for each of these numbers, with what stands before the number and what follows it.
fn put_numbered(
    alloc: Global,
    out: &mut Vec<u8>,
    front: &[u8],
    numbers: Range<u32>,
    tail: &[u8],
) -> Result<(), NoMemory> {
    for number in numbers {
        let digits = number.to_string(alloc)?;
        out.extend_from_slice(front)?;
        out.extend_from_slice(digits.as_bytes())?;
        out.extend_from_slice(tail)?;
    }
    Ok(())
}

/// The first line of a scenario and so many declarations of one form.
fn declared(alloc: Global, form: &[u8], count: u32) -> Result<Vec<u8>, NoMemory> {
    let mut text = b"cxthread 1\n".to_vec(alloc)?;
    put_numbered(alloc, &mut text, form, 0..count, b"\n")?;
    Ok(text)
}

/// These parts one after the other.
pub fn joined(alloc: Global, parts: &[&[u8]]) -> Result<Vec<u8>, NoMemory> {
    let mut text = Vec::new(alloc);
    for part in parts {
        text.extend_from_slice(part)?;
    }
    Ok(text)
}

#[test]
fn words_of_no_form_are_refused(rt: HostRuntime) -> Result<(), Fail> {
    let alloc = rt.alloc();
    for words in [
        &[] as &[&str],
        &["run", "now"],
        &["make"],
        &["make", "0"],
        &["make", "4801"],
        &["make", "+5"],
        &["make", "1", "2"],
        &["trial", "1"],
        &["replay", "x"],
        &["replay", ""],
        &["replay", "-1"],
        &["replay", "+1"],
        &["replay", "18446744073709551616"],
        &["replay", "000000000000000000001"],
        &["replay", "1", "2"],
        &["check", "1"],
        &["races", "1"],
        &["--help"],
    ] {
        let text = ONE_SEMAPHORE.scenario.to_vec(alloc)?;
        assert!(rt; answers(&rt, alloc, words, text, Status::BadWords, USAGE)?);
    }
    Ok(())
}

#[test]
fn replays_with_and_without_a_seed(rt: HostRuntime) -> Result<(), Fail> {
    let alloc = rt.alloc();
    for (words, record) in [
        (&["replay"] as &[&str], TWO_THREADS.record),
        (&["replay", "0"], TWO_THREADS_SEEDED),
        (&["replay", "00000000000000000000"], TWO_THREADS_SEEDED),
    ] {
        let mut source = SureBytes::new(TWO_THREADS.scenario.to_vec(alloc)?, 5);
        let mut sink = SureBuffer::new(Vec::new(alloc), 7);
        let mut spawner = Sure::new(alloc);
        let words = owned(alloc, words)?;
        let (status, _fronts) = cxthread(&rt, alloc, &words, &mut source, &mut sink, &mut spawner);
        assert_eq!(rt; status, Status::Done);
        let mut wanted = TWO_THREADS.scenario.to_vec(alloc)?;
        wanted.extend_from_slice(record)?;
        assert_eq!(rt; sink.bytes(), wanted.as_slice());
    }
    Ok(())
}

#[test]
fn worked_rows_are_replayed(rt: HostRuntime) -> Result<(), Fail> {
    let alloc = rt.alloc();
    for row in ENDED {
        assert!(rt;
            replays(
                alloc,
                None,
                row.scenario,
                Status::Done,
                row.scenario,
                row.record
            )?
        );
    }
    let row = NOTHING_TO_ACQUIRE;
    assert!(rt;
        replays(
            alloc,
            None,
            row.scenario,
            Status::Stuck,
            row.scenario,
            row.record
        )?
    );
    for (text, line) in FAULTY {
        assert!(rt; replays(alloc, None, text, Status::BadScenario, b"", line)?);
    }
    let loose = b"cxthread 1\r\n# x\r\nmain\r\n end";
    let canonical = b"cxthread 1\nmain\nend\n";
    let record = b"record 1\nacts main\nend\ndone\n";
    assert!(rt; replays(alloc, None, loose, Status::Done, canonical, record)?);
    Ok(())
}

#[test]
fn records_are_checked(rt: HostRuntime) -> Result<(), Fail> {
    let alloc = rt.alloc();
    for row in ENDED {
        assert!(rt; checks(alloc, row.scenario, row.record, Status::Done, b"legal\n")?);
    }
    for forged in FORGED {
        assert!(rt; checks(alloc, forged.text, b"", forged.status, forged.written)?);
    }
    for tie in TIES {
        let text = joined(alloc, tie.parts)?;
        assert!(rt; checks(alloc, &text, b"", Status::Illegal, tie.written)?);
    }
    Ok(())
}

#[test]
fn check_is_a_word(rt: HostRuntime) -> Result<(), Fail> {
    let alloc = rt.alloc();
    let check: &[&str] = &["check"];
    let row = ONE_SEMAPHORE;
    let text = joined(alloc, &[row.scenario, row.record])?;
    assert!(rt; answers(&rt, alloc, check, text, Status::Done, b"legal\n")?);
    for forged in FORGED {
        let text = forged.text.to_vec(alloc)?;
        assert!(rt; answers(&rt, alloc, check, text, forged.status, forged.written)?);
    }
    Ok(())
}

#[test]
fn a_line_is_too_long_before_all_else(rt: HostRuntime) -> Result<(), Fail> {
    let alloc = rt.alloc();
    let blanks = vec![in alloc; b' '; 121]?;
    for row in PADDED {
        let text = joined(alloc, &[row.front, row.last])?;
        assert!(rt; replays(alloc, None, &text, Status::BadScenario, b"", row.short)?);
        let text = joined(alloc, &[row.front, &blanks, row.last])?;
        assert!(rt; replays(alloc, None, &text, Status::BadScenario, b"", row.long)?);
    }
    let mut text = declared(alloc, b"once o", 128)?;
    text.extend_from_slice(&blanks)?;
    text.extend_from_slice(b"mutex m 0\nmain\nend\n")?;
    let line = b"fault 130 TooLong\n";
    assert!(rt; replays(alloc, None, &text, Status::BadScenario, b"", line)?);
    Ok(())
}

#[test]
fn as_many_as_the_limits_allow(rt: HostRuntime) -> Result<(), Fail> {
    let alloc = rt.alloc();
    let mut scenario = declared(alloc, b"thread t", 61)?;
    scenario.extend_from_slice(b"jthread j\nasync f async return 1\n")?;
    put_numbered(alloc, &mut scenario, b"body t", 0..61, b"\nend\n")?;
    scenario.extend_from_slice(b"body j\nend\nmain\nend\n")?;
    let mut record = b"record 1\nacts main\nend\n".to_vec(alloc)?;
    put_numbered(alloc, &mut record, b"unstarted t", 0..61, b"\n")?;
    record.extend_from_slice(b"unstarted j\nunstarted f\ndone\n")?;
    assert!(rt; replays(alloc, None, &scenario, Status::Done, &scenario, &record)?);
    let mut scenario = declared(alloc, b"once o", 127)?;
    scenario.extend_from_slice(b"jthread j\nbody j\nend\nmain\nend\n")?;
    let record = b"record 1\nacts main\nend\nunstarted j\ndone\n";
    assert!(rt; replays(alloc, None, &scenario, Status::Done, &scenario, record)?);
    for row in CROWDS {
        let mut text = declared(alloc, row.form, row.count)?;
        text.extend_from_slice(row.rest)?;
        assert!(rt; replays(alloc, None, &text, Status::BadScenario, b"", row.line)?);
    }
    Ok(())
}

#[test]
fn each_status_has_its_number(rt: HostRuntime) {
    for (status, number) in [
        (Status::Done, 0),
        (Status::Illegal, 1),
        (Status::BadWords, 2),
        (Status::BadScenario, 3),
        (Status::ReadFault, 4),
        (Status::WriteFault, 5),
        (Status::Stuck, 7),
        (Status::NoMemory, 8),
        (Status::NotBuilt, 9),
    ] {
        assert_eq!(rt; status.number(), number);
    }
}

/// A recursive mutex that is locked once more than it may be, and its record.
pub fn all_levels(alloc: Global) -> Result<(Vec<u8>, Vec<u8>), NoMemory> {
    let mut scenario = b"cxthread 1\nrecursive r\nmain\n".to_vec(alloc)?;
    for _ in 0..1_001 {
        scenario.extend_from_slice(b"lock r\n")?;
    }
    scenario.extend_from_slice(b"end\n")?;
    let mut record = b"record 1\nacts main\n".to_vec(alloc)?;
    put_numbered(alloc, &mut record, b"+ r ", 0..1_000, b" lock\n= ok\n")?;
    record.extend_from_slice(b"? r 1000 lock max-levels\n= max-levels\n")?;
    put_numbered(alloc, &mut record, b"+ r ", 1_000..2_000, b" unlock\n")?;
    record.extend_from_slice(b"end\ndone\n")?;
    Ok((scenario, record))
}

#[test]
fn a_recursive_mutex_has_its_levels(rt: HostRuntime) -> Result<(), Fail> {
    let alloc = rt.alloc();
    let (scenario, record) = all_levels(alloc)?;
    assert!(rt; replays(alloc, None, &scenario, Status::Done, &scenario, &record)?);
    Ok(())
}

#[test]
fn faults_of_the_sides(rt: HostRuntime) -> Result<(), Fail> {
    let alloc = rt.alloc();
    let text = ONE_SEMAPHORE.scenario;
    let mut source = Bytes::new(text.to_vec(alloc)?, 100, vec![in alloc; 0]?);
    let mut sink = Buffer::new(Vec::new(alloc), 100, Vec::new(alloc));
    assert_eq!(rt;
        replay_call(alloc, None, &mut source, &mut sink),
        Status::ReadFault
    );
    assert_eq!(rt; sink.bytes().len(), 0);
    let mut source = Bytes::new(text.to_vec(alloc)?, 100, Vec::new(alloc));
    let mut sink = Buffer::new(Vec::new(alloc), 8, vec![in alloc; 1]?);
    assert_eq!(rt;
        replay_call(alloc, None, &mut source, &mut sink),
        Status::WriteFault
    );
    assert_eq!(rt; sink.bytes(), b"cxthread".as_slice());
    Ok(())
}
