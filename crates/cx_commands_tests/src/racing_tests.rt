use crate::forged::FORGED;
use crate::rows::{NO_CALL, TWO_THREADS};
use crate::tests::{answers, joined};
use cx_commands::{Status, races_call};
use cx_io::{Buffer, Bytes, SureBuffer, SureBytes};
use cx_names::NoMemory;
use std::alloc::Global;
use std::test::Fail;

/// No access.
const NONE: &[u8] = b"accesses 1\ndone\n";

/// Accesses to three variables at points of [`TWO_THREADS`].
const SIX: &[u8] = b"accesses 1\n\
    a 4 x write\n\
    b 4 x write\n\
    main 2 y write\n\
    a 0 y read\n\
    main 3 z write\n\
    a 1 z read\n\
    done\n";

/// A legal record in which each thread acquires what the other releases later.
const CIRCLE: &[u8] = b"cxthread 1\n\
    thread a\n\
    thread b\n\
    semaphore q 0 1\n\
    semaphore r 0 1\n\
    body a\n\
    acquire q\n\
    release r 1\n\
    end\n\
    body b\n\
    acquire r\n\
    release q 1\n\
    end\n\
    main\n\
    start a\n\
    start b\n\
    join a\n\
    join b\n\
    end\n\
    record 1\n\
    acts main\n\
    * start a ok\n\
    = ok\n\
    * start b ok\n\
    = ok\n\
    * join a\n\
    = ok\n\
    * join b\n\
    = ok\n\
    end\n\
    acts a\n\
    + q 1 acquire\n\
    = ok\n\
    + r 0 release 1\n\
    = ok\n\
    end\n\
    acts b\n\
    + r 1 acquire\n\
    = ok\n\
    + q 0 release 1\n\
    = ok\n\
    end\n\
    done\n";

/// Whether the race report of these parts, one after the other, ends with this status, having written this.
fn reports(
    alloc: Global,
    parts: &[&[u8]],
    wanted: Status,
    written: &[u8],
) -> Result<bool, NoMemory> {
    let mut source = SureBytes::new(joined(alloc, parts)?, 1_000);
    let mut sink = SureBuffer::new(Vec::new(alloc), 100);
    let status = races_call(alloc, &mut source, &mut sink);
    Ok(status == wanted && sink.bytes() == written)
}

#[test]
fn races_is_a_word(rt: HostRuntime) -> Result<(), Fail> {
    let alloc = rt.alloc();
    let races: &[&str] = &["races"];
    let text = joined(alloc, &[TWO_THREADS.scenario, TWO_THREADS.record, SIX])?;
    let report = b"free x\nrace y 2 3\nfree z\n";
    assert!(rt; answers(&rt, alloc, races, text, Status::Done, report)?);
    let text = joined(alloc, &[CIRCLE, NONE])?;
    assert!(rt; answers(&rt, alloc, races, text, Status::Illegal, b"cycle a 1\n")?);
    let text = b"cxthread 2\n".to_vec(alloc)?;
    let line = b"fault 1 BadVersion\n";
    assert!(rt; answers(&rt, alloc, races, text, Status::BadScenario, line)?);
    Ok(())
}

#[test]
fn a_flaw_is_named_before_a_race(rt: HostRuntime) -> Result<(), Fail> {
    let alloc = rt.alloc();
    for forged in FORGED {
        if forged.status == Status::Illegal {
            let parts: &[&[u8]] = &[forged.text, b"accesses 1\nmain 0 x write\ndone\n"];
            assert!(rt; reports(alloc, parts, Status::Illegal, forged.written)?);
        }
    }
    Ok(())
}

#[test]
fn faults_of_each_part(rt: HostRuntime) -> Result<(), Fail> {
    let alloc = rt.alloc();
    let front = TWO_THREADS.scenario;
    let record = TWO_THREADS.record;
    for (parts, line) in [
        (
            &[front, NONE] as &[&[u8]],
            b"fault 23 BadVersion\n".as_slice(),
        ),
        (&[front, record], b"fault 53 NoEnd\n"),
        (
            &[front, record, b"accesses 1\na 7 x write\ndone\n"],
            b"fault 54 OutOfRange\n",
        ),
    ] {
        assert!(rt; reports(alloc, parts, Status::BadScenario, line)?);
    }
    Ok(())
}

#[test]
fn the_text_of_a_report_has_a_limit(rt: HostRuntime) -> Result<(), Fail> {
    let alloc = rt.alloc();
    let front = joined(alloc, &[NO_CALL.scenario, NO_CALL.record, b"accesses 1\n"])?;
    let blank = vec![in alloc; b'\n'; 16_777_152]?;
    let most: &[&[u8]] = &[&front, &blank, b"done\n"];
    assert!(rt; reports(alloc, most, Status::Done, b"")?);
    let more: &[&[u8]] = &[&front, &blank, b"\ndone\n"];
    assert!(rt;
        reports(
            alloc,
            more,
            Status::BadScenario,
            b"fault 16777162 TooLong\n"
        )?
    );
    Ok(())
}

#[test]
fn faults_of_the_sides_of_a_report(rt: HostRuntime) -> Result<(), Fail> {
    let alloc = rt.alloc();
    let text = joined(alloc, &[TWO_THREADS.scenario, TWO_THREADS.record, SIX])?;
    let mut source = Bytes::new(text.clone()?, 100, vec![in alloc; 0]?);
    let mut sink = Buffer::new(Vec::new(alloc), 100, Vec::new(alloc));
    assert_eq!(rt;
        races_call(alloc, &mut source, &mut sink),
        Status::ReadFault
    );
    assert_eq!(rt; sink.bytes().len(), 0);
    let mut source = Bytes::new(text, 100, Vec::new(alloc));
    let mut sink = Buffer::new(Vec::new(alloc), 8, vec![in alloc; 1]?);
    assert_eq!(rt;
        races_call(alloc, &mut source, &mut sink),
        Status::WriteFault
    );
    assert_eq!(rt; sink.bytes(), b"free x\nr".as_slice());
    Ok(())
}
