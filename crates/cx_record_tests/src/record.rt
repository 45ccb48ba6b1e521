use cx_names::NoMemory;
use cx_record::{Threads, parse, print};
use cx_scenario::{ReadErr, Scenario, read, read_part};
use cx_text::FaultKind;
use std::alloc::Global;

const ROOM: usize = 1_073_741_824;

/// A scenario with a name of every kind; its threads are main, a, j and f.
const SCENARIO: &[u8] =
    b"cxthread 1\nthread a\njthread j\nasync f async return 7\nmutex m 2\nrecursive r\nshared s\nsemaphore q 0 9\nlatch l 2\nbarrier b 1\nonce o\ncondition c\nstop st main\ncallback k st notify_one c\npromise p main main\nmain\nend\n";

/// A scenario of two threads with its record, cut before the last line.
const CUT: &[u8] =
    b"cxthread 1\nthread a\nthread b\nsemaphore q 0 2\nmutex m 0\nbody a\nacquire q\nlock m\nunlock m\nend\nbody b\nacquire q\nlock m\nunlock m\nend\nmain\nstart a\nstart b\nrelease q 2\njoin a\njoin b\nend\nrecord 1\nacts main\n* start a ok\n= ok\n* start b ok\n= ok\n+ q 0 release 2\n= ok\n* join a\n= ok\n* join b\n= ok\nend\nacts a\n+ q 1 acquire\n= ok\n+ m 0 lock\n= ok\n+ m 1 unlock\n= ok\nend\nacts b\n+ q 2 acquire\n= ok\n+ m 2 lock\n= ok\n+ m 3 unlock\n= ok\nend\n";

fn kind_name(kind: FaultKind) -> &'static str {
    match kind {
        FaultKind::NotAscii => "NotAscii",
        FaultKind::TooLong => "TooLong",
        FaultKind::BadVersion => "BadVersion",
        FaultKind::BadWord => "BadWord",
        FaultKind::UnknownName => "UnknownName",
        FaultKind::WrongKind => "WrongKind",
        FaultKind::OutOfRange => "OutOfRange",
        FaultKind::NoEnd => "NoEnd",
        _ => "another",
    }
}

/// Whether a text of a record, whose lines are numbered from 5, has this first fault; none where the kind is empty.
fn faults(
    alloc: Global,
    scenario: &Scenario,
    text: &[u8],
    room: usize,
    line: u64,
    kind: &str,
) -> bool {
    if room > ROOM {
        return false;
    }
    match parse(alloc, scenario, text, 5, room) {
        Ok(_) => kind.is_empty(),
        Err(ReadErr::NoMemory) => false,
        Err(ReadErr::Bad(fault)) => fault.line == line && kind_name(fault.kind) == kind,
    }
}

fn every_kind(alloc: Global) -> Result<Scenario, NoMemory> {
    match read(alloc, SCENARIO) {
        Ok(scenario) => Ok(scenario),
        Err(_) => Err(NoMemory),
    }
}

/// A record in which main has one item, in the seventh line.
fn with_item(alloc: Global, item: &[u8]) -> Result<Vec<u8>, NoMemory> {
    let mut text = Vec::new(alloc);
    text.extend_from_slice(b"record 1\nacts main\n")?;
    text.extend_from_slice(item)?;
    text.extend_from_slice(b"\nend\nunstarted a\nunstarted j\nunstarted f\ndone\n")?;
    Ok(text)
}

#[test]
fn items_have_the_first_kind_of_fault(rt: HostRuntime) -> Result<(), NoMemory> {
    let scenario = every_kind(rt.alloc())?;
    let rows: &[(&[u8], &str)] = &[
        (b"+ m 0 lock", ""),
        (b"? r 3 lock max-levels", ""),
        (b"? m 3 lock max-levels", ""),
        (b"+ m 0 set 1 -9223372036854775808", ""),
        (b"+ p 0 set value 5", ""),
        (b"+ p 0 set exception 4294967295", ""),
        (b"+ f 0 set broken_promise", ""),
        (b"? f 1 ready value -1", ""),
        (b"+ j 0 request", ""),
        (b"+ c 0 notify_one f", ""),
        (b"+ c 0 notify_one main", ""),
        (b"+ c 0 notify_one none", ""),
        (b"= f", ""),
        (b"= main", ""),
        (b"= 9223372036854775807", ""),
        (b"* start j ok", ""),
        (b"* launch f no-thread", ""),
        (b"* join a", ""),
        (b"+ b 0 drop 4294967295", ""),
        (b"+ st 0 drop", ""),
        (b"= broken_promise", ""),
        (b"= value 3", ""),
        (b"? l 0 wait", ""),
        (b"? b 0 wait 5", ""),
        (b"\t+  m\t268435455   unlock  ", ""),
        (b"# + x 0 lock", ""),
        (b"", ""),
        (
            b"#xxxxxxxxxxxxxxxxxxxxxxxxxxxxxxxxxxxxxxxxxxxxxxxxxxxxxxxxxxxxxxxxxxxxxxxxxxxxxxxxxxxxxxxxxxxxxxxxxxxxxxxxxxxxxxxxxxxxxxx",
            "",
        ),
        (
            b"+ m 0 lock                                                                                                              ",
            "",
        ),
        (b"+ m 0 acquire", "BadWord"),
        (b"+ m 0 lock 1", "BadWord"),
        (b"+ m 0", "BadWord"),
        (b"m 0 lock", "BadWord"),
        (b"+ main 0 lock", "BadWord"),
        (b"+ ok 0 lock", "BadWord"),
        (b"= not-waiting", "BadWord"),
        (b"* detach a", "BadWord"),
        (b"+ b 0 set value 5", "BadWord"),
        (b"? l 0 wait 5", "BadWord"),
        (b"? b 0 wait", "BadWord"),
        (b"stuck a", "BadWord"),
        (b"acts a", "BadWord"),
        (b"done", "BadWord"),
        (b"record 1", "BadWord"),
        (b"+ m -1 lock", "BadWord"),
        (b"+ m 0 set 0 123456789012345678901", "BadWord"),
        (b"+ q 0 release +1", "BadWord"),
        (b"+ a 0 jump", "BadWord"),
        (b"+ x 0 jump", "BadWord"),
        (b"= threw", "UnknownName"),
        (b"? m 0 try_lock true", "BadWord"),
        (b"+ m 268435456 acquire", "BadWord"),
        (b"+ Mutex 0 lock", "BadWord"),
        (b"+ x 0 lock", "UnknownName"),
        (b"= nobody", "UnknownName"),
        (b"+ c 0 notify_one x", "UnknownName"),
        (b"* start x ok", "UnknownName"),
        (b"* launch x ok", "UnknownName"),
        (b"+ x 268435456 lock", "UnknownName"),
        (b"+ a 0 notify_one zz", "UnknownName"),
        (b"+ a 0 lock", "WrongKind"),
        (b"+ k 0 request", "WrongKind"),
        (b"= m", "WrongKind"),
        (b"= k", "WrongKind"),
        (b"+ c 0 notify_one m", "WrongKind"),
        (b"* start f ok", "WrongKind"),
        (b"* start main ok", "WrongKind"),
        (b"* launch a ok", "WrongKind"),
        (b"* join main", "WrongKind"),
        (b"* join f", "WrongKind"),
        (b"+ a 268435456 lock", "WrongKind"),
        (b"+ m 268435456 lock", "OutOfRange"),
        (b"? m 268435456 get 0 0", "OutOfRange"),
        (b"+ m 0 set 2 0", "OutOfRange"),
        (b"+ r 0 set 0 0", "OutOfRange"),
        (b"+ m 0 set 0 9223372036854775808", "OutOfRange"),
        (b"+ q 0 release 65536", "OutOfRange"),
        (b"+ b 0 arrive 0 0", "OutOfRange"),
        (b"+ b 0 arrive 4097 0", "OutOfRange"),
        (b"+ b 0 arrive 1 4294967296", "OutOfRange"),
        (b"= -9223372036854775809", "OutOfRange"),
        (b"= threw 4294967296", "OutOfRange"),
        (b"+ st 0 register 4294967296", "OutOfRange"),
        (b"+ m 99999999999999999999 lock", "OutOfRange"),
        (b"+ m 0 lock\x7f", "NotAscii"),
        (b"+ x 0 jump \x01", "NotAscii"),
        (b"# caf\xe9", "NotAscii"),
        (
            b"#xxxxxxxxxxxxxxxxxxxxxxxxxxxxxxxxxxxxxxxxxxxxxxxxxxxxxxxxxxxxxxxxxxxxxxxxxxxxxxxxxxxxxxxxxxxxxxxxxxxxxxxxxxxxxxxxxxxxxxxx",
            "TooLong",
        ),
        (
            b"+ m 0 lock                                                                                                               ",
            "TooLong",
        ),
    ];
    for row in rows {
        let text = with_item(rt.alloc(), row.0)?;
        assert!(rt; faults(rt.alloc(), &scenario, &text, ROOM, 7, row.1));
    }
    Ok(())
}

#[test]
fn texts_have_their_first_fault(rt: HostRuntime) -> Result<(), NoMemory> {
    let scenario = every_kind(rt.alloc())?;
    let rows: &[(&[u8], u64, &str)] = &[
        (b"", 5, "NoEnd"),
        (b"\n\n# x\n", 8, "NoEnd"),
        (b"record 2\n", 5, "BadVersion"),
        (b"acts main\n", 5, "BadVersion"),
        (b"record 01\n", 5, "BadVersion"),
        (b"\nrecord 1\nend\n", 7, "BadWord"),
        (b"record 1\nacts a\n", 6, "BadWord"),
        (b"record 1\nacts main\nend\nunstarted j\n", 8, "BadWord"),
        (b"record 1\nacts main\nend\ndone\n", 8, "BadWord"),
        (
            b"record 1\nunstarted main\nunstarted a\nunstarted j\nunstarted f\ndone\n",
            0,
            "",
        ),
        (
            b"record 1\r\nunstarted main\r\nunstarted a\r\nunstarted j\r\nunstarted f\r\ndone\r\n",
            0,
            "",
        ),
        (
            b"record 1\nunstarted main\nunstarted a\nunstarted j\nunstarted f\ndone",
            0,
            "",
        ),
        (
            b"record 1\nunstarted main\nunstarted a\nunstarted j\nunstarted f\ndone\n# fine\n\n",
            0,
            "",
        ),
        (
            b"record 1\nunstarted main\nunstarted a\nunstarted j\nunstarted f\ndone\r",
            10,
            "NotAscii",
        ),
        (
            b"record 1\nunstarted main\nunstarted a\nunstarted j\nunstarted f\ndone\ndone\n",
            11,
            "BadWord",
        ),
        (
            b"record 1\nunstarted main\nunstarted a\nunstarted j\nunstarted f\ndone\n\x01",
            11,
            "NotAscii",
        ),
        (
            b"record 1\nunstarted main\nunstarted a\nunstarted j\nunstarted f\n",
            10,
            "NoEnd",
        ),
        (b"record 1\nacts main\n+ m 0 lock\n", 8, "NoEnd"),
        (
            b"record 1\nunstarted main\nunstarted a\nunstarted j\nunstarted f\nunstarted f\n",
            10,
            "BadWord",
        ),
        (b"record 1\n+ m 0 lock\n", 6, "BadWord"),
    ];
    for row in rows {
        assert!(rt; faults(rt.alloc(), &scenario, row.0, ROOM, row.1, row.2));
    }
    let text: &[u8] = b"record 1\nunstarted main\nunstarted a\nunstarted j\nunstarted f\ndone\n";
    let rooms: &[(usize, u64, &str)] = &[
        (65, 0, ""),
        (64, 10, "TooLong"),
        (60, 10, "TooLong"),
        (59, 9, "TooLong"),
        (8, 5, "TooLong"),
        (0, 5, "TooLong"),
    ];
    for row in rooms {
        assert!(rt; faults(rt.alloc(), &scenario, text, row.0, row.1, row.2));
    }
    Ok(())
}

/// Whether a canonical scenario with its record is read and printed as itself.
fn comes_back(alloc: Global, text: &[u8]) -> bool {
    let Ok((scenario, bytes, next)) = read_part(alloc, text, ROOM) else {
        return false;
    };
    if bytes > text.len() || bytes > ROOM || next > 1_073_741_825 {
        return false;
    }
    let (_, rest) = text.split_at(bytes);
    let Ok(found) = parse(alloc, &scenario, rest, next, ROOM - bytes) else {
        return false;
    };
    let live = Threads {
        threads: Vec::new(alloc),
    };
    match print(alloc, &scenario, &found, &live) {
        Err(_) => false,
        Ok(printed) => printed.as_slice() == text,
    }
}

/// Whether the record behind a scenario ends too early, on this line.
fn ends_too_early(alloc: Global, text: &[u8], line: u64) -> bool {
    let Ok((scenario, bytes, next)) = read_part(alloc, text, ROOM) else {
        return false;
    };
    if bytes > text.len() || next > 1_073_741_825 {
        return false;
    }
    let (_, rest) = text.split_at(bytes);
    match parse(alloc, &scenario, rest, next, rest.len().min(ROOM)) {
        Err(ReadErr::Bad(fault)) => fault.line == line && kind_name(fault.kind) == "NoEnd",
        _ => false,
    }
}

#[test]
fn records_come_back(rt: HostRuntime) -> Result<(), NoMemory> {
    let texts: &[&[u8]] = &[
        b"cxthread 1\nsemaphore q 0 1\nmain\nrelease q 1\nacquire q\nend\nrecord 1\nacts main\n+ q 0 release 1\n= ok\n+ q 1 acquire\n= ok\nend\ndone\n",
        b"cxthread 1\nthread a\nthread b\nsemaphore q 0 2\nmutex m 0\nbody a\nacquire q\nlock m\nunlock m\nend\nbody b\nacquire q\nlock m\nunlock m\nend\nmain\nstart a\nstart b\nrelease q 2\njoin a\njoin b\nend\nrecord 1\nacts main\n* start a ok\n= ok\n* start b ok\n= ok\n+ q 0 release 2\n= ok\n* join a\n= ok\n* join b\n= ok\nend\nacts a\n+ q 1 acquire\n= ok\n+ m 0 lock\n= ok\n+ m 1 unlock\n= ok\nend\nacts b\n+ q 2 acquire\n= ok\n+ m 2 lock\n= ok\n+ m 3 unlock\n= ok\nend\ndone\n",
        b"cxthread 1\nthread a\nthread b\nsemaphore q 0 2\nmutex m 0\nbody a\nacquire q\nlock m\nunlock m\nend\nbody b\nacquire q\nlock m\nunlock m\nend\nmain\nstart a\nstart b\nrelease q 2\njoin a\njoin b\nend\nrecord 1\nacts main\n* start a ok\n= ok\n* start b ok\n= ok\n+ q 0 release 2\n= ok\n* join a\n= ok\n* join b\n= ok\nend\nacts a\n+ q 1 acquire\n= true\n+ m 0 lock\n= ok\n+ m 1 unlock\n= ok\nend\nacts b\n+ q 2 acquire\n= ok\n+ m 2 lock\n= ok\n+ m 3 unlock\n= ok\nend\ndone\n",
        b"cxthread 1\nthread a\nthread b\nsemaphore q 0 2\nmutex m 0\nbody a\nacquire q\nlock m\nunlock m\nend\nbody b\nacquire q\nlock m\nunlock m\nend\nmain\nstart a\nstart b\nrelease q 2\njoin a\njoin b\nend\nrecord 1\nacts main\n* start a ok\n= ok\n* start b ok\n= ok\n+ q 0 release 2\n= ok\n* join a\n= ok\n* join b\n= ok\nend\nacts a\n+ q 1 acquire\n= ok\n+ m 0 lock\n= ok\n+ m 1 unlock\n= ok\nend\nacts b\n+ q 2 acquire\n= ok\n+ m 2 lock\n= ok\n+ m 4 unlock\n= ok\nend\ndone\n",
        b"cxthread 1\nsemaphore q 0 2\nmain\nrelease q 3\nrelease q 2\nend\nrecord 1\nacts main\n? q 2 release 3 over\n= over\n+ q 0 release 2\n= ok\nend\ndone\n",
        b"cxthread 1\nsemaphore q 0 2\nmain\nrelease q 3\nrelease q 2\nend\nrecord 1\nacts main\n? q 1 release 3 over\n= over\n+ q 0 release 2\n= ok\nend\ndone\n",
        b"cxthread 1\nthread a\nsemaphore q 0 2\nbody a\nrelease q 1\nend\nmain\nrelease q 1\nstart a\njoin a\nend\nrecord 1\nacts main\n+ q 1 release 1\n= ok\n* start a ok\n= ok\n* join a\n= ok\nend\nacts a\n+ q 0 release 1\n= ok\nend\ndone\n",
    ];
    for text in texts {
        assert!(rt; comes_back(rt.alloc(), text));
    }
    assert!(rt; ends_too_early(rt.alloc(), CUT, 52));
    Ok(())
}
