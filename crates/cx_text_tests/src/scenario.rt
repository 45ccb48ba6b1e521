use cx_names::{ObjectNo, ThreadNo};
use cx_scenario::{ReadErr, read, read_part};
use std::alloc::Global;
use std::test::Fail;

/// Whether a text is read, and this is its canonical text.
fn writes(alloc: Global, text: &[u8], canonical: &[u8]) -> bool {
    match read(alloc, text) {
        Err(_) => false,
        Ok(scenario) => match scenario.write(alloc) {
            Err(_) => false,
            Ok(written) => written.as_slice() == canonical,
        },
    }
}

#[test]
fn lenient_text_is_written_canonically(rt: HostRuntime) -> Result<(), Fail> {
    let alloc = rt.alloc();
    let least = b"cxthread 1\nmain\nend\n";
    assert!(rt; writes(alloc, least, least));
    assert!(rt; writes(alloc, b"cxthread 1\r\n# x\r\nmain\r\n end", least));
    assert!(rt; writes(alloc, b"\n \t\ncxthread\t1 \n\nmain \nend\n# end\n", least));
    assert!(rt;
        writes(
            alloc,
            b"cxthread 1\nmutex m 01\nthread a\nthread b\nbody b\nlock m\nadd m 0 -007\nend\nmain\nend\n",
            b"cxthread 1\nmutex m 1\nthread a\nthread b\nbody a\nend\nbody b\nlock m\nadd m 0 -7\nend\nmain\nend\n"
        )
    );
    assert!(rt;
        writes(
            alloc,
            b"cxthread 1\ncondition c\nstop s main\njthread j\nmutex m 1\ncallback k j notify_all c\nmain\nwait_stop c m s 0 != -0\nregister k\nderegister k\nend\n",
            b"cxthread 1\ncondition c\nstop s main\njthread j\nmutex m 1\ncallback k j notify_all c\nbody j\nend\nmain\nwait_stop c m s 0 != 0\nregister k\nderegister k\nend\n"
        )
    );
    Ok(())
}

#[test]
fn names_are_found_by_number(rt: HostRuntime) -> Result<(), Fail> {
    let alloc = rt.alloc();
    let scenario = match read(
        alloc,
        b"cxthread 1\nmutex m 2\njthread j\nthread t\nmain\nend\n",
    ) {
        Ok(scenario) => scenario,
        Err(_) => {
            assert!(rt; false);
            return Ok(());
        }
    };
    assert!(rt; scenario.thread_name(ThreadNo(0)) == b"main".as_slice());
    assert!(rt; scenario.thread_name(ThreadNo(2)) == b"t".as_slice());
    assert!(rt; scenario.object_name(ObjectNo(1)) == b"j".as_slice());
    assert_eq!(rt; scenario.plan().threads.len(), 3);
    assert_eq!(rt; scenario.plan().objects.len(), 2);
    Ok(())
}

#[test]
fn the_front_of_a_text_is_read(rt: HostRuntime) -> Result<(), Fail> {
    let alloc = rt.alloc();
    let text = b"cxthread 1\r\n# x\nmain\nend\r\n# y\nrecord 1\n";
    match read_part(alloc, text, 1000) {
        Err(_) => {
            assert!(rt; false);
            return Ok(());
        }
        Ok((scenario, bytes, next)) => {
            assert_eq!(rt; bytes, 26);
            assert_eq!(rt; next, 5);
            assert_eq!(rt; scenario.plan().threads.len(), 1);
        }
    }
    match read_part(alloc, b"cxthread 1\nmain\nend", 19) {
        Err(_) => {
            assert!(rt; false);
            return Ok(());
        }
        Ok((_, bytes, next)) => {
            assert_eq!(rt; bytes, 19);
            assert_eq!(rt; next, 4);
        }
    }
    match read_part(alloc, b"cxthread 1\nmain\nend\nrecord 1\n", 19) {
        Ok(_) => assert!(rt; false),
        Err(ReadErr::NoMemory) => assert!(rt; false),
        Err(ReadErr::Bad(fault)) => assert_eq!(rt; fault.line, 3),
    }
    Ok(())
}
