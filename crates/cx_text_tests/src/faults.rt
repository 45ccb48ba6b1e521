use crate::long::put_same;
use crate::told::{is_told, wrong_row};
use std::test::Fail;

const EACH_KIND: &str = "1 BadVersion|
1 BadVersion|cxthread 2/main/end/
1 BadVersion|cxthread 01/main/end/
2 NotAscii|cxthread 1/main\r\r/end/
3 NotAscii|cxthread 1/main/end\r
2 BadWord|cxthread 1/thread A/main/end/
4 BadWord|cxthread 1/main/end/main/
3 BadWord|cxthread 1/main/thread a/end/
3 BadWord|cxthread 1/mutex m 1/lock m/main/end/
3 BadWord|cxthread 1/main/lock main/end/
2 BadWord|cxthread 1/stop s main a b c d e/main/end/
4 BadWord|cxthread 1/mutex m 0/main/lock_all m/end/
3 UnknownName|cxthread 1/main/acquire q/end/
3 UnknownName|cxthread 1/main/start a/end/thread a/
4 WrongKind|cxthread 1/semaphore q 0 1/main/lock q/end/
4 WrongKind|cxthread 1/jthread j/main/drop j/end/
4 WrongKind|cxthread 1/thread a/body a/start a/end/main/end/
5 WrongKind|cxthread 1/thread a/promise p a main/main/set_value p 1/end/
2 OutOfRange|cxthread 1/mutex m 9/main/end/
2 OutOfRange|cxthread 1/semaphore q 2 1/main/end/
4 OutOfRange|cxthread 1/mutex m 2/main/get m 2/end/
3 Twice|cxthread 1/thread a/thread a/main/end/
5 Twice|cxthread 1/thread a/body a/end/body a/end/main/end/
6 Twice|cxthread 1/thread a/main/start a/join a/start a/end/
5 Twice|cxthread 1/async a both return 1/main/launch a/launch a/end/
4 Twice|cxthread 1/mutex m 0/main/lock_all m m/end/
2 Twice|cxthread 1/stop s main main/main/end/
5 LatchOver|cxthread 1/latch l 1/main/count_down l 1/count_down l 1/end/
5 LatchOver|cxthread 1/latch l 1/main/arrive_and_wait l/arrive_and_wait l/end/
5 BadOrder|cxthread 1/thread a/main/start a/end/
6 BadOrder|cxthread 1/thread a/main/join a/start a/end/
6 BadOrder|cxthread 1/stop s main/condition c/callback k s notify_one c/main/deregister k/end/
3 NoEnd|cxthread 1/main/
2 NoEnd|/
3 NoEnd|cxthread 1/# x/
";

// a latch is shared by all bodies; a registration is one for all bodies, but counts for its own alone; one name
// may stand in lines of different forms; jthreads need no join
const ACROSS_BODIES: &str =
    "10 LatchOver|latch l 3/latch n 3/thread a/body a/count_down l 2/count_down n 3/end/main/count_down l 2/end/
fine|latch l 3/thread a/body a/count_down l 2/end/main/arrive_and_wait l/count_down l 0/end/
10 BadOrder|thread a/stop s a/condition c/callback k s notify_all c/body a/register k/end/main/deregister k/end/
11 Twice|thread a/stop s a/condition c/callback k s notify_all c/body a/register k/deregister k/end/main/register k/end/
fine|thread a/thread b/body b/end/body a/end/main/start a/start b/join b/join a/end/
fine|jthread j/main/start j/end/
fine|thread a/main/start a/join a/join a/join main/end/
";

#[test]
fn each_kind_is_told(rt: HostRuntime) -> Result<(), Fail> {
    let alloc = rt.alloc();
    assert_eq!(rt; wrong_row(alloc, b"", "2 NoEnd|/\n1 NoEnd|/\n")?, Some(2));
    assert_eq!(rt; wrong_row(alloc, b"", EACH_KIND)?, None);
    assert_eq!(rt; wrong_row(alloc, b"cxthread 1\n", ACROSS_BODIES)?, None);
    let mut text = Vec::from_slice(alloc, b"cxthread 1\n# \xff\nmain\nend\n")?;
    assert!(rt; is_told(alloc, &text, "2 NotAscii")?);
    text.clear();
    text.extend_from_slice(b"cxthread\x80 2\n")?;
    assert!(rt; is_told(alloc, &text, "1 NotAscii")?);
    Ok(())
}

/// What stands before the lines with two faults; the next line is line 9.
const FRONT: &[u8] =
    b"cxthread 1\nthread a\nmutex m 2\nsemaphore q 0 1\nlatch l 0\nstop s main\ncondition c\ncallback k s notify_one c\n";

const TWO_KINDS: &str = "9 UnknownName|promise p q x/
9 UnknownName|promise a q x/
9 UnknownName|promise a x main/
9 WrongKind|promise a q main/
9 WrongKind|barrier m 0 release m 70000/
9 OutOfRange|mutex a 9/
9 Twice|mutex a 8/
10 BadWord|main/promise x y z/
10 BadWord|main/promise x q q/
10 BadWord|main/mutex m 9/
10 BadWord|main/thread a/
9 BadWord|count_down l 1/
9 BadWord|deregister k/
10 UnknownName|main/release x 70000/
10 UnknownName|main/wait_pred c x 9 = 0/
10 UnknownName|main/lock_all x q/
10 UnknownName|main/lock_all x x/
10 UnknownName|main/deregister x/
10 WrongKind|main/release m 70000/
10 WrongKind|main/lock_all q q/
10 WrongKind|main/start m/start m/
10 WrongKind|main/deregister m/
10 OutOfRange|main/count_down l 70000/
10 LatchOver|main/count_down l 1/
10 BadOrder|main/deregister k/
";

#[test]
fn the_first_kind_of_a_line_is_told(rt: HostRuntime) -> Result<(), Fail> {
    let alloc = rt.alloc();
    assert_eq!(rt; wrong_row(alloc, FRONT, TWO_KINDS)?, None);
    // before a long run of blanks each of these has another fault, or none
    for rest in [
        "mutex A",
        "promise p a x",
        "promise p q main",
        "mutex n 9",
        "mutex a 8",
        "deregister k",
    ] {
        let mut text = Vec::from_slice(alloc, FRONT)?;
        text.extend_from_slice(rest.as_bytes())?;
        put_same(&mut text, b" ", 121)?;
        assert!(rt; is_told(alloc, &text, "9 TooLong")?);
        text.push(b'\x7f')?;
        assert!(rt; is_told(alloc, &text, "9 NotAscii")?);
    }
    Ok(())
}
