use crate::told::wrong_row;
use std::test::Fail;

/// The next line is line 8.
const DECLARED: &[u8] =
    b"cxthread 1\nthread a\nthread b\nthread d\nthread e\nthread f\nsemaphore q 0 1\n";

const RANGES_OF_DECLARATIONS: &str = "fine|mutex x 0/main/end/
fine|mutex x 8/main/end/
8 OutOfRange|mutex x 9/main/end/
8 BadWord|mutex x -1/main/end/
8 BadWord|mutex x +1/main/end/
fine|semaphore x 65535 65535/main/end/
8 OutOfRange|semaphore x 0 65536/main/end/
8 OutOfRange|semaphore x 0 0/main/end/
fine|latch x 65535/main/end/
8 OutOfRange|latch x 65536/main/end/
fine|latch x 00000000000000000001/main/end/
8 OutOfRange|latch x 99999999999999999999/main/end/
8 BadWord|latch x 000000000000000000001/main/end/
fine|barrier x 4096/main/end/
8 OutOfRange|barrier x 4097/main/end/
8 OutOfRange|barrier x 0/main/end/
fine|barrier x 1 release q 65535/main/end/
8 OutOfRange|barrier x 1 release q 65536/main/end/
fine|async x both return 9223372036854775807/main/end/
8 OutOfRange|async x both return 9223372036854775808/main/end/
fine|async x both return -9223372036854775808/main/end/
8 OutOfRange|async x both return -9223372036854775809/main/end/
fine|async x both return -00000000000000000000/main/end/
fine|async x both throw 4294967295/main/end/
8 OutOfRange|async x both throw 4294967296/main/end/
8 BadWord|async x both throw -0/main/end/
fine|stop x main a b d e/main/end/
8 BadWord|stop x main a b d e f/main/end/
fine|shared_promise x main a b d e/main/end/
8 BadWord|shared_promise x main a b d e f/main/end/
8 BadWord|shared_promise x main/main/end/
fine|thread a234567890123456/main/end/
8 BadWord|thread a2345678901234567/main/end/
8 BadWord|thread ok/main/end/
8 BadWord|thread main/main/end/
";

/// The next line is line 12.
const IN_MAIN: &[u8] =
    b"cxthread 1\nmutex m 2\nmutex n 0\nmutex o 0\nmutex p 0\nsemaphore q 0 1\nlatch l 65535\nbarrier b 1\ncondition c\nonce x\nmain\n";

const RANGES_OF_CALLS: &str = "fine|release q 65535/end/
12 OutOfRange|release q 65536/end/
fine|arrive b 4096/end/
12 OutOfRange|arrive b 4097/end/
12 OutOfRange|arrive b 0/end/
fine|count_down l 65535/end/
fine|set m 1 -1/end/
12 OutOfRange|set m 2 0/end/
fine|wait_pred c m 1 >= 0/end/
12 OutOfRange|wait_pred c m 2 >= 0/end/
12 BadWord|wait_pred c m 1 => 0/end/
fine|lock_all m n o p/end/
12 BadWord|lock_all m n o p m/end/
12 OutOfRange|call_once x throw 4294967296/end/
";

#[test]
fn words_have_their_ranges(rt: HostRuntime) -> Result<(), Fail> {
    let alloc = rt.alloc();
    assert_eq!(rt; wrong_row(alloc, DECLARED, RANGES_OF_DECLARATIONS)?, None);
    assert_eq!(rt; wrong_row(alloc, IN_MAIN, RANGES_OF_CALLS)?, None);
    Ok(())
}
