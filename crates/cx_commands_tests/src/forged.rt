use crate::rows::TWO_THREADS_TEXT;
use cx_commands::Status;

/// A scenario with a record, and what a check of it ends with and writes.
#[derive(Clone, Copy)]
pub struct Forged {
    pub text: &'static [u8],
    pub status: Status,
    pub written: &'static [u8],
}

/// The parts of a scenario with a record that isn't legal, and the line that names its first flaw.
#[derive(Clone, Copy)]
pub struct Tie {
    pub parts: &'static [&'static [u8]],
    pub written: &'static [u8],
}

/// A record for each cause, and one that is cut off.
pub const FORGED: &[Forged] = &[
    // A reply that the text does not allow.
    Forged {
        text: b"cxthread 1\n\
          thread a\n\
          thread b\n\
          semaphore q 0 2\n\
          mutex m 0\n\
          body a\n\
          acquire q\n\
          lock m\n\
          unlock m\n\
          end\n\
          body b\n\
          acquire q\n\
          lock m\n\
          unlock m\n\
          end\n\
          main\n\
          start a\n\
          start b\n\
          release q 2\n\
          join a\n\
          join b\n\
          end\n\
          record 1\n\
          acts main\n\
          * start a ok\n\
          = ok\n\
          * start b ok\n\
          = ok\n\
          + q 0 release 2\n\
          = ok\n\
          * join a\n\
          = ok\n\
          * join b\n\
          = ok\n\
          end\n\
          acts a\n\
          + q 1 acquire\n\
          = true\n\
          + m 0 lock\n\
          = ok\n\
          + m 1 unlock\n\
          = ok\n\
          end\n\
          acts b\n\
          + q 2 acquire\n\
          = ok\n\
          + m 2 lock\n\
          = ok\n\
          + m 3 unlock\n\
          = ok\n\
          end\n\
          done\n",
        status: Status::Illegal,
        written: b"illegal a 1 text\n",
    },
    // A position that no change has.
    Forged {
        text: b"cxthread 1\n\
          thread a\n\
          thread b\n\
          semaphore q 0 2\n\
          mutex m 0\n\
          body a\n\
          acquire q\n\
          lock m\n\
          unlock m\n\
          end\n\
          body b\n\
          acquire q\n\
          lock m\n\
          unlock m\n\
          end\n\
          main\n\
          start a\n\
          start b\n\
          release q 2\n\
          join a\n\
          join b\n\
          end\n\
          record 1\n\
          acts main\n\
          * start a ok\n\
          = ok\n\
          * start b ok\n\
          = ok\n\
          + q 0 release 2\n\
          = ok\n\
          * join a\n\
          = ok\n\
          * join b\n\
          = ok\n\
          end\n\
          acts a\n\
          + q 1 acquire\n\
          = ok\n\
          + m 0 lock\n\
          = ok\n\
          + m 1 unlock\n\
          = ok\n\
          end\n\
          acts b\n\
          + q 2 acquire\n\
          = ok\n\
          + m 2 lock\n\
          = ok\n\
          + m 4 unlock\n\
          = ok\n\
          end\n\
          done\n",
        status: Status::Illegal,
        written: b"illegal b 4 gap\n",
    },
    // A look that is not shown there.
    Forged {
        text: b"cxthread 1\n\
          semaphore q 0 2\n\
          main\n\
          release q 3\n\
          release q 2\n\
          end\n\
          record 1\n\
          acts main\n\
          ? q 2 release 3 over\n\
          = over\n\
          + q 0 release 2\n\
          = ok\n\
          end\n\
          done\n",
        status: Status::Illegal,
        written: b"illegal main 0 shown\n",
    },
    // A thread that goes back.
    Forged {
        text: b"cxthread 1\n\
          semaphore q 0 2\n\
          main\n\
          release q 3\n\
          release q 2\n\
          end\n\
          record 1\n\
          acts main\n\
          ? q 1 release 3 over\n\
          = over\n\
          + q 0 release 2\n\
          = ok\n\
          end\n\
          done\n",
        status: Status::Illegal,
        written: b"illegal main 2 fell\n",
    },
    // A thread behind what main knew at its start.
    Forged {
        text: b"cxthread 1\n\
          thread a\n\
          semaphore q 0 2\n\
          body a\n\
          release q 1\n\
          end\n\
          main\n\
          release q 1\n\
          start a\n\
          join a\n\
          end\n\
          record 1\n\
          acts main\n\
          + q 1 release 1\n\
          = ok\n\
          * start a ok\n\
          = ok\n\
          * join a\n\
          = ok\n\
          end\n\
          acts a\n\
          + q 0 release 1\n\
          = ok\n\
          end\n\
          done\n",
        status: Status::Illegal,
        written: b"illegal a 0 order\n",
    },
    // Positions that the machine does not allow.
    Forged {
        text: b"cxthread 1\n\
          thread a\n\
          thread b\n\
          semaphore q 0 2\n\
          mutex m 0\n\
          body a\n\
          acquire q\n\
          lock m\n\
          unlock m\n\
          end\n\
          body b\n\
          acquire q\n\
          lock m\n\
          unlock m\n\
          end\n\
          main\n\
          start a\n\
          start b\n\
          release q 2\n\
          join a\n\
          join b\n\
          end\n\
          record 1\n\
          acts main\n\
          * start a ok\n\
          = ok\n\
          * start b ok\n\
          = ok\n\
          + q 0 release 2\n\
          = ok\n\
          * join a\n\
          = ok\n\
          * join b\n\
          = ok\n\
          end\n\
          acts a\n\
          + q 1 acquire\n\
          = ok\n\
          + m 1 lock\n\
          = ok\n\
          + m 0 unlock\n\
          = ok\n\
          end\n\
          acts b\n\
          + q 2 acquire\n\
          = ok\n\
          + m 2 lock\n\
          = ok\n\
          + m 3 unlock\n\
          = ok\n\
          end\n\
          done\n",
        status: Status::Illegal,
        written: b"illegal a 4 step\n",
    },
    // A record without its last line.
    Forged {
        text: b"cxthread 1\n\
          thread a\n\
          thread b\n\
          semaphore q 0 2\n\
          mutex m 0\n\
          body a\n\
          acquire q\n\
          lock m\n\
          unlock m\n\
          end\n\
          body b\n\
          acquire q\n\
          lock m\n\
          unlock m\n\
          end\n\
          main\n\
          start a\n\
          start b\n\
          release q 2\n\
          join a\n\
          join b\n\
          end\n\
          record 1\n\
          acts main\n\
          * start a ok\n\
          = ok\n\
          * start b ok\n\
          = ok\n\
          + q 0 release 2\n\
          = ok\n\
          * join a\n\
          = ok\n\
          * join b\n\
          = ok\n\
          end\n\
          acts a\n\
          + q 1 acquire\n\
          = ok\n\
          + m 0 lock\n\
          = ok\n\
          + m 1 unlock\n\
          = ok\n\
          end\n\
          acts b\n\
          + q 2 acquire\n\
          = ok\n\
          + m 2 lock\n\
          = ok\n\
          + m 3 unlock\n\
          = ok\n\
          end\n",
        status: Status::BadScenario,
        written: b"fault 52 NoEnd\n",
    },
];

const MAIN_LIST: &[u8] = b"record 1\n\
  acts main\n\
  * start a ok\n\
  = ok\n\
  * start b ok\n\
  = ok\n\
  + q 0 release 2\n\
  = ok\n\
  * join a\n\
  = ok\n\
  * join b\n\
  = ok\n\
  end\n";

const A_LIST: &[u8] = b"acts a\n\
  + q 1 acquire\n\
  = ok\n\
  + m 0 lock\n\
  = ok\n\
  + m 1 unlock\n\
  = ok\n\
  end\n";

const B_LIST: &[u8] = b"acts b\n\
  + q 2 acquire\n\
  = ok\n\
  + m 2 lock\n\
  = ok\n\
  + m 3 unlock\n\
  = ok\n\
  end\n";

/// Records with several flaws, of which the first is named, and ones with a list too many, too few or too short.
/// Some alter the record of [`TWO_THREADS_TEXT`].
pub const TIES: &[Tie] = &[
    // Text, in two threads: the lower thread, although its item is later.
    Tie {
        parts: &[
            TWO_THREADS_TEXT,
            MAIN_LIST,
            b"acts a\n\
              + q 1 acquire\n\
              = ok\n\
              + m 0 lock\n\
              = true\n\
              + m 1 unlock\n\
              = ok\n\
              end\n",
            b"acts b\n\
              + q 2 acquire\n\
              = true\n\
              + m 2 lock\n\
              = ok\n\
              + m 3 unlock\n\
              = ok\n\
              end\n",
            b"done\n",
        ],
        written: b"illegal a 3 text\n",
    },
    // Text, twice in one list: the earlier item.
    Tie {
        parts: &[
            TWO_THREADS_TEXT,
            MAIN_LIST,
            b"acts a\n\
              + q 1 acquire\n\
              = true\n\
              + m 0 lock\n\
              = true\n\
              + m 1 unlock\n\
              = ok\n\
              end\n",
            B_LIST,
            b"done\n",
        ],
        written: b"illegal a 1 text\n",
    },
    // Gap, of two objects: the lower object, although the thread is higher.
    Tie {
        parts: &[
            TWO_THREADS_TEXT,
            MAIN_LIST,
            b"acts a\n\
              + q 1 acquire\n\
              = ok\n\
              + m 5 lock\n\
              = ok\n\
              + m 1 unlock\n\
              = ok\n\
              end\n",
            b"acts b\n\
              + q 3 acquire\n\
              = ok\n\
              + m 2 lock\n\
              = ok\n\
              + m 3 unlock\n\
              = ok\n\
              end\n",
            b"done\n",
        ],
        written: b"illegal b 0 gap\n",
    },
    // Gap before step: `m` has a gap, and the lower `q` has a step that isn't allowed.
    Tie {
        parts: &[
            TWO_THREADS_TEXT,
            b"record 1\n\
              acts main\n\
              * start a ok\n\
              = ok\n\
              * start b ok\n\
              = ok\n\
              + q 1 release 2\n\
              = ok\n\
              * join a\n\
              = ok\n\
              * join b\n\
              = ok\n\
              end\n",
            b"acts a\n\
              + q 0 acquire\n\
              = ok\n\
              + m 0 lock\n\
              = ok\n\
              + m 1 unlock\n\
              = ok\n\
              end\n",
            b"acts b\n\
              + q 2 acquire\n\
              = ok\n\
              + m 2 lock\n\
              = ok\n\
              + m 4 unlock\n\
              = ok\n\
              end\n",
            b"done\n",
        ],
        written: b"illegal b 4 gap\n",
    },
    // Step, of two objects: the lower object, although the thread is higher.
    Tie {
        parts: &[
            TWO_THREADS_TEXT,
            b"record 1\n\
              acts main\n\
              * start a ok\n\
              = ok\n\
              * start b ok\n\
              = ok\n\
              + q 1 release 2\n\
              = ok\n\
              * join a\n\
              = ok\n\
              * join b\n\
              = ok\n\
              end\n",
            b"acts a\n\
              + q 2 acquire\n\
              = ok\n\
              + m 1 lock\n\
              = ok\n\
              + m 0 unlock\n\
              = ok\n\
              end\n",
            b"acts b\n\
              + q 0 acquire\n\
              = ok\n\
              + m 2 lock\n\
              = ok\n\
              + m 3 unlock\n\
              = ok\n\
              end\n",
            b"done\n",
        ],
        written: b"illegal b 0 step\n",
    },
    // Step before shown, although the look that isn't shown is earlier.
    Tie {
        parts: &[
            b"cxthread 1\n\
              semaphore q 0 2\n\
              semaphore p 0 1\n\
              main\n\
              release q 3\n\
              release q 2\n\
              acquire p\n\
              end\n\
              record 1\n\
              acts main\n\
              ? q 2 release 3 over\n\
              = over\n\
              + q 0 release 2\n\
              = ok\n\
              + p 0 acquire\n\
              = ok\n\
              end\n\
              done\n",
        ],
        written: b"illegal main 4 step\n",
    },
    // Shown before fell, although the item that falls is earlier.
    Tie {
        parts: &[
            b"cxthread 1\n\
              semaphore q 0 2\n\
              main\n\
              release q 2\n\
              release q 3\n\
              release q 3\n\
              end\n\
              record 1\n\
              acts main\n\
              + q 0 release 2\n\
              = ok\n\
              ? q 0 release 3 over\n\
              = over\n\
              ? q 2 release 3 over\n\
              = over\n\
              end\n\
              done\n",
        ],
        written: b"illegal main 4 shown\n",
    },
    // Fell before order, although the item that breaks the order is earlier.
    Tie {
        parts: &[
            b"cxthread 1\n\
              thread a\n\
              semaphore q 0 2\n\
              body a\n\
              release q 1\n\
              release q 9\n\
              end\n\
              main\n\
              release q 1\n\
              start a\n\
              join a\n\
              end\n\
              record 1\n\
              acts main\n\
              + q 1 release 1\n\
              = ok\n\
              * start a ok\n\
              = ok\n\
              * join a\n\
              = ok\n\
              end\n\
              acts a\n\
              + q 0 release 1\n\
              = ok\n\
              ? q 0 release 9 over\n\
              = over\n\
              end\n\
              done\n",
        ],
        written: b"illegal a 2 fell\n",
    },
    // Shown, in two threads: the lower thread, although its item is later.
    Tie {
        parts: &[
            b"cxthread 1\n\
              thread a\n\
              semaphore q 0 2\n\
              body a\n\
              release q 3\n\
              end\n\
              main\n\
              start a\n\
              release q 3\n\
              join a\n\
              end\n\
              record 1\n\
              acts main\n\
              * start a ok\n\
              = ok\n\
              ? q 1 release 3 over\n\
              = over\n\
              * join a\n\
              = ok\n\
              end\n\
              acts a\n\
              ? q 1 release 3 over\n\
              = over\n\
              end\n\
              done\n",
        ],
        written: b"illegal main 2 shown\n",
    },
    // Shown, twice in one list: the earlier item.
    Tie {
        parts: &[
            b"cxthread 1\n\
              semaphore q 0 2\n\
              main\n\
              release q 2\n\
              release q 3\n\
              release q 3\n\
              end\n\
              record 1\n\
              acts main\n\
              + q 0 release 2\n\
              = ok\n\
              ? q 2 release 3 over\n\
              = over\n\
              ? q 3 release 3 over\n\
              = over\n\
              end\n\
              done\n",
        ],
        written: b"illegal main 2 shown\n",
    },
    // Fell: the place is that of the item before, so the second look, which is no older, doesn't fall.
    Tie {
        parts: &[
            b"cxthread 1\n\
              semaphore q 0 2\n\
              main\n\
              release q 2\n\
              release q 3\n\
              release q 3\n\
              end\n\
              record 1\n\
              acts main\n\
              + q 0 release 2\n\
              = ok\n\
              ? q 0 release 3 over\n\
              = over\n\
              ? q 0 release 3 over\n\
              = over\n\
              end\n\
              done\n",
        ],
        written: b"illegal main 2 fell\n",
    },
    // Fell, in two threads: the lower thread, although its item is later.
    Tie {
        parts: &[
            b"cxthread 1\n\
              thread a\n\
              semaphore q 0 2\n\
              semaphore p 0 2\n\
              body a\n\
              release p 2\n\
              release p 3\n\
              end\n\
              main\n\
              start a\n\
              release q 2\n\
              release q 3\n\
              join a\n\
              end\n\
              record 1\n\
              acts main\n\
              * start a ok\n\
              = ok\n\
              + q 0 release 2\n\
              = ok\n\
              ? q 0 release 3 over\n\
              = over\n\
              * join a\n\
              = ok\n\
              end\n\
              acts a\n\
              + p 0 release 2\n\
              = ok\n\
              ? p 0 release 3 over\n\
              = over\n\
              end\n\
              done\n",
        ],
        written: b"illegal main 4 fell\n",
    },
    // Order, in two threads, and twice in one list: the lower thread, and its earlier item.
    Tie {
        parts: &[
            b"cxthread 1\n\
              thread a\n\
              thread b\n\
              semaphore q 0 4\n\
              body a\n\
              release q 1\n\
              release q 1\n\
              end\n\
              body b\n\
              release q 1\n\
              end\n\
              main\n\
              release q 1\n\
              start a\n\
              start b\n\
              join a\n\
              join b\n\
              end\n\
              record 1\n\
              acts main\n\
              + q 3 release 1\n\
              = ok\n\
              * start a ok\n\
              = ok\n\
              * start b ok\n\
              = ok\n\
              * join a\n\
              = ok\n\
              * join b\n\
              = ok\n\
              end\n\
              acts a\n\
              + q 1 release 1\n\
              = ok\n\
              + q 2 release 1\n\
              = ok\n\
              end\n\
              acts b\n\
              + q 0 release 1\n\
              = ok\n\
              end\n\
              done\n",
        ],
        written: b"illegal a 0 order\n",
    },
    // A list that ends too early, named at its length.
    Tie {
        parts: &[
            TWO_THREADS_TEXT,
            MAIN_LIST,
            b"acts a\n\
              + q 1 acquire\n\
              = ok\n\
              + m 0 lock\n\
              = ok\n\
              + m 1 unlock\n\
              end\n",
            B_LIST,
            b"done\n",
        ],
        written: b"illegal a 5 text\n",
    },
    // No list of `main`, which always has one.
    Tie {
        parts: &[
            TWO_THREADS_TEXT,
            b"record 1\n\
              unstarted main\n",
            A_LIST,
            B_LIST,
            b"done\n",
        ],
        written: b"illegal main 0 text\n",
    },
    // No list of a thread that was started.
    Tie {
        parts: &[
            TWO_THREADS_TEXT,
            MAIN_LIST,
            b"unstarted a\n",
            B_LIST,
            b"done\n",
        ],
        written: b"illegal a 0 text\n",
    },
    // A list of a thread that wasn't started.
    Tie {
        parts: &[
            b"cxthread 1\n\
              thread a\n\
              main\n\
              end\n\
              record 1\n\
              acts main\n\
              end\n\
              acts a\n\
              end\n\
              done\n",
        ],
        written: b"illegal a 0 text\n",
    },
];
