/// A scenario in canonical text and what its replay without a seed records.
#[derive(Clone, Copy)]
pub struct Row {
    pub scenario: &'static [u8],
    pub record: &'static [u8],
}

/// One thread and a semaphore.
pub const ONE_SEMAPHORE: Row = Row {
    scenario: b"cxthread 1\n\
      semaphore q 0 1\n\
      main\n\
      release q 1\n\
      acquire q\n\
      end\n",
    record: b"record 1\n\
      acts main\n\
      + q 0 release 1\n\
      = ok\n\
      + q 1 acquire\n\
      = ok\n\
      end\n\
      done\n",
};

/// No call at all.
pub const NO_CALL: Row = Row {
    scenario: b"cxthread 1\n\
      main\n\
      end\n",
    record: b"record 1\n\
      acts main\n\
      end\n\
      done\n",
};

/// The text of a scenario in which two threads take units of a semaphore and then a mutex.
pub const TWO_THREADS_TEXT: &[u8] = b"cxthread 1\n\
  thread a\n\
  thread b\n\
  semaphore q 0 2\n\
  mutex m 0\n\
  body a\n\
  acquire q\n\
  lock m\n\
  unlock m\n\
  end\n\
  body b\n\
  acquire q\n\
  lock m\n\
  unlock m\n\
  end\n\
  main\n\
  start a\n\
  start b\n\
  release q 2\n\
  join a\n\
  join b\n\
  end\n";

/// The scenario of [`TWO_THREADS_TEXT`].
pub const TWO_THREADS: Row = Row {
    scenario: TWO_THREADS_TEXT,
    record: b"record 1\n\
      acts main\n\
      * start a ok\n\
      = ok\n\
      * start b ok\n\
      = ok\n\
      + q 0 release 2\n\
      = ok\n\
      * join a\n\
      = ok\n\
      * join b\n\
      = ok\n\
      end\n\
      acts a\n\
      + q 1 acquire\n\
      = ok\n\
      + m 0 lock\n\
      = ok\n\
      + m 1 unlock\n\
      = ok\n\
      end\n\
      acts b\n\
      + q 2 acquire\n\
      = ok\n\
      + m 2 lock\n\
      = ok\n\
      + m 3 unlock\n\
      = ok\n\
      end\n\
      done\n",
};

/// A stop that is requested is seen.
pub const STOP: Row = Row {
    scenario: b"cxthread 1\n\
      stop st main\n\
      main\n\
      request_stop st\n\
      stop_requested st\n\
      end\n",
    record: b"record 1\n\
      acts main\n\
      + st 0 request\n\
      ? st 1 drained\n\
      = made\n\
      ? st 1 stop_requested true\n\
      = true\n\
      end\n\
      done\n",
};

/// A stop is requested once.
pub const STOP_AGAIN: Row = Row {
    scenario: b"cxthread 1\n\
      stop st main\n\
      main\n\
      request_stop st\n\
      request_stop st\n\
      end\n",
    record: b"record 1\n\
      acts main\n\
      + st 0 request\n\
      ? st 1 drained\n\
      = made\n\
      ? st 1 already\n\
      = already\n\
      end\n\
      done\n",
};

/// A callback that was registered runs at the request.
pub const CALLBACK: Row = Row {
    scenario: b"cxthread 1\n\
      stop st main\n\
      semaphore q 0 1\n\
      callback k st release q 1\n\
      main\n\
      register k\n\
      request_stop st\n\
      deregister k\n\
      end\n",
    record: b"record 1\n\
      acts main\n\
      + st 0 register 0\n\
      = queued\n\
      + st 1 request\n\
      + st 2 begin 0\n\
      + q 0 release 1\n\
      + st 3 finish 0\n\
      ? st 4 drained\n\
      = made\n\
      + st 4 deregister 0 ran\n\
      = ran\n\
      end\n\
      done\n",
};

/// A callback registered after the request runs at once.
pub const CALLBACK_NOW: Row = Row {
    scenario: b"cxthread 1\n\
      stop st main\n\
      semaphore q 0 1\n\
      callback k st release q 1\n\
      main\n\
      request_stop st\n\
      register k\n\
      end\n",
    record: b"record 1\n\
      acts main\n\
      + st 0 request\n\
      ? st 1 drained\n\
      = made\n\
      + st 1 register_now 1\n\
      + q 0 release 1\n\
      + st 2 finish 1\n\
      = ran\n\
      end\n\
      done\n",
};

/// A callback takes itself off while it runs.
pub const CALLBACK_INSIDE: Row = Row {
    scenario: b"cxthread 1\n\
      stop st main\n\
      callback k st deregister k\n\
      main\n\
      register k\n\
      request_stop st\n\
      deregister k\n\
      end\n",
    record: b"record 1\n\
      acts main\n\
      + st 0 register 0\n\
      = queued\n\
      + st 1 request\n\
      + st 2 begin 0\n\
      + st 3 deregister 0 inside\n\
      + st 4 finish 0\n\
      ? st 5 drained\n\
      = made\n\
      = not-held\n\
      end\n\
      done\n",
};

/// No callback is kept where no stop can come.
pub const NO_SOURCE: Row = Row {
    scenario: b"cxthread 1\n\
      stop st main\n\
      semaphore q 0 1\n\
      callback k st release q 1\n\
      main\n\
      drop st\n\
      stop_possible st\n\
      register k\n\
      end\n",
    record: b"record 1\n\
      acts main\n\
      + st 0 drop\n\
      = ok\n\
      ? st 1 stop_possible false\n\
      = false\n\
      ? st 1 never 2\n\
      = never\n\
      end\n\
      done\n",
};

/// A release beyond the greatest value changes nothing.
pub const RELEASE_OVER: Row = Row {
    scenario: b"cxthread 1\n\
      semaphore q 0 2\n\
      main\n\
      release q 3\n\
      release q 2\n\
      end\n",
    record: b"record 1\n\
      acts main\n\
      ? q 0 release 3 over\n\
      = over\n\
      + q 0 release 2\n\
      = ok\n\
      end\n\
      done\n",
};

/// After an exception the next caller runs its own function.
pub const ONCE: Row = Row {
    scenario: b"cxthread 1\n\
      thread a\n\
      thread b\n\
      thread c\n\
      once o\n\
      body a\n\
      call_once o throw 7\n\
      end\n\
      body b\n\
      call_once o return\n\
      end\n\
      body c\n\
      call_once o return\n\
      end\n\
      main\n\
      start a\n\
      start b\n\
      start c\n\
      join a\n\
      join b\n\
      join c\n\
      end\n",
    record: b"record 1\n\
      acts main\n\
      * start a ok\n\
      = ok\n\
      * start b ok\n\
      = ok\n\
      * start c ok\n\
      = ok\n\
      * join a\n\
      = ok\n\
      * join b\n\
      = ok\n\
      * join c\n\
      = ok\n\
      end\n\
      acts a\n\
      + o 0 begin\n\
      + o 1 fail 7\n\
      = threw 7\n\
      end\n\
      acts b\n\
      + o 2 begin\n\
      + o 3 finish\n\
      = returned\n\
      end\n\
      acts c\n\
      ? o 4 passive\n\
      = passive\n\
      end\n\
      done\n",
};

/// A thread that drops out is expected no more.
pub const BARRIER: Row = Row {
    scenario: b"cxthread 1\n\
      thread a\n\
      barrier b 2\n\
      body a\n\
      arrive_and_drop b\n\
      end\n\
      main\n\
      start a\n\
      arrive_and_wait b\n\
      join a\n\
      arrive_and_wait b\n\
      end\n",
    record: b"record 1\n\
      acts main\n\
      * start a ok\n\
      = ok\n\
      + b 0 arrive 1 0\n\
      ? b 3 wait 0\n\
      = ok\n\
      * join a\n\
      = ok\n\
      + b 3 arrive 1 1\n\
      + b 4 complete\n\
      ? b 5 wait 1\n\
      = ok\n\
      end\n\
      acts a\n\
      + b 1 drop 0\n\
      + b 2 complete\n\
      = ok\n\
      end\n\
      done\n",
};

/// A promise that its owner leaves is broken.
pub const BROKEN_PROMISE: Row = Row {
    scenario: b"cxthread 1\n\
      thread a\n\
      promise p a main\n\
      body a\n\
      end\n\
      main\n\
      start a\n\
      get_future p\n\
      get_future p\n\
      get p\n\
      join a\n\
      end\n",
    record: b"record 1\n\
      acts main\n\
      * start a ok\n\
      = ok\n\
      = ok\n\
      = future_already_retrieved\n\
      ? p 1 ready broken_promise\n\
      = broken_promise\n\
      * join a\n\
      = ok\n\
      end\n\
      acts a\n\
      + p 0 set broken_promise\n\
      end\n\
      done\n",
};

/// A stop-aware wait that is stopped at the end of main.
pub const STOPPED_WAIT: Row = Row {
    scenario: b"cxthread 1\n\
      jthread w\n\
      mutex m 1\n\
      condition c\n\
      body w\n\
      lock m\n\
      wait_stop c m w 0 >= 1\n\
      unlock m\n\
      end\n\
      main\n\
      start w\n\
      end\n",
    record: b"record 1\n\
      acts main\n\
      * start w ok\n\
      = ok\n\
      + w 0 request\n\
      ? w 1 drained\n\
      * join w\n\
      end\n\
      acts w\n\
      + m 0 lock\n\
      = ok\n\
      + w 1 register_now 4097\n\
      + c 0 notify_all 0\n\
      + w 2 finish 4097\n\
      ? w 3 stop_requested true\n\
      ? m 1 get 0 0\n\
      = false\n\
      + m 1 unlock\n\
      = ok\n\
      end\n\
      done\n",
};

/// The replies of a mutex and its numbers.
pub const NUMBERS: Row = Row {
    scenario: b"cxthread 1\n\
      mutex m 1\n\
      main\n\
      unlock m\n\
      lock m\n\
      lock m\n\
      set m 0 9223372036854775807\n\
      add m 0 1\n\
      get m 0\n\
      end\n",
    record: b"record 1\n\
      acts main\n\
      = operation_not_permitted\n\
      + m 0 lock\n\
      = ok\n\
      = resource_deadlock_would_occur\n\
      + m 1 set 0 9223372036854775807\n\
      = ok\n\
      ? m 2 add 0 1 overflow\n\
      = overflow\n\
      ? m 2 get 0 9223372036854775807\n\
      = 9223372036854775807\n\
      + m 2 unlock\n\
      end\n\
      done\n",
};

/// What the replay of [`TWO_THREADS`] with the seed 0 records.
pub const TWO_THREADS_SEEDED: &[u8] = b"record 1\n\
  acts main\n\
  * start a ok\n\
  = ok\n\
  * start b ok\n\
  = ok\n\
  + q 0 release 2\n\
  = ok\n\
  * join a\n\
  = ok\n\
  * join b\n\
  = ok\n\
  end\n\
  acts a\n\
  + q 2 acquire\n\
  = ok\n\
  + m 2 lock\n\
  = ok\n\
  + m 3 unlock\n\
  = ok\n\
  end\n\
  acts b\n\
  + q 1 acquire\n\
  = ok\n\
  + m 0 lock\n\
  = ok\n\
  + m 1 unlock\n\
  = ok\n\
  end\n\
  done\n";

/// Nobody releases what the thread waits for.
pub const NOTHING_TO_ACQUIRE: Row = Row {
    scenario: b"cxthread 1\n\
      semaphore q 0 1\n\
      main\n\
      acquire q\n\
      end\n",
    record: b"record 1\n\
      acts main\n\
      end\n\
      stuck main\n",
};

/// The front of each record of [`TWO_THREADS`]: main's list.
pub const TWO_THREADS_MAIN: &[u8] = b"record 1\n\
  acts main\n\
  * start a ok\n\
  = ok\n\
  * start b ok\n\
  = ok\n\
  + q 0 release 2\n\
  = ok\n\
  * join a\n\
  = ok\n\
  * join b\n\
  = ok\n\
  end\n\
  acts a\n\
  + q ";

/// Two threads, and what is recorded where the second start is refused.
pub const REFUSED: Row = Row {
    scenario: b"cxthread 1\n\
      thread a\n\
      thread b\n\
      body a\n\
      end\n\
      body b\n\
      end\n\
      main\n\
      start a\n\
      start b\n\
      join a\n\
      join b\n\
      end\n",
    record: b"record 1\n\
      acts main\n\
      * start a ok\n\
      = ok\n\
      * start b no-thread\n\
      = no-thread\n\
      * join a\n\
      = ok\n\
      = invalid_argument\n\
      end\n\
      acts a\n\
      end\n\
      unstarted b\n\
      done\n",
};

/// A thread gives a latch's count, for which main waits.
pub const LATCH: Row = Row {
    scenario: b"cxthread 1\n\
      thread a\n\
      latch l 1\n\
      body a\n\
      count_down l 1\n\
      end\n\
      main\n\
      start a\n\
      wait l\n\
      try_wait l\n\
      join a\n\
      end\n",
    record: b"record 1\n\
      acts main\n\
      * start a ok\n\
      = ok\n\
      ? l 1 wait\n\
      = ok\n\
      ? l 1 try_wait true\n\
      = true\n\
      * join a\n\
      = ok\n\
      end\n\
      acts a\n\
      + l 0 count_down 1\n\
      = ok\n\
      end\n\
      done\n",
};

/// Main finds a mutex owned while its owner waits for main, and the owner's end gives the mutex back.
pub const OWNED: Row = Row {
    scenario: b"cxthread 1\n\
      thread a\n\
      mutex m 0\n\
      semaphore has 0 1\n\
      semaphore go 0 1\n\
      body a\n\
      lock m\n\
      lock m\n\
      release has 1\n\
      acquire go\n\
      end\n\
      main\n\
      unlock m\n\
      start a\n\
      acquire has\n\
      try_lock m\n\
      release go 1\n\
      lock m\n\
      join a\n\
      unlock m\n\
      end\n",
    record: b"record 1\n\
      acts main\n\
      = operation_not_permitted\n\
      * start a ok\n\
      = ok\n\
      + has 1 acquire\n\
      = ok\n\
      ? m 1 try_lock false\n\
      = false\n\
      + go 0 release 1\n\
      = ok\n\
      + m 2 lock\n\
      = ok\n\
      * join a\n\
      = ok\n\
      + m 3 unlock\n\
      = ok\n\
      end\n\
      acts a\n\
      + m 0 lock\n\
      = ok\n\
      = resource_deadlock_would_occur\n\
      + has 0 release 1\n\
      = ok\n\
      + go 1 acquire\n\
      = ok\n\
      + m 1 unlock\n\
      end\n\
      done\n",
};

/// Rows that have one record in every run, and how many objects each has.
pub const ENDED_BY_ANY: &[(Row, usize)] = &[
    (ONE_SEMAPHORE, 1),
    (NO_CALL, 0),
    (RELEASE_OVER, 1),
    (LATCH, 1),
    (OWNED, 3),
];

/// Two threads read together while a phase of their barrier ends, which releases a semaphore; then each may write.
pub const READERS_MEET: &[u8] = b"cxthread 1\n\
  thread a\n\
  thread b\n\
  semaphore s 0 4\n\
  shared m\n\
  barrier p 2 release s 1\n\
  once o\n\
  body a\n\
  lock_shared m\n\
  arrive_and_wait p\n\
  unlock_shared m\n\
  lock m\n\
  unlock m\n\
  try_lock_shared m\n\
  call_once o return\n\
  end\n\
  body b\n\
  lock_shared m\n\
  arrive_and_wait p\n\
  unlock_shared m\n\
  try_lock m\n\
  acquire s\n\
  call_once o throw 1\n\
  end\n\
  main\n\
  start a\n\
  start b\n\
  join a\n\
  join b\n\
  end\n";

/// Declarations that runs aren't built for.
pub const UNBUILT: &[&[u8]] = &[
    b"mutex m 1\n",
    b"mutex m 8\n",
    b"condition c\n",
    b"condition c\nbarrier b 1 notify_one c\n",
    b"stop st\n",
    b"stop st main t\n",
    b"jthread j\n",
    b"stop st main\ncallback k st release s 1\n",
    b"promise p t main\n",
    b"shared_promise p t main\n",
    b"task f t main return 1\n",
    b"async f async return 1\n",
    b"async f deferred throw 1\n",
];

/// All rows whose replay ends.
pub const ENDED: &[Row] = &[
    ONE_SEMAPHORE,
    NO_CALL,
    TWO_THREADS,
    LATCH,
    OWNED,
    STOP,
    STOP_AGAIN,
    CALLBACK,
    CALLBACK_NOW,
    CALLBACK_INSIDE,
    NO_SOURCE,
    RELEASE_OVER,
    ONCE,
    BARRIER,
    BROKEN_PROMISE,
    STOPPED_WAIT,
    NUMBERS,
];

/// Texts that are no scenarios, and the line that is written of each.
pub const FAULTY: &[(&[u8], &[u8])] = &[
    (b"", b"fault 1 BadVersion\n"),
    (
        b"cxthread 1\nlatch l 1\nmain\ncount_down l 1\ncount_down l 1\nend\n",
        b"fault 5 LatchOver\n",
    ),
    (b"cxthread 1\nthread A\nmain\nend\n", b"fault 2 BadWord\n"),
    (
        b"cxthread 1\nthread a\nthread a\nmain\nend\n",
        b"fault 3 Twice\n",
    ),
    (
        b"cxthread 1\nmutex m 9\nmain\nend\n",
        b"fault 2 OutOfRange\n",
    ),
    (
        b"cxthread 1\nmain\nacquire q\nend\n",
        b"fault 3 UnknownName\n",
    ),
    (
        b"cxthread 1\nsemaphore q 0 1\nmain\nlock q\nend\n",
        b"fault 4 WrongKind\n",
    ),
    (
        b"cxthread 1\nthread a\nmain\nstart a\nend\n",
        b"fault 5 BadOrder\n",
    ),
];

/// A front of a text and its last line, and what is written of the text: as it stands, and with 121 blanks before the
/// last line.
#[derive(Clone, Copy)]
pub struct Padded {
    pub front: &'static [u8],
    pub last: &'static [u8],
    pub short: &'static [u8],
    pub long: &'static [u8],
}

/// Lines with another fault that are too long as well.
pub const PADDED: &[Padded] = &[
    Padded {
        front: b"",
        last: b"cxthread 2\n",
        short: b"fault 1 BadVersion\n",
        long: b"fault 1 TooLong\n",
    },
    Padded {
        front: b"cxthread 1\nlatch l 0\nmain\n",
        last: b"count_down l 1\n",
        short: b"fault 4 LatchOver\n",
        long: b"fault 4 TooLong\n",
    },
    Padded {
        front: b"cxthread 1\nstop st main\ncallback k st deregister k\nmain\n",
        last: b"deregister k\n",
        short: b"fault 5 BadOrder\n",
        long: b"fault 5 TooLong\n",
    },
    Padded {
        front: b"cxthread 1\nthread a\nmain\nstart a\n",
        last: b"end\n",
        short: b"fault 5 BadOrder\n",
        long: b"fault 5 TooLong\n",
    },
];

/// So many declarations of one form, each with a number in its name, the text behind them, and the line that is
/// written of the whole.
#[derive(Clone, Copy)]
pub struct Crowd {
    pub form: &'static [u8],
    pub count: u32,
    pub rest: &'static [u8],
    pub line: &'static [u8],
}

/// Texts with one thread or one object too many, of several forms together.
pub const CROWDS: &[Crowd] = &[
    Crowd {
        form: b"thread t",
        count: 61,
        rest: b"jthread j\nasync f async return 1\nasync g deferred return 1\nmain\nend\n",
        line: b"fault 65 TooMany\n",
    },
    Crowd {
        form: b"thread t",
        count: 61,
        rest: b"async f both throw 1\njthread j\nthread u\nmain\nend\n",
        line: b"fault 65 TooMany\n",
    },
    Crowd {
        form: b"thread t",
        count: 62,
        rest: b"async f async return 1\njthread j\nmain\nend\n",
        line: b"fault 65 TooMany\n",
    },
    Crowd {
        form: b"once o",
        count: 127,
        rest: b"jthread j\nmutex m 0\nmain\nend\n",
        line: b"fault 130 TooMany\n",
    },
    Crowd {
        form: b"once o",
        count: 127,
        rest: b"async f async return 1\njthread j\nmain\nend\n",
        line: b"fault 130 TooMany\n",
    },
    Crowd {
        form: b"once o",
        count: 126,
        rest: b"jthread j\nasync f async return 1\nasync g async return 1\nmain\nend\n",
        line: b"fault 130 TooMany\n",
    },
];
