/// A scenario with a record of it and accesses, and what is written of them.
#[derive(Clone, Copy)]
pub struct Row {
    pub text: &'static [u8],
    pub report: &'static [u8],
}

/// An `unlock` and a `lock`.
const UNLOCK_LOCK: Row = Row {
    text: b"cxthread 1\nthread a\nthread b\nmutex m 0\nbody a\nlock m\nunlock m\nend\nbody b\nlock m\nunlock m\nend\nmain\nstart a\nstart b\njoin a\njoin b\nend\nrecord 1\nacts main\n* start a ok\n= ok\n* start b ok\n= ok\n* join a\n= ok\n* join b\n= ok\nend\nacts a\n+ m 0 lock\n= ok\n+ m 1 unlock\n= ok\nend\nacts b\n+ m 2 lock\n= ok\n+ m 3 unlock\n= ok\nend\ndone\naccesses 1\na 2 x write\nb 1 x read\na 3 y write\nb 1 y read\na 2 z write\nb 0 z read\ndone\n",
    report: b"free x\nrace y 2 3\nrace z 4 5\n",
};

/// An `unlock` and a `try_lock true`.
const UNLOCK_TRY_LOCK: Row = Row {
    text: b"cxthread 1\nthread a\nthread b\nmutex m 0\nbody a\nlock m\nunlock m\nend\nbody b\ntry_lock m\nunlock m\nend\nmain\nstart a\nstart b\njoin a\njoin b\nend\nrecord 1\nacts main\n* start a ok\n= ok\n* start b ok\n= ok\n* join a\n= ok\n* join b\n= ok\nend\nacts a\n+ m 0 lock\n= ok\n+ m 1 unlock\n= ok\nend\nacts b\n+ m 2 try_lock true\n= true\n+ m 3 unlock\n= ok\nend\ndone\naccesses 1\na 2 x write\nb 1 x read\na 3 y write\nb 1 y read\na 2 z write\nb 0 z read\ndone\n",
    report: b"free x\nrace y 2 3\nrace z 4 5\n",
};

/// An `unlock` and a `lock_shared`.
const UNLOCK_LOCK_SHARED: Row = Row {
    text: b"cxthread 1\nthread a\nthread b\nshared s\nbody a\nlock s\nunlock s\nend\nbody b\nlock_shared s\nunlock_shared s\nend\nmain\nstart a\nstart b\njoin a\njoin b\nend\nrecord 1\nacts main\n* start a ok\n= ok\n* start b ok\n= ok\n* join a\n= ok\n* join b\n= ok\nend\nacts a\n+ s 0 lock\n= ok\n+ s 1 unlock\n= ok\nend\nacts b\n+ s 2 lock_shared\n= ok\n+ s 3 unlock_shared\n= ok\nend\ndone\naccesses 1\na 2 x write\nb 1 x read\na 3 y write\nb 1 y read\na 2 z write\nb 0 z read\ndone\n",
    report: b"free x\nrace y 2 3\nrace z 4 5\n",
};

/// An `unlock` and a `try_lock_shared true`.
const UNLOCK_TRY_LOCK_SHARED: Row = Row {
    text: b"cxthread 1\nthread a\nthread b\nshared s\nbody a\nlock s\nunlock s\nend\nbody b\ntry_lock_shared s\nunlock_shared s\nend\nmain\nstart a\nstart b\njoin a\njoin b\nend\nrecord 1\nacts main\n* start a ok\n= ok\n* start b ok\n= ok\n* join a\n= ok\n* join b\n= ok\nend\nacts a\n+ s 0 lock\n= ok\n+ s 1 unlock\n= ok\nend\nacts b\n+ s 2 try_lock_shared true\n= true\n+ s 3 unlock_shared\n= ok\nend\ndone\naccesses 1\na 2 x write\nb 1 x read\na 3 y write\nb 1 y read\na 2 z write\nb 0 z read\ndone\n",
    report: b"free x\nrace y 2 3\nrace z 4 5\n",
};

/// An `unlock_shared` and a `lock`.
const UNLOCK_SHARED_LOCK: Row = Row {
    text: b"cxthread 1\nthread a\nthread b\nshared s\nbody a\nlock_shared s\nunlock_shared s\nend\nbody b\nlock s\nunlock s\nend\nmain\nstart a\nstart b\njoin a\njoin b\nend\nrecord 1\nacts main\n* start a ok\n= ok\n* start b ok\n= ok\n* join a\n= ok\n* join b\n= ok\nend\nacts a\n+ s 0 lock_shared\n= ok\n+ s 1 unlock_shared\n= ok\nend\nacts b\n+ s 2 lock\n= ok\n+ s 3 unlock\n= ok\nend\ndone\naccesses 1\na 2 x write\nb 1 x read\na 3 y write\nb 1 y read\na 2 z write\nb 0 z read\ndone\n",
    report: b"free x\nrace y 2 3\nrace z 4 5\n",
};

/// An `unlock_shared` and a `try_lock true`.
const UNLOCK_SHARED_TRY_LOCK: Row = Row {
    text: b"cxthread 1\nthread a\nthread b\nshared s\nbody a\nlock_shared s\nunlock_shared s\nend\nbody b\ntry_lock s\nunlock s\nend\nmain\nstart a\nstart b\njoin a\njoin b\nend\nrecord 1\nacts main\n* start a ok\n= ok\n* start b ok\n= ok\n* join a\n= ok\n* join b\n= ok\nend\nacts a\n+ s 0 lock_shared\n= ok\n+ s 1 unlock_shared\n= ok\nend\nacts b\n+ s 2 try_lock true\n= true\n+ s 3 unlock\n= ok\nend\ndone\naccesses 1\na 2 x write\nb 1 x read\na 3 y write\nb 1 y read\na 2 z write\nb 0 z read\ndone\n",
    report: b"free x\nrace y 2 3\nrace z 4 5\n",
};

/// An `unlock_shared` and a `lock_shared`, which no row orders.
const SHARED_LOCKS: Row = Row {
    text: b"cxthread 1\nthread a\nthread b\nshared s\nbody a\nlock_shared s\nunlock_shared s\nend\nbody b\nlock_shared s\nunlock_shared s\nend\nmain\nstart a\nstart b\njoin a\njoin b\nend\nrecord 1\nacts main\n* start a ok\n= ok\n* start b ok\n= ok\n* join a\n= ok\n* join b\n= ok\nend\nacts a\n+ s 0 lock_shared\n= ok\n+ s 1 unlock_shared\n= ok\nend\nacts b\n+ s 2 lock_shared\n= ok\n+ s 3 unlock_shared\n= ok\nend\ndone\naccesses 1\na 2 x write\nb 1 x read\na 3 y write\nb 1 y read\na 2 z write\nb 0 z read\ndone\n",
    report: b"race x 0 1\nrace y 2 3\nrace z 4 5\n",
};

/// A `release` and an `acquire`.
const RELEASE_ACQUIRE: Row = Row {
    text: b"cxthread 1\nthread a\nthread b\nsemaphore q 0 9\nbody a\nrelease q 1\nend\nbody b\nacquire q\nend\nmain\nstart a\nstart b\njoin a\njoin b\nend\nrecord 1\nacts main\n* start a ok\n= ok\n* start b ok\n= ok\n* join a\n= ok\n* join b\n= ok\nend\nacts a\n+ q 0 release 1\n= ok\nend\nacts b\n+ q 1 acquire\n= ok\nend\ndone\naccesses 1\na 0 x write\nb 1 x read\na 1 y write\nb 1 y read\na 0 z write\nb 0 z read\ndone\n",
    report: b"free x\nrace y 2 3\nrace z 4 5\n",
};

/// A `release` and a `try_acquire true`.
const RELEASE_TRY_ACQUIRE: Row = Row {
    text: b"cxthread 1\nthread a\nthread b\nsemaphore q 0 9\nbody a\nrelease q 1\nend\nbody b\ntry_acquire q\nend\nmain\nstart a\nstart b\njoin a\njoin b\nend\nrecord 1\nacts main\n* start a ok\n= ok\n* start b ok\n= ok\n* join a\n= ok\n* join b\n= ok\nend\nacts a\n+ q 0 release 1\n= ok\nend\nacts b\n+ q 1 try_acquire true\n= true\nend\ndone\naccesses 1\na 0 x write\nb 1 x read\na 1 y write\nb 1 y read\na 0 z write\nb 0 z read\ndone\n",
    report: b"free x\nrace y 2 3\nrace z 4 5\n",
};

/// A `count_down` and a `wait`.
const COUNT_DOWN_WAIT: Row = Row {
    text: b"cxthread 1\nthread a\nthread b\nlatch l 1\nbody a\ncount_down l 1\nend\nbody b\nwait l\nend\nmain\nstart a\nstart b\njoin a\njoin b\nend\nrecord 1\nacts main\n* start a ok\n= ok\n* start b ok\n= ok\n* join a\n= ok\n* join b\n= ok\nend\nacts a\n+ l 0 count_down 1\n= ok\nend\nacts b\n? l 1 wait\n= ok\nend\ndone\naccesses 1\na 0 x write\nb 1 x read\na 1 y write\nb 1 y read\na 0 z write\nb 0 z read\ndone\n",
    report: b"free x\nrace y 2 3\nrace z 4 5\n",
};

/// A `count_down` and a `try_wait true`.
const COUNT_DOWN_TRY_WAIT: Row = Row {
    text: b"cxthread 1\nthread a\nthread b\nlatch l 1\nbody a\ncount_down l 1\nend\nbody b\ntry_wait l\nend\nmain\nstart a\nstart b\njoin a\njoin b\nend\nrecord 1\nacts main\n* start a ok\n= ok\n* start b ok\n= ok\n* join a\n= ok\n* join b\n= ok\nend\nacts a\n+ l 0 count_down 1\n= ok\nend\nacts b\n? l 1 try_wait true\n= true\nend\ndone\naccesses 1\na 0 x write\nb 1 x read\na 1 y write\nb 1 y read\na 0 z write\nb 0 z read\ndone\n",
    report: b"free x\nrace y 2 3\nrace z 4 5\n",
};

/// An `arrive` and the last `arrive`.
const ARRIVE_ARRIVE: Row = Row {
    text: b"cxthread 1\nthread a\nthread b\nbarrier w 2\nbody a\narrive w 1\nend\nbody b\narrive w 1\nend\nmain\nstart a\nstart b\njoin a\njoin b\nend\nrecord 1\nacts main\n* start a ok\n= ok\n* start b ok\n= ok\n* join a\n= ok\n* join b\n= ok\nend\nacts a\n+ w 0 arrive 1 0\n= 0\nend\nacts b\n+ w 1 arrive 1 0\n+ w 2 complete\n= 0\nend\ndone\naccesses 1\na 0 x write\nb 1 x read\na 1 y write\nb 1 y read\na 0 z write\nb 0 z read\ndone\n",
    report: b"free x\nrace y 2 3\nrace z 4 5\n",
};

/// A `drop` and the last `drop`.
const DROP_DROP: Row = Row {
    text: b"cxthread 1\nthread a\nthread b\nbarrier w 2\nbody a\narrive_and_drop w\nend\nbody b\narrive_and_drop w\nend\nmain\nstart a\nstart b\njoin a\njoin b\nend\nrecord 1\nacts main\n* start a ok\n= ok\n* start b ok\n= ok\n* join a\n= ok\n* join b\n= ok\nend\nacts a\n+ w 0 drop 0\n= ok\nend\nacts b\n+ w 1 drop 0\n+ w 2 complete\n= ok\nend\ndone\naccesses 1\na 0 x write\nb 1 x read\na 1 y write\nb 1 y read\na 0 z write\nb 0 z read\ndone\n",
    report: b"free x\nrace y 2 3\nrace z 4 5\n",
};

/// An `arrive` and the last `drop`.
const ARRIVE_DROP: Row = Row {
    text: b"cxthread 1\nthread a\nthread b\nbarrier w 2\nbody a\narrive w 1\nend\nbody b\narrive_and_drop w\nend\nmain\nstart a\nstart b\njoin a\njoin b\nend\nrecord 1\nacts main\n* start a ok\n= ok\n* start b ok\n= ok\n* join a\n= ok\n* join b\n= ok\nend\nacts a\n+ w 0 arrive 1 0\n= 0\nend\nacts b\n+ w 1 drop 0\n+ w 2 complete\n= ok\nend\ndone\naccesses 1\na 0 x write\nb 1 x read\na 1 y write\nb 1 y read\na 0 z write\nb 0 z read\ndone\n",
    report: b"free x\nrace y 2 3\nrace z 4 5\n",
};

/// A `drop` and the last `arrive`.
const DROP_ARRIVE: Row = Row {
    text: b"cxthread 1\nthread a\nthread b\nbarrier w 2\nbody a\narrive_and_drop w\nend\nbody b\narrive w 1\nend\nmain\nstart a\nstart b\njoin a\njoin b\nend\nrecord 1\nacts main\n* start a ok\n= ok\n* start b ok\n= ok\n* join a\n= ok\n* join b\n= ok\nend\nacts a\n+ w 0 drop 0\n= ok\nend\nacts b\n+ w 1 arrive 1 0\n+ w 2 complete\n= 0\nend\ndone\naccesses 1\na 0 x write\nb 1 x read\na 1 y write\nb 1 y read\na 0 z write\nb 0 z read\ndone\n",
    report: b"free x\nrace y 2 3\nrace z 4 5\n",
};

/// An `arrive` and another that isn't the last one, which no row orders.
const EARLIER_ARRIVAL: Row = Row {
    text: b"cxthread 1\nthread a\nthread b\nbarrier w 3\nbody a\narrive w 1\nend\nbody b\narrive w 1\nend\nmain\nstart a\nstart b\narrive w 1\njoin a\njoin b\nend\nrecord 1\nacts main\n* start a ok\n= ok\n* start b ok\n= ok\n+ w 2 arrive 1 0\n+ w 3 complete\n= 0\n* join a\n= ok\n* join b\n= ok\nend\nacts a\n+ w 0 arrive 1 0\n= 0\nend\nacts b\n+ w 1 arrive 1 0\n= 0\nend\ndone\naccesses 1\na 0 x write\nb 1 x read\na 0 y write\nmain 5 y read\na 0 z write\nmain 4 z read\ndone\n",
    report: b"race x 0 1\nfree y\nrace z 4 5\n",
};

/// A `complete` and a `wait` for its phase.
const COMPLETE_WAIT: Row = Row {
    text: b"cxthread 1\nthread a\nthread b\nbarrier w 2\nbody a\narrive_and_wait w\nend\nbody b\narrive w 1\nend\nmain\nstart a\nstart b\njoin a\njoin b\nend\nrecord 1\nacts main\n* start a ok\n= ok\n* start b ok\n= ok\n* join a\n= ok\n* join b\n= ok\nend\nacts a\n+ w 0 arrive 1 0\n? w 3 wait 0\n= ok\nend\nacts b\n+ w 1 arrive 1 0\n+ w 2 complete\n= 0\nend\ndone\naccesses 1\nb 1 x write\na 2 x read\nb 2 y write\na 2 y read\nb 1 z write\na 1 z read\ndone\n",
    report: b"free x\nrace y 2 3\nrace z 4 5\n",
};

/// A `complete` and a `wait` for a later phase.
const COMPLETE_LATER_WAIT: Row = Row {
    text: b"cxthread 1\nthread a\nthread b\nbarrier w 1\nbody a\narrive_and_wait w\nend\nbody b\narrive w 1\nend\nmain\nstart a\nstart b\njoin a\njoin b\nend\nrecord 1\nacts main\n* start a ok\n= ok\n* start b ok\n= ok\n* join a\n= ok\n* join b\n= ok\nend\nacts a\n+ w 2 arrive 1 1\n+ w 3 complete\n? w 4 wait 1\n= ok\nend\nacts b\n+ w 0 arrive 1 0\n+ w 1 complete\n= 0\nend\ndone\naccesses 1\nb 1 x write\na 3 x read\nb 2 y write\na 3 y read\nb 1 z write\na 2 z read\ndone\n",
    report: b"free x\nrace y 2 3\nrace z 4 5\n",
};

/// A `fail` and a `begin`.
const FAIL_BEGIN: Row = Row {
    text: b"cxthread 1\nthread a\nthread b\nonce o\nbody a\ncall_once o throw 7\nend\nbody b\ncall_once o return\nend\nmain\nstart a\nstart b\njoin a\njoin b\nend\nrecord 1\nacts main\n* start a ok\n= ok\n* start b ok\n= ok\n* join a\n= ok\n* join b\n= ok\nend\nacts a\n+ o 0 begin\n+ o 1 fail 7\n= threw 7\nend\nacts b\n+ o 2 begin\n+ o 3 finish\n= returned\nend\ndone\naccesses 1\na 1 x write\nb 1 x read\na 2 y write\nb 1 y read\na 1 z write\nb 0 z read\ndone\n",
    report: b"free x\nrace y 2 3\nrace z 4 5\n",
};

/// A `finish` and a `passive`.
const FINISH_PASSIVE: Row = Row {
    text: b"cxthread 1\nthread a\nthread b\nonce o\nbody a\ncall_once o return\nend\nbody b\ncall_once o return\nend\nmain\nstart a\nstart b\njoin a\njoin b\nend\nrecord 1\nacts main\n* start a ok\n= ok\n* start b ok\n= ok\n* join a\n= ok\n* join b\n= ok\nend\nacts a\n+ o 0 begin\n+ o 1 finish\n= returned\nend\nacts b\n? o 2 passive\n= passive\nend\ndone\naccesses 1\na 1 x write\nb 1 x read\na 2 y write\nb 1 y read\na 1 z write\nb 0 z read\ndone\n",
    report: b"free x\nrace y 2 3\nrace z 4 5\n",
};

/// A `request` and a `stop_requested true`.
const REQUEST_SEEN: Row = Row {
    text: b"cxthread 1\nthread a\nthread b\nstop st a\nbody a\nrequest_stop st\nend\nbody b\nstop_requested st\nend\nmain\nstart a\nstart b\njoin a\njoin b\nend\nrecord 1\nacts main\n* start a ok\n= ok\n* start b ok\n= ok\n* join a\n= ok\n* join b\n= ok\nend\nacts a\n+ st 0 request\n? st 1 drained\n= made\nend\nacts b\n? st 1 stop_requested true\n= true\nend\ndone\naccesses 1\na 0 x write\nb 1 x read\na 1 y write\nb 1 y read\na 0 z write\nb 0 z read\ndone\n",
    report: b"free x\nrace y 2 3\nrace z 4 5\n",
};

/// A `request` and a `register_now`.
const REQUEST_REGISTER_NOW: Row = Row {
    text: b"cxthread 1\nthread a\nthread b\nstop st a\nsemaphore q 0 9\ncallback k st release q 1\nbody a\nrequest_stop st\nend\nbody b\nregister k\nend\nmain\nstart a\nstart b\njoin a\njoin b\nend\nrecord 1\nacts main\n* start a ok\n= ok\n* start b ok\n= ok\n* join a\n= ok\n* join b\n= ok\nend\nacts a\n+ st 0 request\n? st 1 drained\n= made\nend\nacts b\n+ st 1 register_now 8192\n+ q 0 release 1\n+ st 2 finish 8192\n= ran\nend\ndone\naccesses 1\na 0 x write\nb 1 x read\na 1 y write\nb 1 y read\na 0 z write\nb 0 z read\ndone\n",
    report: b"free x\nrace y 2 3\nrace z 4 5\n",
};

/// A `register` and the `begin` of its callback.
const REGISTER_BEGIN: Row = Row {
    text: b"cxthread 1\nthread a\nthread b\nstop st b\nsemaphore q 0 9\ncallback k st release q 1\nbody a\nregister k\nend\nbody b\nrequest_stop st\nend\nmain\nstart a\nstart b\njoin a\njoin b\nend\nrecord 1\nacts main\n* start a ok\n= ok\n* start b ok\n= ok\n* join a\n= ok\n* join b\n= ok\nend\nacts a\n+ st 0 register 4096\n= queued\nend\nacts b\n+ st 1 request\n+ st 2 begin 4096\n+ q 0 release 1\n+ st 3 finish 4096\n? st 4 drained\n= made\nend\ndone\naccesses 1\na 0 x write\nb 2 x read\na 1 y write\nb 2 y read\na 0 z write\nb 1 z read\ndone\n",
    report: b"free x\nrace y 2 3\nrace z 4 5\n",
};

/// A `set` and a `ready`.
const SET_READY: Row = Row {
    text: b"cxthread 1\nthread a\nthread b\npromise p a b\nbody a\nset_value p 5\nend\nbody b\nget_future p\nget p\nend\nmain\nstart a\nstart b\njoin a\njoin b\nend\nrecord 1\nacts main\n* start a ok\n= ok\n* start b ok\n= ok\n* join a\n= ok\n* join b\n= ok\nend\nacts a\n+ p 0 set value 5\n= ok\nend\nacts b\n= ok\n? p 1 ready value 5\n= value 5\nend\ndone\naccesses 1\na 0 x write\nb 2 x read\na 1 y write\nb 2 y read\na 0 z write\nb 1 z read\ndone\n",
    report: b"free x\nrace y 2 3\nrace z 4 5\n",
};

/// The `finish` of a callback and a `deregister ran`.
const CALLBACK_RAN: Row = Row {
    text: b"cxthread 1\nthread b\nstop st b\nsemaphore q 0 9\ncallback k st release q 1\nbody b\nrequest_stop st\nend\nmain\nregister k\nstart b\nacquire q\nderegister k\njoin b\nend\nrecord 1\nacts main\n+ st 0 register 0\n= queued\n* start b ok\n= ok\n+ q 1 acquire\n= ok\n+ st 4 deregister 0 ran\n= ran\n* join b\n= ok\nend\nacts b\n+ st 1 request\n+ st 2 begin 0\n+ q 0 release 1\n+ st 3 finish 0\n? st 4 drained\n= made\nend\ndone\naccesses 1\nb 3 x write\nmain 7 x read\nb 4 y write\nmain 7 y read\nb 3 z write\nmain 6 z read\ndone\n",
    report: b"free x\nrace y 2 3\nrace z 4 5\n",
};

/// A `start`, a `join` and the list between them.
const START_JOIN: Row = Row {
    text: b"cxthread 1\nthread a\nbody a\nend\nmain\nstart a\njoin a\nend\nrecord 1\nacts main\n* start a ok\n= ok\n* join a\n= ok\nend\nacts a\nend\ndone\naccesses 1\nmain 0 x write\na 0 x read\nmain 1 y write\na 0 y read\na 0 z write\nmain 3 z read\na 0 u write\nmain 2 u read\ndone\n",
    report: b"free x\nrace y 2 3\nfree z\nrace u 6 7\n",
};

/// A `launch`.
const LAUNCH: Row = Row {
    text: b"cxthread 1\nasync f async return 7\nmain\nlaunch f\nget f\nend\nrecord 1\nacts main\n* launch f ok\n= launched\n? f 1 ready value 7\n= value 7\nend\nacts f\n+ f 0 set value 7\nend\ndone\naccesses 1\nmain 0 x write\nf 0 x read\nmain 1 y write\nf 0 y read\ndone\n",
    report: b"free x\nrace y 2 3\n",
};

/// Accesses inside a mutex, after a start, and before a release.
pub const HANDOFF: Row = Row {
    text: b"cxthread 1\nthread a\nthread b\nsemaphore q 0 2\nmutex m 0\nbody a\nacquire q\nlock m\nunlock m\nend\nbody b\nacquire q\nlock m\nunlock m\nend\nmain\nstart a\nstart b\nrelease q 2\njoin a\njoin b\nend\nrecord 1\nacts main\n* start a ok\n= ok\n* start b ok\n= ok\n+ q 0 release 2\n= ok\n* join a\n= ok\n* join b\n= ok\nend\nacts a\n+ q 1 acquire\n= ok\n+ m 0 lock\n= ok\n+ m 1 unlock\n= ok\nend\nacts b\n+ q 2 acquire\n= ok\n+ m 2 lock\n= ok\n+ m 3 unlock\n= ok\nend\ndone\naccesses 1\na 4 x write\nb 4 x write\nmain 2 y write\na 0 y read\nmain 3 z write\na 1 z read\ndone\n",
    report: b"free x\nrace y 2 3\nfree z\n",
};

/// Accesses of two threads that nothing orders: the least pair is named, and reads alone are free.
pub const LEAST_PAIR: Row = Row {
    text: b"cxthread 1\nthread a\nthread b\nbody a\nend\nbody b\nend\nmain\nstart a\nstart b\njoin a\njoin b\nend\nrecord 1\nacts main\n* start a ok\n= ok\n* start b ok\n= ok\n* join a\n= ok\n* join b\n= ok\nend\nacts a\nend\nacts b\nend\ndone\naccesses 1\na 0 x read\nb 0 x read\na 0 x write\nb 0 x write\na 0 y read\nb 0 y read\nmain 0 y write\ndone\n",
    report: b"race x 0 3\nfree y\n",
};

/// Two threads that each wait for the other, which no machine alone rules out.
pub const CYCLE: Row = Row {
    text: b"cxthread 1\nthread a\nthread b\nsemaphore q 0 1\nsemaphore r 0 1\nbody a\nacquire q\nrelease r 1\nend\nbody b\nacquire r\nrelease q 1\nend\nmain\nstart a\nstart b\njoin a\njoin b\nend\nrecord 1\nacts main\n* start a ok\n= ok\n* start b ok\n= ok\n* join a\n= ok\n* join b\n= ok\nend\nacts a\n+ q 1 acquire\n= ok\n+ r 0 release 1\n= ok\nend\nacts b\n+ r 1 acquire\n= ok\n+ q 0 release 1\n= ok\nend\ndone\naccesses 1\ndone\n",
    report: b"cycle a 1\n",
};

/// The edges of mutexes and shared mutexes, each where it alone decides.
pub const LOCK_EDGES: [Row; 7] = [
    UNLOCK_LOCK,
    UNLOCK_TRY_LOCK,
    UNLOCK_LOCK_SHARED,
    UNLOCK_TRY_LOCK_SHARED,
    UNLOCK_SHARED_LOCK,
    UNLOCK_SHARED_TRY_LOCK,
    SHARED_LOCKS,
];

/// Those of semaphores, latches and barriers.
pub const COUNT_EDGES: [Row; 11] = [
    RELEASE_ACQUIRE,
    RELEASE_TRY_ACQUIRE,
    COUNT_DOWN_WAIT,
    COUNT_DOWN_TRY_WAIT,
    ARRIVE_ARRIVE,
    DROP_DROP,
    ARRIVE_DROP,
    DROP_ARRIVE,
    EARLIER_ARRIVAL,
    COMPLETE_WAIT,
    COMPLETE_LATER_WAIT,
];

/// Those of once flags, stops, callbacks, futures and threads.
pub const OTHER_EDGES: [Row; 9] = [
    FAIL_BEGIN,
    FINISH_PASSIVE,
    REQUEST_SEEN,
    REQUEST_REGISTER_NOW,
    REGISTER_BEGIN,
    SET_READY,
    CALLBACK_RAN,
    START_JOIN,
    LAUNCH,
];
