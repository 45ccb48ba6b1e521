use crate::rows::Row;

/// A byte that is no text.
const NOT_ASCII: Row = Row {
    text: b"cxthread 1\nthread a\nthread b\nmutex m 0\nbody a\nlock m\nunlock m\nend\nmain\nstart a\njoin a\nend\nrecord 1\nacts main\n* start a ok\n= ok\n* join a\n= ok\nend\nacts a\n+ m 0 lock\n= ok\n+ m 1 unlock\n= ok\nend\nunstarted b\ndone\naccesses 1\na 0 \x01 write\ndone\n",
    report: b"fault 29 NotAscii\n",
};

/// A line of 121 bytes.
const TOO_LONG: Row = Row {
    text: b"cxthread 1\nthread a\nthread b\nmutex m 0\nbody a\nlock m\nunlock m\nend\nmain\nstart a\njoin a\nend\nrecord 1\nacts main\n* start a ok\n= ok\n* join a\n= ok\nend\nacts a\n+ m 0 lock\n= ok\n+ m 1 unlock\n= ok\nend\nunstarted b\ndone\naccesses 1\n#xxxxxxxxxxxxxxxxxxxxxxxxxxxxxxxxxxxxxxxxxxxxxxxxxxxxxxxxxxxxxxxxxxxxxxxxxxxxxxxxxxxxxxxxxxxxxxxxxxxxxxxxxxxxxxxxxxxxxxxx\ndone\n",
    report: b"fault 29 TooLong\n",
};

/// Another first line.
const BAD_VERSION: Row = Row {
    text: b"cxthread 1\nthread a\nthread b\nmutex m 0\nbody a\nlock m\nunlock m\nend\nmain\nstart a\njoin a\nend\nrecord 1\nacts main\n* start a ok\n= ok\n* join a\n= ok\nend\nacts a\n+ m 0 lock\n= ok\n+ m 1 unlock\n= ok\nend\nunstarted b\ndone\naccesses 01\ndone\n",
    report: b"fault 28 BadVersion\n",
};

/// A word that is neither `read` nor `write`.
const BAD_WORD: Row = Row {
    text: b"cxthread 1\nthread a\nthread b\nmutex m 0\nbody a\nlock m\nunlock m\nend\nmain\nstart a\njoin a\nend\nrecord 1\nacts main\n* start a ok\n= ok\n* join a\n= ok\nend\nacts a\n+ m 0 lock\n= ok\n+ m 1 unlock\n= ok\nend\nunstarted b\ndone\naccesses 1\na 0 x wrote\ndone\n",
    report: b"fault 29 BadWord\n",
};

/// A variable without a name.
const BAD_NAME: Row = Row {
    text: b"cxthread 1\nthread a\nthread b\nmutex m 0\nbody a\nlock m\nunlock m\nend\nmain\nstart a\njoin a\nend\nrecord 1\nacts main\n* start a ok\n= ok\n* join a\n= ok\nend\nacts a\n+ m 0 lock\n= ok\n+ m 1 unlock\n= ok\nend\nunstarted b\ndone\naccesses 1\na 0 main write\ndone\n",
    report: b"fault 29 BadWord\n",
};

/// A line behind `done`.
const BEHIND_DONE: Row = Row {
    text: b"cxthread 1\nthread a\nthread b\nmutex m 0\nbody a\nlock m\nunlock m\nend\nmain\nstart a\njoin a\nend\nrecord 1\nacts main\n* start a ok\n= ok\n* join a\n= ok\nend\nacts a\n+ m 0 lock\n= ok\n+ m 1 unlock\n= ok\nend\nunstarted b\ndone\naccesses 1\ndone\na 0 x write\n",
    report: b"fault 30 BadWord\n",
};

/// A thread that isn't declared.
const UNKNOWN_NAME: Row = Row {
    text: b"cxthread 1\nthread a\nthread b\nmutex m 0\nbody a\nlock m\nunlock m\nend\nmain\nstart a\njoin a\nend\nrecord 1\nacts main\n* start a ok\n= ok\n* join a\n= ok\nend\nacts a\n+ m 0 lock\n= ok\n+ m 1 unlock\n= ok\nend\nunstarted b\ndone\naccesses 1\nc 0 x write\ndone\n",
    report: b"fault 29 UnknownName\n",
};

/// An object's name for a thread's.
const WRONG_KIND: Row = Row {
    text: b"cxthread 1\nthread a\nthread b\nmutex m 0\nbody a\nlock m\nunlock m\nend\nmain\nstart a\njoin a\nend\nrecord 1\nacts main\n* start a ok\n= ok\n* join a\n= ok\nend\nacts a\n+ m 0 lock\n= ok\n+ m 1 unlock\n= ok\nend\nunstarted b\ndone\naccesses 1\nm 0 x write\ndone\n",
    report: b"fault 29 WrongKind\n",
};

/// A point behind the last one.
const OUT_OF_RANGE: Row = Row {
    text: b"cxthread 1\nthread a\nthread b\nmutex m 0\nbody a\nlock m\nunlock m\nend\nmain\nstart a\njoin a\nend\nrecord 1\nacts main\n* start a ok\n= ok\n* join a\n= ok\nend\nacts a\n+ m 0 lock\n= ok\n+ m 1 unlock\n= ok\nend\nunstarted b\ndone\naccesses 1\na 4 x write\na 5 x write\ndone\n",
    report: b"fault 30 OutOfRange\n",
};

/// A thread without a list.
const NO_LIST: Row = Row {
    text: b"cxthread 1\nthread a\nthread b\nmutex m 0\nbody a\nlock m\nunlock m\nend\nmain\nstart a\njoin a\nend\nrecord 1\nacts main\n* start a ok\n= ok\n* join a\n= ok\nend\nacts a\n+ m 0 lock\n= ok\n+ m 1 unlock\n= ok\nend\nunstarted b\ndone\naccesses 1\nb 0 x write\ndone\n",
    report: b"fault 29 OutOfRange\n",
};

/// No `done`.
const NO_END: Row = Row {
    text: b"cxthread 1\nthread a\nthread b\nmutex m 0\nbody a\nlock m\nunlock m\nend\nmain\nstart a\njoin a\nend\nrecord 1\nacts main\n* start a ok\n= ok\n* join a\n= ok\nend\nacts a\n+ m 0 lock\n= ok\n+ m 1 unlock\n= ok\nend\nunstarted b\ndone\naccesses 1\na 0 x write\n",
    report: b"fault 30 NoEnd\n",
};

/// No third part.
const NO_ACCESSES: Row = Row {
    text: b"cxthread 1\nthread a\nthread b\nmutex m 0\nbody a\nlock m\nunlock m\nend\nmain\nstart a\njoin a\nend\nrecord 1\nacts main\n* start a ok\n= ok\n* join a\n= ok\nend\nacts a\n+ m 0 lock\n= ok\n+ m 1 unlock\n= ok\nend\nunstarted b\ndone\n",
    report: b"fault 28 NoEnd\n",
};

/// A record of another scenario.
const OTHER_SCENARIO: Row = Row {
    text: b"cxthread 1\nthread c\nbody c\nend\nmain\nstart c\njoin c\nend\nrecord 1\nacts main\n* start a ok\n= ok\n* join a\n= ok\nend\nacts a\nend\ndone\naccesses 1\ndone\n",
    report: b"fault 11 UnknownName\n",
};

/// Each fault of the accesses, and a record that isn't of its scenario.
pub const FAULTS: [Row; 13] = [
    NOT_ASCII,
    TOO_LONG,
    BAD_VERSION,
    BAD_WORD,
    BAD_NAME,
    BEHIND_DONE,
    UNKNOWN_NAME,
    WRONG_KIND,
    OUT_OF_RANGE,
    NO_LIST,
    NO_END,
    NO_ACCESSES,
    OTHER_SCENARIO,
];

/// A scenario and its record, of 27 lines.
pub const RECORDED: &[u8] =
    b"cxthread 1\nthread a\nthread b\nmutex m 0\nbody a\nlock m\nunlock m\nend\nmain\nstart a\njoin a\nend\nrecord 1\nacts main\n* start a ok\n= ok\n* join a\n= ok\nend\nacts a\n+ m 0 lock\n= ok\n+ m 1 unlock\n= ok\nend\nunstarted b\ndone\n";
