/// The greatest number of bytes of a scenario's text.
pub const SCENARIO_BYTES: usize = 8_388_608;

/// The greatest number of bytes of a scenario's text with a record after it.
pub const CHECK_BYTES: usize = 1_073_741_824;

/// The greatest number of bytes of a line, its end not counted.
pub const LINE_BYTES: usize = 120;

/// The greatest number of bytes of a name.
pub const NAME_BYTES: usize = 16;

/// The greatest number of threads besides `main`, with those of jthreads and asyncs.
pub const THREADS: u32 = 63;

/// The greatest number of objects.
pub const OBJECTS: u32 = 128;

/// The greatest number of callbacks.
pub const CALLBACKS: u32 = 64;

/// The greatest number of calls in one body.
pub const BODY_CALLS: u32 = 4_096;

/// The greatest number of calls in all bodies together.
pub const CALLS: u32 = 65_536;

/// The greatest number of numbers that a mutex guards.
pub const NUMBERS: u8 = 8;

/// The greatest number of levels at which one thread owns a recursive mutex.
pub const LEVELS: u32 = 1_000;

/// The greatest value that a semaphore's counter may be given as its maximum.
pub const SEMAPHORE_MAX: u32 = 65_535;

/// The greatest count of a latch.
pub const LATCH_COUNT: u32 = 65_535;

/// The greatest number of arrivals that a phase of a barrier expects.
pub const BARRIER_COUNT: u32 = 4_096;

/// The greatest number of changes that one pass makes on one object.
pub const PASS_CHANGES: u32 = 131_072;

/// Each history is shorter than this number of changes.
pub const HISTORY: u32 = 268_435_456;
