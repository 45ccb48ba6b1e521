use cx_machine::Op;
use cx_names::NoMemory;

/// What a thread keeps of one object.
#[derive(Clone, Copy)]
pub struct Kept {
    /// How often the thread owns the mutex.
    pub levels: u64,
    /// Whether it shares the mutex.
    pub reads: bool,
    /// The phase of its last arrival, until it has waited for it.
    pub arrival: Option<i64>,
    /// How many sources of the stop state it has.
    pub sources: u64,
    pub is_set: bool,
    pub is_dropped: bool,
    pub is_retrieved: bool,
    pub is_valid: bool,
    pub is_shared: bool,
    pub is_launched: bool,
    /// Whether the deferred function hasn't run yet.
    pub is_unrun: bool,
}

impl Kept {
    ghost use Rattle.std.specs.Prelude.{◌≡◌, ◌+◌, IfOk};
    ghost use Rattle.cx_items.specs.Memory.{nothing, kept_after};

    /// Nothing is kept.
    pub fn nothing() -> Kept
        ensures { result ≡ nothing }
    {
        Kept {
            levels: 0,
            reads: false,
            arrival: None,
            sources: 0,
            is_set: false,
            is_dropped: false,
            is_retrieved: false,
            is_valid: false,
            is_shared: false,
            is_launched: false,
            is_unrun: false,
        }
    }

    /// What is kept after an act of this word.
    pub fn after(self, op: Op) -> Result<Kept, NoMemory>
        ensures { IfOk result (λ kept. kept ≡ kept_after op self) }
    {
        let mut kept = self;
        match op {
            Op::Lock | Op::TryLock => kept.levels = one_more(kept.levels)?,
            Op::Unlock => kept.levels = kept.levels.saturating_sub(1),
            Op::LockShared | Op::TryLockShared => kept.reads = true,
            Op::UnlockShared => kept.reads = false,
            Op::Another => kept.sources = one_more(kept.sources)?,
            Op::Drop => kept.sources = kept.sources.saturating_sub(1),
            Op::Set => kept.is_set = true,
            Op::Defer => {
                kept.is_valid = true;
                kept.is_unrun = true;
            }
            Op::Run => kept.is_unrun = false,
            _ => {}
        }
        Ok(kept)
    }
}

ghost use Rattle.std.specs.Prelude.{◌≡◌, ◌+◌, IfOk};

/// The next number; a list whose items count so far doesn't fit any memory.
pub fn one_more(n: u64) -> Result<u64, NoMemory>
    ensures { IfOk result (λ more. more ≡ n + 1) }
{
    n.checked_add(1).ok_or(NoMemory)
}
