ghost use Rattle.std.specs.Prelude.{◌≡◌, ℤ, pos, Bool, Option, Some, None, List, map};
ghost use Rattle.cx_text.specs.Words.{main_word};
ghost use Rattle.cx_script.specs.Earlier.{declares, declaration_of, made_of, is_known, is_caller, fits_sort};
ghost use Rattle.cx_script.specs.Faults.{numbers_of, is_mutex, is_latch, is_plain_thread};

use crate::kept::Kept;
use crate::said::number_at;
use cx_text::{Caller, Made, Sort};

/// The word that stands for the first thread.
pub const MAIN: &[u8] = b"main";

/// What a name stands for.
pub fn made_of(kept: &Kept<'_>, name: &[u8]) -> Option<Made>
    ensures { result ≡ made_of kept.now name.now }
{
    if b"main".as_slice() == name {
        return Some(Made::Main);
    }
    match kept.find(name) {
        None => None,
        Some(line) => line.form.makes(),
    }
}

/// Whether a name is main's, or declared.
pub fn is_known(kept: &Kept<'_>, name: &[u8]) -> bool
    ensures { result ≡ is_known kept.now name.now }
{
    made_of(kept, name).is_some()
}

/// Whether the thread `me` may make a call on a name, where only such callers may.
fn is_caller(kept: &Kept<'_>, me: &[u8], name: &[u8], caller: Caller) -> bool
    ensures { result ≡ is_caller kept.now me.now name.now caller }
{
    match caller {
        Caller::Anyone => true,
        Caller::OnlyMain => b"main".as_slice() == me,
        Caller::Owner => match kept.find(name) {
            None => false,
            Some(line) => line.is_owner(me),
        },
        Caller::Reader => match kept.find(name) {
            None => false,
            Some(line) => line.is_reader(me),
        },
    }
}

/// Whether a name may stand in a place of this sort, in a line of the thread `me`.
pub fn fits_sort(kept: &Kept<'_>, me: &[u8], name: &[u8], sort: Sort) -> bool
    ensures { result ≡ fits_sort kept.now me.now name.now sort }
{
    match made_of(kept, name) {
        None => false,
        Some(made) => match sort.who_may(made) {
            None => false,
            Some(caller) => is_caller(kept, me, name, caller),
        },
    }
}

/// How many numbers a mutex has; of a latch, its count.
pub fn numbers_of(kept: &Kept<'_>, name: &[u8]) -> i128
    ensures { result ≡ numbers_of kept.now name.now }
{
    match kept.find(name) {
        None => 0,
        Some(line) => number_at(&line.values, 1),
    }
}

/// Whether a name is a mutex with numbers.
pub fn is_mutex(kept: &Kept<'_>, name: &[u8]) -> bool
    ensures { result ≡ is_mutex kept.now name.now }
{
    matches!(made_of(kept, name), Some(Made::Mutex))
}

/// Whether a name is a latch.
pub fn is_latch(kept: &Kept<'_>, name: &[u8]) -> bool
    ensures { result ≡ is_latch kept.now name.now }
{
    matches!(made_of(kept, name), Some(Made::Latch))
}

/// Whether a name is a thread that is no jthread and no async.
pub fn is_plain_thread(kept: &Kept<'_>, name: &[u8]) -> bool
    ensures { result ≡ is_plain_thread kept.now name.now }
{
    matches!(made_of(kept, name), Some(Made::Thread))
}
