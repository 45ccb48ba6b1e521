//! What threads show each other where they meet.
ghost use Rattle.std.specs.Prelude.{ℕ};
ghost use Rattle.cx_work.specs.Accesses.{AreAccesses, objects_of};
ghost use Rattle.cx_run.specs.Handing.{AllAsBefore, AllMet, AllTakeIn};

use cx_kinds::Access;

/// Lets the accesses `to` see what `from` has seen of each object.
pub(crate) fn meet_all(from: &mut [Access], to: &mut [Access])
    requires from { (t : ℕ) × AreAccesses (objects_of from.old) t from.old }
    requires to { (u : ℕ) × AreAccesses (objects_of from.old) u to.old }
    ensures from { AllAsBefore from.old from.new }
    ensures to { AllMet from.old to.old to.new }
{
    for i in 0..from.len() {
        from[i].meet(&mut to[i]);
    }
}

/// Takes another thread's accesses in.
pub(crate) fn take_all_in(accesses: &mut [Access], others: Vec<Access>)
    requires accesses { (t : ℕ) × AreAccesses (objects_of accesses.old) t accesses.old }
    requires others { (u : ℕ) × AreAccesses (objects_of accesses.old) u others.items }
    ensures { AllTakeIn others.items accesses.old accesses.new }
{
    for (i, other) in others.into_iter().enumerate() {
        accesses[i].join(other);
    }
}
