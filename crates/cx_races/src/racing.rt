ghost use Rattle.std.specs.Prelude.{◌≡◌, ◌<◌, length, slice_get, Some};
ghost use Rattle.cx_scene.specs.Scene.{Scene};
ghost use Rattle.cx_history.specs.Histories.{Recorded};
ghost use Rattle.cx_order.specs.Points.{IsPoint};
ghost use Rattle.cx_order.specs.Edges.{Tells};
ghost use Rattle.cx_order.specs.Order.{IsOrderOf};
ghost use Rattle.cx_races.specs.Races.{at, may_race, AreUnordered, Races};

use crate::access::Access;
use cx_order::Order;

/// Whether two accesses are to one variable, by two threads, and one of them writes.
fn may_race(a: Access, b: Access) -> bool
    ensures { result ≡ may_race a b }
{
    a.var == b.var && a.thread.0 != b.thread.0 && (a.write || b.write)
}

/// Whether neither of two points reaches the other.
fn are_unordered(order: &Order, a: Access, b: Access) -> bool
    ensures { (s : Scene) (r : Recorded) → IsOrderOf s r order.now → IsPoint r (at a) → IsPoint r (at b) → Tells result (AreUnordered s r (at a) (at b)) }
{
    let before = order.before(a.thread, a.point, b.thread, b.point);
    let after = order.before(b.thread, b.point, a.thread, a.point);
    !before && !after
}

/// Whether two accesses race; both stand at points of the record of which this is the order.
pub(crate) fn race(order: &Order, a: Access, b: Access) -> bool
    ensures { (s : Scene) (r : Recorded) → IsOrderOf s r order.now → IsPoint r (at a) → IsPoint r (at b) → Tells result (Races s r a b) }
{
    let may = may_race(a, b);
    if may {
        are_unordered(order, a, b)
    } else {
        false
    }
}

/// Access `i`.
pub(crate) fn access_at(accesses: &[Access], i: usize) -> Access
    requires { i < length accesses.now }
    ensures { slice_get accesses.now i ≡ Some result }
{
    accesses[i]
}
