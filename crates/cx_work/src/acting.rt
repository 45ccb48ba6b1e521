//! Acts on objects, as a text offers them.
ghost use Rattle.std.specs.Prelude.{◌≡◌, ◌∷◌, [], ℕ, MatchOption};
ghost use Rattle.cx_items.specs.declared.form.Form.TheVariants as words;
ghost use Rattle.cx_work.specs.Accesses.{AreAccesses, objects_of};
ghost use Rattle.cx_work.specs.Acting.{AsksOn, AreServed, IsLeft, IsNoReply};

use cx_asks::ask_of;
use cx_items::{Form, Item};
use cx_kinds::Access;
use cx_names::Reply;
use std::sync::Wait;

/// The reply that comes next, where it alone does by these forms.
pub(crate) fn reply_in(forms: &[Form]) -> Option<Reply>
    ensures { MatchOption result (IsNoReply forms.now) (λ r. forms.now ≡ words.Says r ∷ []) }
{
    match forms {
        [Form::Says(reply)] => Some(*reply),
        _ => None,
    }
}

/// Makes what these forms ask of an object. Waits until its state allows one of them.
pub(crate) fn acted<R: Wait>(rt: &R, forms: &[Form], accesses: &mut Vec<Access>) -> Item
    requires accesses { (t : ℕ) × AreAccesses (objects_of accesses.old.items) t accesses.old.items }
    requires served { AreServed forms.now accesses.old.items }
    ensures accesses { (t : ℕ) → AreAccesses (objects_of accesses.old.items) t accesses.old.items → AreAccesses (objects_of accesses.old.items) t accesses.new.items }
    ensures asked { AsksOn forms.now accesses.old.items accesses.new.items result }
{
    let (o, ask) = ask_of(forms).unwrap();
    accesses[o.0 as usize].act(rt, o, ask).unwrap()
}

/// Whether the item is a change that leaves its barrier completing, where these accesses have just made it.
pub(crate) fn leaves_completing(accesses: &[Access], item: &Item) -> bool
    requires { (t : ℕ) × AreAccesses (objects_of accesses.now) t accesses.now }
    ensures { IsLeft accesses.now item.now result }
{
    match item {
        Item::Change(o, ..) => {
            let i = o.0 as usize;
            if i < accesses.len() {
                accesses[i].is_completing()
            } else {
                false
            }
        }
        _ => false,
    }
}
