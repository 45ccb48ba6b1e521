//! What a thread asks of an object.
ghost use Rattle.std.specs.Prelude.{◌≡◌, ◌∷◌, [], MatchOption};
ghost use Rattle.cx_asks.specs.Forms.{Tells, change_alone, look_alone, either_of, AreAlike, IsAskOf, IsNoAsk};

use cx_items::Form;
use cx_machine::Op;
use cx_names::ObjectNo;

/// What a thread asks of an object: a change, a look, or whichever of the two its state allows, with these
/// numbers. Looks of one word with different replies are one look.
#[derive(Clone, Copy)]
pub struct Ask {
    /// The word of the change that is asked for.
    pub change: Option<Op>,
    /// The word of the look that is asked for.
    pub look: Option<Op>,
    /// The first number of both.
    pub a: i64,
    /// The second number of both.
    pub b: i64,
}

// The ask of a change alone.
fn change(op: Op, a: i64, b: i64) -> Ask
    ensures { result ≡ change_alone op a b }
{
    Ask {
        change: Some(op),
        look: None,
        a,
        b,
    }
}

// The ask of a look alone.
fn look(op: Op, a: i64, b: i64) -> Ask
    ensures { result ≡ look_alone op a b }
{
    Ask {
        change: None,
        look: Some(op),
        a,
        b,
    }
}

// The ask of a change or a look.
fn either(op: Op, other: Op, a: i64, b: i64) -> Ask
    ensures { result ≡ either_of op other a b }
{
    Ask {
        change: Some(op),
        look: Some(other),
        a,
        b,
    }
}

// Whether two forms are of one object, with the same numbers.
fn are_alike(o: ObjectNo, a: i64, b: i64, p: ObjectNo, c: i64, d: i64) -> bool
    ensures { Tells result (AreAlike o a b p c d) }
{
    o.0 == p.0 && a == c && b == d
}

// Whether two words are one.
fn same_op(op: Op, other: Op) -> bool
    ensures { Tells result (other ≡ op) }
{
    op as u8 == other as u8
}

/// What is asked where these are the forms that a thread is offered, and of which object: one form, a change
/// and a look with the same numbers, or two changes or two looks of one word with the same numbers. None
/// where they are of no object, or of more than one.
pub fn ask_of(forms: &[Form]) -> Option<(ObjectNo, Ask)>
    ensures { MatchOption result (IsNoAsk forms.now) (λ t. IsAskOf forms.now t.0 t.1) }
{
    match forms {
        [form] => ask_of_one(*form),
        [first, second] => ask_of_two(*first, *second),
        _ => None,
    }
}

// What is asked where this is the only form.
fn ask_of_one(form: Form) -> Option<(ObjectNo, Ask)>
    ensures { MatchOption result (IsNoAsk (form ∷ [])) (λ t. IsAskOf (form ∷ []) t.0 t.1) }
{
    match form {
        Form::Change(o, op, a, b, _) => Some((o, change(op, a, b))),
        Form::Look(o, op, a, b, _) => Some((o, look(op, a, b))),
        _ => None,
    }
}

// What is asked where these are the two forms.
fn ask_of_two(first: Form, second: Form) -> Option<(ObjectNo, Ask)>
    ensures { MatchOption result (IsNoAsk (first ∷ second ∷ [])) (λ t. IsAskOf (first ∷ second ∷ []) t.0 t.1) }
{
    match first {
        Form::Change(o, op, a, b, _) => match second {
            Form::Change(p, other, c, d, _) => {
                if are_alike(o, a, b, p, c, d) && same_op(op, other) {
                    Some((o, change(op, a, b)))
                } else {
                    None
                }
            }
            Form::Look(p, other, c, d, _) => {
                if are_alike(o, a, b, p, c, d) {
                    Some((o, either(op, other, a, b)))
                } else {
                    None
                }
            }
            _ => None,
        },
        Form::Look(o, op, a, b, _) => match second {
            Form::Look(p, other, c, d, _) => {
                if are_alike(o, a, b, p, c, d) && same_op(op, other) {
                    Some((o, look(op, a, b)))
                } else {
                    None
                }
            }
            _ => None,
        },
        _ => None,
    }
}
