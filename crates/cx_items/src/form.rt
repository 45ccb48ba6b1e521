use crate::item::Control;
use cx_machine::Op;
use cx_names::{NoMemory, ObjectNo, Reply};

/// The replies that are wanted of an act.
#[derive(Clone, Copy)]
pub enum Wanted {
    Just(Reply),
    ANumber,
    AThread,
    AnOutcome,
}

/// What the next item may be; `Begin` is that of any callback that the text registers on the stop state.
#[derive(Clone, Copy)]
pub enum Form {
    Change(ObjectNo, Op, i64, i64, Wanted),
    Look(ObjectNo, Op, i64, i64, Wanted),
    Begin(ObjectNo),
    Does(Control),
    Says(Reply),
}

impl Form {
    ghost use Rattle.std.specs.Prelude.{◌≡◌};
    ghost use Rattle.cx_items.specs.Form.{change, look};

    /// A change of object `o` with the number `a`, and this reply.
    pub fn change(o: ObjectNo, op: Op, a: u32, reply: Reply) -> Form
        ensures { result ≡ change o op a reply }
    {
        Form::Change(o, op, i64::from(a), 0, Wanted::Just(reply))
    }

    /// A look at object `o` with the number `a`, and this reply.
    pub fn look(o: ObjectNo, op: Op, a: u32, reply: Reply) -> Form
        ensures { result ≡ look o op a reply }
    {
        Form::Look(o, op, i64::from(a), 0, Wanted::Just(reply))
    }
}

/// One to three forms, of which one is made.
#[derive(Clone, Copy)]
pub enum Forms {
    One(Form),
    Two(Form, Form),
    Three(Form, Form, Form),
}

impl Forms {
    ghost use Rattle.std.specs.Prelude.{◌≡◌, ◌++◌, IfOk};
    ghost use Rattle.cx_items.specs.Form.{forms_in, or_first};

    /// This form, or else these; a fourth is left out.
    pub fn or_first(self, first: Form) -> Forms
        ensures { result ≡ or_first first self }
    {
        match self {
            Forms::One(second) => Forms::Two(first, second),
            Forms::Two(second, third) => Forms::Three(first, second, third),
            Forms::Three(second, third, _) => Forms::Three(first, second, third),
        }
    }

    /// Puts the forms after those in `out`.
    pub fn push_to(self, out: &mut Vec<Form>) -> Result<(), NoMemory>
        ensures { IfOk result (λ _. out.new.items ≡ out.old.items ++ forms_in self) }
    {
        match self {
            Forms::One(f) => out.push(f)?,
            Forms::Two(f, g) => {
                out.push(f)?;
                out.push(g)?;
            }
            Forms::Three(f, g, h) => {
                out.push(f)?;
                out.push(g)?;
                out.push(h)?;
            }
        }
        Ok(())
    }
}
