//! Lines, words and the tables of line forms.
#![tactic(auto)]

mod choosing;
mod fault;
mod form;
mod item;
mod line;
mod reading;
mod row;
mod value;
mod words;
mod writing;

ghost use Rattle.std.specs.Prelude.{◌≡◌, codes};
ghost use Rattle.cx_text.specs.declared.form.Form.TheVariants as forms;
ghost use Rattle.cx_text.specs.Table.{head_of};

pub use fault::{Fault, FaultKind, KINDS};
pub use form::{Caller, FORMS, Field, Form, Literal, Made, Sort};
pub use item::{ITEM_FORMS, ItemForm};
pub use line::{LINE_LIMIT, Line, Lines, is_text};
pub use reading::{read_form, read_line};
pub use row::Row;
pub use value::{Value, is_name, value_of};
pub use words::split_words;
pub use writing::{put_form, put_line, put_number, put_value};

/// The last word of a body.
pub fn last_word() -> &'static [u8]
    ensures { result.now ≡ head_of forms.End }
{
    b"end"
}
