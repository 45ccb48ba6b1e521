ghost use Rattle.std.specs.Prelude.{◌≡◌};
ghost use Rattle.cx_text.specs.Words.{Table, scenario_lines, rows_for};
ghost use Rattle.cx_text.specs.Views.{now_all, rows_in};
ghost use Rattle.cx_text.specs.Items.{items};

use crate::choosing::{forms_for, item_forms_for};
use crate::form::{Field, Form};
use crate::item::ItemForm;

/// A row of a table of line forms: a first word, and a field for each word after it.
pub trait Row: Copy + 'static {
    ghost table: { Table Self };

    /// The first word of the lines of this form.
    fn head(self) -> &'static [u8]
        ensures { result.now ≡ table.head self };

    /// The fields of the words after the first.
    fn fields(self) -> &'static [Field]
        ensures { result.now ≡ table.fields self };

    /// The version of the language in which the form came.
    fn since(self) -> u32
        ensures { result ≡ table.since self };

    /// Rows of the table, among them all that lines with this first word and these after it may have.
    fn rows_for(head: &[u8], after: &[&[u8]]) -> &'static [Self]
        ensures { rows_in table 1 head.now (now_all after.now) result.now ≡ rows_for table 1 head.now (now_all after.now) };
}

impl Row for Form {
    ghost table = { scenario_lines };

    fn head(self) -> &'static [u8] {
        Form::head(self)
    }

    fn fields(self) -> &'static [Field] {
        Form::fields(self)
    }

    fn since(self) -> u32 {
        1
    }

    fn rows_for(head: &[u8], after: &[&[u8]]) -> &'static [Form] {
        forms_for(head, after)
    }
}

impl Row for ItemForm {
    ghost table = { items };

    fn head(self) -> &'static [u8] {
        ItemForm::head(self)
    }

    fn fields(self) -> &'static [Field] {
        ItemForm::fields(self)
    }

    fn since(self) -> u32 {
        match self {
            ItemForm::StuckAt => 3,
            _ => 1,
        }
    }

    fn rows_for(head: &[u8], after: &[&[u8]]) -> &'static [ItemForm] {
        item_forms_for(head, after)
    }
}
