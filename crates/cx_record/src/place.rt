ghost use Rattle.std.specs.Prelude.{◌≡◌};
ghost use Rattle.cx_record.specs.RecordFaults.{behind, fault_at_end, is_opening};
ghost use Rattle.cx_record.specs.ItemLines.{part_of};
ghost use Rattle.cx_record.specs.RecordSteps.{misplaced};
ghost use Rattle.cx_record.specs.ReaderSeen.{place_seen};

use cx_text::{FaultKind, ItemForm};

/// Where in a record the next line stands: before the first line, between two lists, inside a list, or behind `done`.
#[derive(Clone, Copy)]
pub(crate) enum Place {
    Opening,
    Between,
    Inside,
    Over,
}

impl Place {
    /// The place behind a line of this form.
    pub fn behind(form: ItemForm) -> Place
        ensures { place_seen result ≡ behind (part_of form) }
    {
        match form {
            ItemForm::RecordOne | ItemForm::Unstarted | ItemForm::EndOfActs => Place::Between,
            ItemForm::Done | ItemForm::StuckAt => Place::Over,
            _ => Place::Inside,
        }
    }

    /// The fault of a kept line that has no row of its place.
    pub fn misplaced(self) -> FaultKind
        ensures { result ≡ misplaced (place_seen self) }
    {
        match self {
            Place::Opening => FaultKind::BadVersion,
            _ => FaultKind::BadWord,
        }
    }

    /// The fault of a text that ends here.
    pub fn fault_at_end(self) -> Option<FaultKind>
        ensures { result ≡ fault_at_end (place_seen self) }
    {
        match self {
            Place::Over => None,
            _ => Some(FaultKind::NoEnd),
        }
    }
}
