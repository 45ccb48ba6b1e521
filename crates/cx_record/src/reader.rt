ghost use Rattle.std.specs.Prelude.{◌≡◌, ◌++◌, ◌∷◌, [], ◌+◌, Option, Some, None, map, OnOk, IfOk};
ghost use Rattle.cx_text.specs.Items.{items};
ghost use Rattle.cx_text.specs.Views.{seen, now_all, line_seen as text_line_seen};
ghost use Rattle.cx_text.specs.Words.{line_by};
ghost use Rattle.cx_history.specs.Views.{listed};
ghost use Rattle.cx_record.specs.Roster.{object_called};
ghost use Rattle.cx_record.specs.ItemLines.{word_at, part_of};
ghost use Rattle.cx_record.specs.RecordFaults.{read_line, is_next, are_complete, stands_at};
ghost use Rattle.cx_record.specs.RecordSteps.{said_fault, words_fault, fault_in, state_with, GoesBy, opening_state};
ghost use Rattle.cx_record.specs.RosterSeen.{roster_seen, line_seen};
ghost use Rattle.cx_record.specs.ReaderSeen.{place_seen, stage_seen, state_of};

use crate::faults::{bytes_fault, has_its_words, named_fault};
use crate::item::item_said;
use crate::place::Place;
use crate::roster::Roster;
use crate::values::word_at;
use cx_history::{Items, List};
use cx_items::Item;
use cx_names::{NoMemory, ThreadNo};
use cx_text::{FaultKind, ItemForm, Line, Value, read_line, split_words};
use std::alloc::Global;
use std::mem;

/// What is kept of the lines read so far: the lists that are complete, and the items of the one under way.
#[derive(Drop)]
pub(crate) struct Reader<'a> {
    pub roster: Roster<'a>,
    pub place: Place,
    pub complete: u32,
    pub lists: Vec<List>,
    pub under_way: Vec<Item>,
}

/// Room for the parts of a line, used again for each.
#[derive(Drop)]
pub(crate) struct Room<'a> {
    pub words: Vec<&'a [u8]>,
    pub values: Vec<Value<'a>>,
}

impl<'a> Room<'a> {
    pub fn new(alloc: Global) -> Room<'a> {
        Room {
            words: Vec::new(alloc),
            values: Vec::new(alloc),
        }
    }
}

impl<'a> Reader<'a> {
    /// Nothing is read yet.
    pub fn new(alloc: Global, roster: Roster<'a>) -> Reader<'a>
        ensures { state_of result ≡ opening_state (roster_seen roster.entry) }
    {
        Reader {
            roster,
            place: Place::Opening,
            complete: 0,
            lists: Vec::new(alloc),
            under_way: Vec::new(alloc),
        }
    }

    /// Whether a line has the name of the thread whose list comes next.
    fn is_next(&self, form: ItemForm, values: &[Value<'_>]) -> bool
        ensures { result ≡ is_next (roster_seen self.now.roster) (stage_seen self.now) (line_seen form values.now) }
    {
        match self.roster.threads.names().get(self.complete as usize) {
            None => false,
            Some(name) => name.as_slice() == word_at(values, 0),
        }
    }

    /// Whether the lists of all threads are complete.
    fn are_complete(&self) -> bool
        ensures { result ≡ are_complete (roster_seen self.now.roster) (stage_seen self.now) }
    {
        !((self.complete as usize) < self.roster.threads.len())
    }

    /// Whether a line may stand where the next line stands.
    fn stands(&self, form: ItemForm, values: &[Value<'_>], object: Option<u32>) -> bool
        requires { object ≡ object_called (roster_seen self.now.roster) (word_at (line_seen form values.now) 0) }
        ensures { result ≡ stands_at (roster_seen self.now.roster) (stage_seen self.now) (line_seen form values.now) (place_seen self.now.place) (part_of form) }
    {
        match (self.place, form) {
            (Place::Opening, ItemForm::RecordOne) => true,
            (Place::Between, ItemForm::Acts | ItemForm::Unstarted) => self.is_next(form, values),
            (Place::Between, ItemForm::Done) => self.are_complete(),
            (Place::Inside, ItemForm::EndOfActs) => true,
            (
                Place::Inside,
                ItemForm::RecordOne
                | ItemForm::Acts
                | ItemForm::Unstarted
                | ItemForm::Done
                | ItemForm::StuckAt,
            ) => false,
            (Place::Inside, _) => has_its_words(&self.roster, form, values, object),
            _ => false,
        }
    }

    /// The first kind of fault that a line has by its row, its names and its numbers.
    fn said_fault(
        &self,
        form: ItemForm,
        values: &[Value<'_>],
        object: Option<u32>,
    ) -> Option<FaultKind>
        requires { object ≡ object_called (roster_seen self.now.roster) (word_at (line_seen form values.now) 0) }
        ensures { result ≡ said_fault (roster_seen self.now.roster) (stage_seen self.now) (Some (line_seen form values.now)) }
    {
        if self.stands(form, values, object) {
            named_fault(&self.roster, form, values, object)
        } else {
            Some(self.place.misplaced())
        }
    }

    /// A list is complete.
    fn complete_with(&mut self, list: List) -> Result<(), NoMemory>
        ensures { OnOk result (state_of self.new ≡ record (state_of self.old) { stage = record (stage_seen self.old) { lists = self.old.complete + 1 }; done = map listed self.old.lists.items ++ listed list ∷ [] }) }
    {
        self.lists.push(list)?;
        self.complete = self.complete.checked_add(1).ok_or(NoMemory)?;
        Ok(())
    }

    /// Takes one line more, which has no fault.
    fn take(
        &mut self,
        alloc: Global,
        form: ItemForm,
        values: &[Value<'_>],
        object: Option<u32>,
    ) -> Result<(), NoMemory>
        requires { object ≡ object_called (roster_seen self.old.roster) (word_at (line_seen form values.now) 0) }
        ensures { OnOk result (state_of self.new ≡ state_with (state_of self.old) (line_seen form values.now)) }
    {
        match form {
            ItemForm::Acts => self.under_way.clear(),
            ItemForm::Unstarted => {
                let items = Vec::new(alloc);
                self.complete_with(List {
                    started: false,
                    items: Items { items },
                })?;
            }
            ItemForm::EndOfActs => {
                let items = mem::replace(&mut self.under_way, Vec::new(alloc));
                self.complete_with(List {
                    started: true,
                    items: Items { items },
                })?;
            }
            ItemForm::RecordOne | ItemForm::Done | ItemForm::StuckAt => {}
            _ => {
                let by = ThreadNo(self.complete);
                if let Some(item) = item_said(&self.roster, by, form, values, object) {
                    self.under_way.push(item)?;
                }
            }
        }
        self.place = Place::behind(form);
        Ok(())
    }

    /// Takes a line that says this.
    fn take_said(
        &mut self,
        alloc: Global,
        form: ItemForm,
        values: &[Value<'_>],
    ) -> Result<Option<FaultKind>, NoMemory>
        ensures { IfOk result (λ fault. GoesBy (state_of self.old) (said_fault (roster_seen self.old.roster) (stage_seen self.old) (Some (line_seen form values.now))) (Some (line_seen form values.now)) fault (state_of self.new)) }
    {
        let object = self.roster.object(word_at(values, 0));
        match self.said_fault(form, values, object) {
            Some(kind) => Ok(Some(kind)),
            None => {
                self.take(alloc, form, values, object)?;
                Ok(None)
            }
        }
    }

    /// Takes the words of a line.
    fn take_words(
        &mut self,
        alloc: Global,
        room: &mut Room<'a>,
    ) -> Result<Option<FaultKind>, NoMemory>
        ensures { IfOk result (λ fault. GoesBy (state_of self.old) (words_fault (roster_seen self.old.roster) (stage_seen self.old) (now_all room.old.words.items) (line_by items 1 (now_all room.old.words.items))) (line_by items 1 (now_all room.old.words.items)) fault (state_of self.new)) }
    {
        if room.words.is_empty() {
            return Ok(None);
        }
        let form: Option<ItemForm> = read_line(&room.words, &mut room.values)?;
        match form {
            None => Ok(Some(self.place.misplaced())),
            Some(form) => {
                let fault = self.take_said(alloc, form, &room.values)?;
                Ok(fault)
            }
        }
    }

    /// Takes one line more of a text: the first kind of fault that it has, if any.
    pub fn take_line(
        &mut self,
        alloc: Global,
        room: &mut Room<'a>,
        line: Line<'a>,
    ) -> Result<Option<FaultKind>, NoMemory>
        ensures { IfOk result (λ fault. GoesBy (state_of self.old) (fault_in (roster_seen self.old.roster) (stage_seen self.old) (read_line (text_line_seen line.entry))) (read_line (text_line_seen line.entry)).said fault (state_of self.new)) }
    {
        match bytes_fault(&line) {
            Some(kind) => Ok(Some(kind)),
            None => {
                split_words(&mut room.words, line.bytes)?;
                self.take_words(alloc, room)
            }
        }
    }
}
