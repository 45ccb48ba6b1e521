ghost use Rattle.std.specs.Prelude.{◌≡◌, ◌∷◌, [], ◌+◌, ◌||◌, OnOk, IfOk, Some, None, Option, List, map, length};
ghost use Rattle.cx_text.specs.Views.{now_all, line_seen};
ghost use Rattle.cx_text.specs.Words.{fields_in, filled_by};
ghost use Rattle.cx_script.specs.Earlier.{words_at};
ghost use Rattle.cx_script.specs.Faults.{read_line, is_plain_thread};
ghost use Rattle.std.specs.List.{list_any};
ghost use Rattle.cx_scenario.specs.Views.{filled, said_now, values_seen, state_of, groups_seen, names_seen, place_seen};
ghost use Rattle.cx_script.specs.Script.{call_of};
ghost use Rattle.cx_scenario.specs.Checks.{each_words};
ghost use Rattle.cx_scenario.specs.Steps.{state_with, fault_among, later_among, unknown_in, wrong_kind_in, outside_in, fault_in, too_many_in, end_in, opening_state, over_latch_in, bad_order_in, twice_in, line_fault, misplaced_in, said_fault, words_fault, GoesBy, groups_with, call_on, called, counted_with};

use crate::body::{Body, begun_name};
use crate::checks::{each_words, has_outside, has_repeated, has_unknown, has_wrong_kind, spread};
use crate::declared::{is_latch, is_plain_thread, made_of, numbers_of};
use crate::groups::Groups;
use crate::kept::Kept;
use crate::names::{Names, is_among};
use crate::once::Once;
use crate::place::Place;
use crate::said::Said;
use crate::takings::{Takings, taken_by};
use cx_index::NameIndex;
use cx_names::NoMemory;
use cx_text::{
    Fault, FaultKind, Field, Form, LINE_LIMIT, Line, Made, is_text, read_form, split_words,
};
use std::alloc::Global;

/// What is kept of the lines read so far.
#[derive(Drop)]
pub struct Reader<'a> {
    pub place: Place,
    pub main: bool,
    pub kept: Kept<'a>,
    pub once: Once,
    pub names: Names,
    pub body: Body<'a>,
    pub calls: usize,
    pub takings: Takings,
    pub groups: Groups<'a>,
}

/// Room for the parts of a line, used again for each.
#[derive(Drop)]
pub struct Room<'a> {
    pub words: Vec<&'a [u8]>,
    pub fields: Vec<Field>,
    pub distinct: Vec<&'a [u8]>,
}

impl<'a> Room<'a> {
    pub fn new(alloc: Global) -> Room<'a> {
        Room {
            words: Vec::new(alloc),
            fields: Vec::new(alloc),
            distinct: Vec::new(alloc),
        }
    }
}

/// Adds the call that a line says, where its subject is of this kind.
#[tactic(auto, using(crate::proofs::Ending::called_some))]
fn put_call<'a>(
    groups: &mut Groups<'a>,
    names: &Names,
    made: Option<Made>,
    line: &Said<'a>,
) -> Result<(), NoMemory>
    ensures { OnOk result (groups_seen groups.new ≡ called (groups_seen groups.old) (call_of (names_seen names.now) made (filled line.now) line.now.form)) }
{
    match names.call_of(made, line) {
        None => Err(NoMemory),
        Some(call) => {
            groups.call(call)?;
            Ok(())
        }
    }
}

impl<'a> Reader<'a> {
    /// Nothing is read yet.
    pub fn new(alloc: Global) -> Result<Reader<'a>, NoMemory>
        ensures { IfOk result (λ r. state_of r ≡ opening_state) }
    {
        let mut threads = NameIndex::new(alloc);
        threads.push(b"main")?;
        Ok(Reader {
            place: Place::Opening,
            main: false,
            kept: Kept::new(alloc),
            once: Once::new(alloc),
            names: Names {
                threads,
                objects: NameIndex::new(alloc),
                callbacks: NameIndex::new(alloc),
            },
            body: Body {
                thread: b"main",
                len: 0,
                registered: NameIndex::new(alloc),
                unjoined: Vec::new(alloc),
            },
            calls: 0,
            takings: Takings {
                names: NameIndex::new(alloc),
                counts: Vec::new(alloc),
            },
            groups: Groups {
                done: Vec::new(alloc),
                under_way: None,
            },
        })
    }

    /// Whether a limit is passed.
    fn is_too_many(&self, line: &Said<'_>) -> bool
        ensures { result ≡ too_many_in (state_of self.now) (filled line.now) }
    {
        (line.makes_thread() && 64 <= self.names.threads.len())
            || (line.makes_object() && 128 <= self.names.objects.len())
            || (line.makes_callback() && 64 <= self.names.callbacks.len())
            || (line.is_call() && (4096 <= self.body.len || 65536 <= self.calls))
    }

    /// Whether more is taken from a latch than it counts.
    fn is_over_latch(&self, line: &Said<'_>) -> bool
        ensures { result ≡ over_latch_in (state_of self.now) (filled line.now) }
    {
        if !line.is_call() || !is_latch(&self.kept, line.subject()) {
            return false;
        }
        let count = numbers_of(&self.kept, line.subject());
        let count = if count < 0 { 0 } else { count as u128 };
        count < self.takings.taken(line.subject()) as u128 + taken_by(line)
    }

    /// Whether a thread of main's is started and not joined.
    fn has_unjoined(&self) -> bool
        ensures { result ≡ list_any (is_plain_thread self.now.kept) (now_all self.now.body.unjoined.items) }
    {
        for name in &self.body.unjoined {
            if is_plain_thread(&self.kept, name) {
                return true;
            }
        }
        false
    }

    /// Whether a callback isn't registered before, or a thread isn't joined at the end.
    fn is_bad_order(&self, line: &Said<'_>) -> bool
        ensures { result ≡ bad_order_in (state_of self.now) (filled line.now) }
    {
        match line.form {
            Form::Deregister => !is_among(&self.body.registered, line.subject()),
            Form::End => b"main".as_slice() == self.body.thread && self.has_unjoined(),
            _ => false,
        }
    }

    fn is_unknown(&self, room: &Room<'_>, line: &Said<'_>) -> bool
        requires { room.now.fields.items ≡ fields_in (filled line.now) }
        ensures { result ≡ unknown_in (state_of self.now) (filled line.now) }
    {
        has_unknown(&self.kept, &room.fields, &line.values)
    }

    fn is_wrong_kind(&self, room: &Room<'_>, line: &Said<'_>) -> bool
        requires { room.now.fields.items ≡ fields_in (filled line.now) }
        ensures { result ≡ wrong_kind_in (state_of self.now) (filled line.now) }
    {
        has_wrong_kind(&self.kept, self.body.thread, &room.fields, &line.values)
    }

    fn is_outside(&self, room: &Room<'_>, line: &Said<'_>) -> bool
        requires { room.now.fields.items ≡ fields_in (filled line.now) }
        ensures { result ≡ outside_in (state_of self.now) (filled line.now) }
    {
        has_outside(&self.kept, &room.fields, &line.values)
    }

    fn is_again(&self, room: &Room<'_>, line: &Said<'_>) -> bool
        requires { now_all room.now.distinct.items ≡ each_words (fields_in (filled line.now)) (values_seen line.now.values.items) }
        ensures { result ≡ twice_in (state_of self.now) (filled line.now) }
    {
        self.once.is_twice(&self.kept, line) || has_repeated(&room.distinct)
    }

    /// The first kind of fault from OutOfRange on.
    fn later_fault(&self, room: &Room<'_>, line: &Said<'_>) -> Option<FaultKind>
        requires fields { room.now.fields.items ≡ fields_in (filled line.now) }
        requires distinct { now_all room.now.distinct.items ≡ each_words (fields_in (filled line.now)) (values_seen line.now.values.items) }
        ensures { result ≡ later_among (state_of self.now) (filled line.now) }
    {
        if self.is_outside(room, line) {
            Some(FaultKind::OutOfRange)
        } else if self.is_again(room, line) {
            Some(FaultKind::Twice)
        } else if self.is_over_latch(line) {
            Some(FaultKind::LatchOver)
        } else if self.is_bad_order(line) {
            Some(FaultKind::BadOrder)
        } else {
            None
        }
    }

    /// The first kind of fault that a line has, where it has one of the forms of its place.
    fn fault_among(&self, room: &Room<'_>, line: &Said<'_>) -> Option<FaultKind>
        requires fields { room.now.fields.items ≡ fields_in (filled line.now) }
        requires distinct { now_all room.now.distinct.items ≡ each_words (fields_in (filled line.now)) (values_seen line.now.values.items) }
        ensures { result ≡ fault_among (state_of self.now) (filled line.now) }
    {
        if self.is_too_many(line) {
            Some(FaultKind::TooMany)
        } else if self.is_unknown(room, line) {
            Some(FaultKind::UnknownName)
        } else if self.is_wrong_kind(room, line) {
            Some(FaultKind::WrongKind)
        } else {
            self.later_fault(room, line)
        }
    }

    /// The first kind of fault that the bytes of a line have.
    fn fault_in_bytes(line: &Line<'_>) -> Option<FaultKind>
        ensures { result ≡ line_fault (line_seen line.now) }
    {
        if !is_text(line.bytes) {
            Some(FaultKind::NotAscii)
        } else if LINE_LIMIT < line.bytes.len() || line.over {
            Some(FaultKind::TooLong)
        } else {
            None
        }
    }

    /// The fault of a kept line that has none of the forms of its place.
    fn misplaced(&self) -> FaultKind
        ensures { result ≡ misplaced_in (state_of self.now) }
    {
        match self.place {
            Place::Opening => FaultKind::BadVersion,
            _ => FaultKind::BadWord,
        }
    }

    /// The fault of a kept line.
    fn fault_of(&self, room: &Room<'_>, line: &Said<'_>) -> Option<FaultKind>
        requires fields { room.now.fields.items ≡ fields_in (filled line.now) }
        requires distinct { now_all room.now.distinct.items ≡ each_words (fields_in (filled line.now)) (values_seen line.now.values.items) }
        ensures { result ≡ said_fault (state_of self.now) (Some (filled line.now)) }
    {
        if self.place.may_stand(line.form) {
            self.fault_among(room, line)
        } else {
            Some(self.misplaced())
        }
    }

    /// A call of the body under way comes.
    fn take_call(&mut self, line: &Said<'a>) -> Result<(), NoMemory>
        ensures { OnOk result (state_of self.new ≡ record (state_of self.old) { groups = called (groups_seen self.old.groups) (call_on (state_of self.old) (filled line.now)) }) }
    {
        let made = made_of(&self.kept, line.subject());
        put_call(&mut self.groups, &self.names, made, line)
    }

    /// The body that a line belongs to goes on, begins or ends.
    fn take_group(&mut self, alloc: Global, line: &Said<'a>) -> Result<(), NoMemory>
        ensures { OnOk result (state_of self.new ≡ record (state_of self.old) { groups = groups_with (groups_seen self.old.groups) (filled line.now) (call_on (state_of self.old) (filled line.now)) }) }
    {
        if line.begins_body() {
            self.groups.begin(alloc, begun_name(line))
        } else if line.is_call() {
            self.take_call(line)
        } else {
            self.groups.close()
        }
    }

    /// Takes the names, the counts and the place of one line more.
    fn take_parts(&mut self, line: &Said<'a>) -> Result<(), NoMemory>
        ensures { OnOk result (state_of self.new ≡ counted_with (state_of self.old) (filled line.now)) }
    {
        self.once.take(line)?;
        self.names.take(line)?;
        self.body.take(line)?;
        self.takings.take(line)?;
        if line.is_call() {
            self.calls = self.calls.checked_add(1).ok_or(NoMemory)?;
        }
        self.main = self.main || line.is_main();
        self.place = Place::behind(self.main, line.form);
        Ok(())
    }

    /// Takes one line more, which has no fault.
    fn take(&mut self, alloc: Global, line: Said<'a>) -> Result<(), NoMemory>
        ensures { OnOk result (state_of self.new ≡ state_with (state_of self.old) (filled line.entry)) }
    {
        self.take_group(alloc, &line)?;
        self.take_parts(&line)?;
        if line.declares() {
            self.kept.push(line)?;
        }
        Ok(())
    }

    /// Takes a line that says this.
    fn take_said(
        &mut self,
        alloc: Global,
        room: &mut Room<'a>,
        line: Said<'a>,
    ) -> Result<Option<FaultKind>, NoMemory>
        ensures { IfOk result (λ fault. GoesBy (state_of self.old) (said_fault (state_of self.old) (Some (filled line.entry))) (Some (filled line.entry)) fault (state_of self.new)) }
    {
        spread(&mut room.fields, line.form.fields(), line.values.len())?;
        each_words(&mut room.distinct, &room.fields, &line.values)?;
        match self.fault_of(room, &line) {
            Some(kind) => Ok(Some(kind)),
            None => {
                self.take(alloc, line)?;
                Ok(None)
            }
        }
    }

    /// Takes the words of a line.
    fn take_words(
        &mut self,
        alloc: Global,
        room: &mut Room<'a>,
    ) -> Result<Option<FaultKind>, NoMemory>
        ensures { IfOk result (λ fault. GoesBy (state_of self.old) (words_fault (state_of self.old) (now_all room.old.words.items) (filled_by 1 (now_all room.old.words.items))) (filled_by 1 (now_all room.old.words.items)) fault (state_of self.new)) }
    {
        if room.words.is_empty() {
            return Ok(None);
        }
        let mut values = Vec::new(alloc);
        let form = read_form(&room.words, &mut values)?;
        match form {
            None => Ok(Some(self.misplaced())),
            Some(form) => {
                let fault = self.take_said(alloc, room, Said { form, values })?;
                Ok(fault)
            }
        }
    }

    /// Takes one line more of a text: the first kind of fault that it has, if any.
    pub fn take_line(
        &mut self,
        alloc: Global,
        room: &mut Room<'a>,
        line: Line<'a>,
    ) -> Result<Option<FaultKind>, NoMemory>
        ensures { IfOk result (λ fault. GoesBy (state_of self.old) (fault_in (state_of self.old) (read_line 1 (line_seen line.entry))) (read_line 1 (line_seen line.entry)).said fault (state_of self.new)) }
    {
        match Reader::fault_in_bytes(&line) {
            Some(kind) => Ok(Some(kind)),
            None => {
                split_words(&mut room.words, line.bytes)?;
                self.take_words(alloc, room)
            }
        }
    }

    /// The fault of a text that ends here, after so many lines.
    pub fn fault_at_end(&self, count: u64) -> Result<Option<Fault>, NoMemory>
        ensures { IfOk result (λ fault. fault ≡ end_in (place_seen self.now.place) count) }
    {
        let number = next_number(count)?;
        if count == 0 {
            return Ok(Some(Fault {
                line: number,
                kind: FaultKind::BadVersion,
            }));
        }
        match self.place {
            Place::Over => Ok(None),
            _ => Ok(Some(Fault {
                line: number,
                kind: FaultKind::NoEnd,
            })),
        }
    }
}

/// The number of the line after so many.
pub fn next_number(count: u64) -> Result<u64, NoMemory>
    ensures { IfOk result (λ n. n ≡ count + 1) }
{
    if count < 18446744073709551615 {
        Ok(count + 1)
    } else {
        Err(NoMemory)
    }
}
