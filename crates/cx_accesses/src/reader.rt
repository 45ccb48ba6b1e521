ghost use Rattle.std.specs.Prelude.{◌≡◌, ◌++◌, ◌∷◌, [], Option, Some, None, IfOk, OnOk, nat_le, length};
ghost use Rattle.std.specs.Option.{option_map, unwrap_or};
ghost use Rattle.cx_text.specs.Views.{now_all, line_seen};
ghost use Rattle.cx_index.specs.Places.{place_of};
ghost use Rattle.cx_history.specs.Views.{listed, recorded_of};
ghost use Rattle.cx_accesses.specs.AccessLines.{AnAccess, opening, read_line, said_by_words, with_said, name_put, count_in, stands_at, length_in, list_length, is_within, fault_at_end};
ghost use Rattle.cx_accesses.specs.AccessSteps.{bytes_fault, misplaced, access_fault, placed_fault, said_fault, words_fault, fault_in, GoesBy};
ghost use Rattle.cx_accesses.specs.AccessesSeen.{names_seen, said_seen, place_seen, state_of};

use crate::names::Names;
use crate::said::{Said, said_of};
use cx_history::{List, Record};
use cx_index::NameIndex;
use cx_names::{NoMemory, ThreadNo};
use cx_races::Access;
use cx_text::{FaultKind, LINE_LIMIT, Line, is_text, split_words};
use std::alloc::Global;

/// How many accesses there are at most.
const ACCESS_LIMIT: usize = 4_096;

/// Where the next line stands: before the first line, among the accesses, or behind `done`.
#[derive(Clone, Copy)]
pub(crate) enum Place {
    Opening,
    Among,
    Over,
}

/// What is kept of the lines read so far.
#[derive(Drop)]
pub(crate) struct Reader<'a> {
    pub declared: Names,
    pub recorded: &'a Record,
    pub place: Place,
    pub accesses: Vec<Access>,
    pub names: NameIndex,
}

/// The first kind of fault that the bytes of a line have.
fn bytes_fault(line: &Line<'_>) -> Option<FaultKind>
    ensures { result ≡ bytes_fault (line_seen line.now) }
{
    if !is_text(line.bytes) {
        Some(FaultKind::NotAscii)
    } else if LINE_LIMIT < line.bytes.len() || line.over {
        Some(FaultKind::TooLong)
    } else {
        None
    }
}

/// Whether a number is at most the length of this list.
fn fits(list: &List, i: i128) -> bool
    ensures { result ≡ is_within (length_in (listed list.now)) i }
{
    list.started && 0 <= i && i <= list.items.items.len() as i128
}

/// Whether a number is at most the length of the list of this thread, where it has one.
fn is_within(recorded: &Record, thread: Option<u32>, i: i128) -> bool
    ensures { result ≡ is_within (list_length (recorded_of recorded.now) thread) i }
{
    match thread {
        None => false,
        Some(t) => match recorded.lists.get(t as usize) {
            None => false,
            Some(list) => fits(list, i),
        },
    }
}

/// The number of a point as one of 32 bits; a list of more items doesn't fit any memory.
fn point_of(i: i128) -> Result<u32, NoMemory>
    ensures { IfOk result (λ n. n ≡ count_in i) }
{
    u32::try_from(i).ok().ok_or(NoMemory)
}

/// The number of a variable, which is put behind the others where it isn't there.
fn variable(names: &mut NameIndex, var: &[u8]) -> Result<u32, NoMemory>
    ensures put { OnOk result (names.new ≡ name_put names.old var.now (place_of names.old var.now)) }
    ensures place { IfOk result (λ k. k ≡ unwrap_or (place_of (name_put names.old var.now (place_of names.old var.now)) var.now) 0) }
{
    match names.find(var) {
        Some(place) => Ok(place),
        None => {
            names.push(var)?;
            Ok(names.find(var).unwrap_or(0))
        }
    }
}

impl Place {
    /// Whether a line that says this may stand here.
    fn takes(self, said: Said<'_>) -> bool
        ensures { result ≡ stands_at (place_seen self) (Some (said_seen said.entry)) }
    {
        match self {
            Place::Opening => matches!(said, Said::Version),
            Place::Among => !matches!(said, Said::Version),
            Place::Over => false,
        }
    }

    /// The fault of a text that ends here.
    pub fn fault_at_end(self) -> Option<FaultKind>
        ensures { result ≡ fault_at_end (place_seen self) }
    {
        match self {
            Place::Over => None,
            _ => Some(FaultKind::NoEnd),
        }
    }
}

impl<'a> Reader<'a> {
    /// Nothing is read yet.
    pub fn new(alloc: Global, declared: Names, recorded: &'a Record) -> Reader<'a>
        ensures empty { state_of result ≡ opening }
        ensures declared { result.declared ≡ declared }
        ensures recorded { result.recorded ≡ recorded.entry }
    {
        Reader {
            declared,
            recorded,
            place: Place::Opening,
            accesses: Vec::new(alloc),
            names: NameIndex::new(alloc),
        }
    }

    /// The fault of a kept line that may not stand here.
    fn misplaced(&self) -> FaultKind
        ensures { result ≡ misplaced (state_of self.now) }
    {
        match self.place {
            Place::Opening => FaultKind::BadVersion,
            _ => FaultKind::BadWord,
        }
    }

    /// The first kind of fault that an access has.
    fn access_fault(&self, name: &[u8], i: i128) -> Option<FaultKind>
        ensures { result ≡ access_fault (names_seen self.now.declared) (recorded_of self.now.recorded.now) (state_of self.now) name.now i }
    {
        let thread = self.declared.thread(name);
        if ACCESS_LIMIT <= self.accesses.len() {
            Some(FaultKind::TooMany)
        } else if !self.declared.is_known(name) {
            Some(FaultKind::UnknownName)
        } else if thread.is_none() {
            Some(FaultKind::WrongKind)
        } else if !is_within(self.recorded, thread, i) {
            Some(FaultKind::OutOfRange)
        } else {
            None
        }
    }

    /// The first kind of fault that a line has by what it says.
    fn said_fault(&self, said: Said<'_>) -> Option<FaultKind>
        ensures { result ≡ said_fault (names_seen self.now.declared) (recorded_of self.now.recorded.now) (state_of self.now) (Some (said_seen said.entry)) }
    {
        if !self.place.takes(said) {
            return Some(self.misplaced());
        }
        match said {
            Said::Access(name, i, _, _) => self.access_fault(name, i),
            _ => None,
        }
    }

    /// Takes an access.
    fn take_access(&mut self, name: &[u8], i: i128, var: &[u8], write: bool) -> Result<(), NoMemory>
        ensures taken { OnOk result (state_of self.new ≡ with_said (names_seen self.old.declared) (state_of self.old) (AnAccess name.now i var.now write)) }
        ensures same { OnOk result ((self.new.declared ≡ self.old.declared) × (self.new.recorded ≡ self.old.recorded)) }
    {
        let thread = ThreadNo(self.declared.thread(name).unwrap_or(0));
        let point = point_of(i)?;
        let var = variable(&mut self.names, var)?;
        self.accesses.push(Access {
            thread,
            point,
            var,
            write,
        })?;
        self.place = Place::Among;
        Ok(())
    }

    /// Takes a line that says this and has no fault.
    fn take(&mut self, said: Said<'_>) -> Result<(), NoMemory>
        ensures taken { OnOk result (state_of self.new ≡ with_said (names_seen self.old.declared) (state_of self.old) (said_seen said.entry)) }
        ensures same { OnOk result ((self.new.declared ≡ self.old.declared) × (self.new.recorded ≡ self.old.recorded)) }
    {
        match said {
            Said::Version => {
                self.place = Place::Among;
                Ok(())
            }
            Said::Access(name, i, var, write) => self.take_access(name, i, var, write),
            Said::Last => {
                self.place = Place::Over;
                Ok(())
            }
        }
    }

    /// Takes the words of a line.
    fn take_words(&mut self, words: &[&[u8]]) -> Result<Option<FaultKind>, NoMemory>
        ensures goes { IfOk result (λ fault. GoesBy (names_seen self.old.declared) (state_of self.old)
            (words_fault (names_seen self.old.declared) (recorded_of self.old.recorded.now) (state_of self.old) (now_all words.now) (said_by_words (now_all words.now))) (said_by_words (now_all words.now)) fault (state_of self.new)) }
        ensures same { OnOk result ((self.new.declared ≡ self.old.declared) × (self.new.recorded ≡ self.old.recorded)) }
    {
        if words.is_empty() {
            return Ok(None);
        }
        match said_of(words) {
            None => Ok(Some(self.misplaced())),
            Some(said) => match self.said_fault(said) {
                Some(kind) => Ok(Some(kind)),
                None => {
                    self.take(said)?;
                    Ok(None)
                }
            },
        }
    }

    /// Takes one line more of a text: the first kind of fault that it has, if any.
    pub fn take_line(
        &mut self,
        words: &mut Vec<&'a [u8]>,
        line: Line<'a>,
    ) -> Result<Option<FaultKind>, NoMemory>
        ensures goes { IfOk result (λ fault. GoesBy (names_seen self.old.declared) (state_of self.old)
            (fault_in (names_seen self.old.declared) (recorded_of self.old.recorded.now) (state_of self.old) (read_line (line_seen line.entry))) (read_line (line_seen line.entry)).said fault (state_of self.new)) }
        ensures same { OnOk result ((self.new.declared ≡ self.old.declared) × (self.new.recorded ≡ self.old.recorded)) }
    {
        match bytes_fault(&line) {
            Some(kind) => Ok(Some(kind)),
            None => {
                split_words(words, line.bytes)?;
                self.take_words(words)
            }
        }
    }
}
