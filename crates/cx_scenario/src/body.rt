ghost use Rattle.std.specs.Prelude.{◌≡◌, OnOk, IfOk, IfSome, List, map};
ghost use Rattle.cx_text.specs.Views.{now_all};
ghost use Rattle.cx_text.specs.Words.{main_word};
ghost use Rattle.cx_scenario.specs.Views.{filled, body_seen};
ghost use Rattle.cx_scenario.specs.Steps.{body_with, begun_name, without, marked};
ghost use Rattle.cx_script.specs.Earlier.{subject};

use crate::said::Said;
use cx_index::NameIndex;
use cx_names::NoMemory;
use cx_text::Form;

/// The body that the next line stands in.
#[derive(Drop)]
pub struct Body<'a> {
    /// Whose body it is.
    pub thread: &'a [u8],
    /// How many calls it has so far.
    pub len: usize,
    /// The callbacks that it has registered.
    pub registered: NameIndex,
    /// The threads that it has started and not joined since.
    pub unjoined: Vec<&'a [u8]>,
}

/// The thread whose body a line begins.
pub fn begun_name<'a>(line: &Said<'a>) -> &'a [u8]
    ensures { result.now ≡ begun_name (filled line.now) }
{
    if line.is_main() {
        b"main"
    } else {
        line.subject()
    }
}

/// Takes a name out, wherever it stands.
fn take_out(names: &mut Vec<&[u8]>, name: &[u8])
    ensures { now_all names.new.items ≡ without (now_all names.old.items) name.now }
{
    names.retain(|other| *other != name);
}

impl<'a> Body<'a> {
    /// Takes one line more.
    pub fn take(&mut self, line: &Said<'a>) -> Result<(), NoMemory>
        ensures { OnOk result (body_seen self.new ≡ body_with (body_seen self.old) (filled line.now)) }
    {
        if line.begins_body() {
            self.thread = begun_name(line);
            self.len = 0;
            self.registered.clear();
            self.unjoined.clear();
        }
        if line.is_call() {
            self.len = self.len.checked_add(1).ok_or(NoMemory)?;
        }
        self.mark(line)
    }

    /// Marks who is registered, started or joined.
    fn mark(&mut self, line: &Said<'a>) -> Result<(), NoMemory>
        ensures { OnOk result (body_seen self.new ≡ marked (body_seen self.old) line.now.form (subject (filled line.now))) }
    {
        match line.form {
            Form::Register => self.registered.push(line.subject())?,
            Form::Start => self.unjoined.push(line.subject())?,
            Form::Join => take_out(&mut self.unjoined, line.subject()),
            _ => {}
        }
        Ok(())
    }
}
