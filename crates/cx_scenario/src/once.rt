ghost use Rattle.std.specs.Prelude.{◌≡◌, OnOk};
ghost use Rattle.cx_script.specs.Earlier.{declaration_of, subject};
ghost use Rattle.cx_scenario.specs.Views.{filled, once_seen};
ghost use Rattle.cx_scenario.specs.Steps.{none_once, once_with, is_twice_before};

use crate::kept::Kept;
use crate::names::{is_among, put_name};
use crate::said::Said;
use cx_index::NameIndex;
use cx_names::NoMemory;
use cx_text::Form;
use std::alloc::Global;

/// The names for which a line stands before of which only one may stand.
#[derive(Drop)]
pub struct Once {
    pub bodies: NameIndex,
    pub started: NameIndex,
    pub launched: NameIndex,
    pub registered: NameIndex,
}

impl Once {
    /// No names.
    pub fn new(alloc: Global) -> Once
        ensures { once_seen result ≡ none_once }
    {
        Once {
            bodies: NameIndex::new(alloc),
            started: NameIndex::new(alloc),
            launched: NameIndex::new(alloc),
            registered: NameIndex::new(alloc),
        }
    }

    /// Takes one line more.
    pub fn take(&mut self, line: &Said<'_>) -> Result<(), NoMemory>
        ensures { OnOk result (once_seen self.new ≡ once_with (once_seen self.old) (filled line.now)) }
    {
        let form = line.form;
        let name = line.subject();
        put_name(&mut self.bodies, matches!(form, Form::Body), name)?;
        put_name(&mut self.started, matches!(form, Form::Start), name)?;
        put_name(&mut self.launched, matches!(form, Form::Launch), name)?;
        put_name(&mut self.registered, matches!(form, Form::Register), name)
    }

    /// Whether a line stands before that may not stand beside this one.
    pub fn is_twice(&self, kept: &Kept<'_>, line: &Said<'_>) -> bool
        ensures { result ≡ is_twice_before (once_seen self.now) kept.now (filled line.now) }
    {
        let name = line.subject();
        match line.form {
            Form::Body => is_among(&self.bodies, name),
            Form::Start => is_among(&self.started, name),
            Form::Launch => is_among(&self.launched, name),
            Form::Register => is_among(&self.registered, name),
            form => form.makes().is_some() && kept.has(name),
        }
    }
}
