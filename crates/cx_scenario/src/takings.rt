ghost use Rattle.std.specs.Prelude.{◌≡◌, ◌+◌, ◌<◌, ◌^◌, OnOk, IfOk, IfSome, List, map, length};
ghost use Rattle.cx_script.specs.Faults.{takes, count_in};
ghost use Rattle.cx_scenario.specs.Views.{filled, takings_seen};
ghost use Rattle.cx_scenario.specs.Steps.{taken_in, added, takings_with, is_taking};

use crate::names::place_in;
use crate::said::{Said, number_at};
use cx_index::NameIndex;
use cx_names::NoMemory;
use cx_text::Form;

/// What the calls so far take from each latch.
#[derive(Drop)]
pub struct Takings {
    pub names: NameIndex,
    pub counts: Vec<u64>,
}

/// What a line takes from its subject.
pub fn taken_by(line: &Said<'_>) -> u128
    ensures value { result ≡ count_in (takes (filled line.now)) }
    ensures small { result < 2 ^ 127 }
{
    let n = match line.form {
        Form::CountDown => number_at(&line.values, 1),
        Form::ArriveAndWait => 1,
        _ => 0,
    };
    if n < 0 { 0 } else { n as u128 }
}

impl Takings {
    /// What is taken from this name so far.
    pub fn taken(&self, name: &[u8]) -> u64
        ensures { result ≡ taken_in (takings_seen self.now) name.now }
    {
        match self.counts.get(place_in(&self.names, name)) {
            None => 0,
            Some(count) => *count,
        }
    }

    /// Takes so many more from this name.
    fn add(&mut self, name: &[u8], n: u64) -> Result<(), NoMemory>
        ensures { OnOk result (takings_seen self.new ≡ added (takings_seen self.old) name.now n) }
    {
        let place = place_in(&self.names, name);
        if place < self.counts.len() {
            let count = self.counts[place];
            self.counts[place] = count.checked_add(n).ok_or(NoMemory)?;
        } else {
            self.names.push(name)?;
            self.counts.push(n)?;
        }
        Ok(())
    }

    /// Takes one line more.
    pub fn take(&mut self, line: &Said<'_>) -> Result<(), NoMemory>
        ensures { OnOk result (takings_seen self.new ≡ takings_with (takings_seen self.old) (filled line.now)) }
    {
        match line.form {
            Form::CountDown | Form::ArriveAndWait => {
                let n = taken_by(line);
                if n < 18446744073709551616 {
                    self.add(line.subject(), n as u64)
                } else {
                    Err(NoMemory)
                }
            }
            _ => Ok(()),
        }
    }
}
