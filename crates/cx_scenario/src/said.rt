ghost use Rattle.std.specs.Prelude.{◌≡◌, Option, Some, None, ◌∷◌, [], List, map, is_some, slice_get};
ghost use Rattle.std.specs.Option.{option_map};
ghost use Rattle.cx_script.specs.Earlier.{word_in, number_in, word_at, number_at, subject, is_call, is_main, begins_body, is_owner, is_reader};
ghost use Rattle.cx_script.specs.Faults.{makes_thread, makes_object, makes_callback};
ghost use Rattle.cx_text.specs.Views.{seen};
ghost use Rattle.cx_text.specs.Words.{is_one_of};
ghost use Rattle.cx_text.specs.Table.{makes};
ghost use Rattle.cx_scenario.specs.Views.{filled, values_seen};
ghost use Rattle.cx_scenario.specs.Seen.{declares_any};

use cx_text::{Form, Made, Value};

/// A line that has one of the forms.
#[derive(Drop)]
pub struct Said<'a> {
    pub form: Form,
    pub values: Vec<Value<'a>>,
}

/// The word of a value, and none of a number.
pub fn word_in<'a>(value: &Value<'a>) -> &'a [u8]
    ensures { result.now ≡ word_in (Some (seen value.now)) }
{
    match value {
        Value::Word(word) => word,
        Value::Number(_) => &[],
    }
}

/// The number of a value, and 0 of a word.
pub fn number_in(value: &Value<'_>) -> i128
    ensures { result ≡ number_in (Some (seen value.now)) }
{
    match value {
        Value::Word(_) => 0,
        Value::Number(n) => *n,
    }
}

/// The word at place `i` after the head.
pub fn word_at<'a>(values: &[Value<'a>], i: usize) -> &'a [u8]
    ensures { result.now ≡ word_in (slice_get (values_seen values.now) i) }
{
    match values.get(i) {
        None => &[],
        Some(value) => word_in(value),
    }
}

/// The number at place `i` after the head.
pub fn number_at(values: &[Value<'_>], i: usize) -> i128
    ensures { result ≡ number_in (slice_get (values_seen values.now) i) }
{
    match values.get(i) {
        None => 0,
        Some(value) => number_in(value),
    }
}

impl<'a> Said<'a> {
    /// The first word after the head.
    pub fn subject(&self) -> &'a [u8]
        ensures { result.now ≡ subject (filled self.now) }
    {
        word_at(&self.values, 0)
    }

    /// Whether the line is a call of a body.
    pub fn is_call(&self) -> bool
        ensures { result ≡ is_call (filled self.now) }
    {
        match self.form {
            Form::VersionOne | Form::Body | Form::Main | Form::End => false,
            form => form.makes().is_none(),
        }
    }

    /// Whether the line begins the body of main.
    pub fn is_main(&self) -> bool
        ensures { result ≡ is_main (filled self.now) }
    {
        matches!(self.form, Form::Main)
    }

    /// Whether the line begins a body.
    pub fn begins_body(&self) -> bool
        ensures { result ≡ begins_body (filled self.now) }
    {
        matches!(self.form, Form::Main | Form::Body)
    }

    /// Whether the line makes a thread.
    pub fn makes_thread(&self) -> bool
        ensures { result ≡ makes_thread (filled self.now) }
    {
        matches!(
            self.form.makes(),
            Some(Made::Thread | Made::JThread | Made::Async)
        )
    }

    /// Whether the line makes a callback.
    pub fn makes_callback(&self) -> bool
        ensures { result ≡ makes_callback (filled self.now) }
    {
        matches!(self.form.makes(), Some(Made::Callback))
    }

    /// Whether the line makes an object.
    pub fn makes_object(&self) -> bool
        ensures { result ≡ makes_object (filled self.now) }
    {
        match self.form.makes() {
            None | Some(Made::Thread | Made::Callback) => false,
            Some(_) => true,
        }
    }

    /// Whether the line declares a name.
    pub fn declares(&self) -> bool
        ensures { result ≡ declares_any (filled self.now) }
    {
        self.form.makes().is_some()
    }

    /// Whether this thread is the owner.
    pub fn is_owner(&self, name: &[u8]) -> bool
        ensures { result ≡ is_owner (filled self.now) name.now }
    {
        word_at(&self.values, 1) == name
    }

    /// Whether this thread is a reader.
    pub fn is_reader(&self, name: &[u8]) -> bool
        ensures { result ≡ is_reader (filled self.now) name.now }
    {
        match self.values.as_slice() {
            [_, _, readers @ ..] => match self.form {
                Form::SharedPromise => is_named(readers, name),
                _ => match readers {
                    [] => false,
                    [reader, ..] => word_in(reader) == name,
                },
            },
            _ => false,
        }
    }
}

/// Whether one of these words is this name.
fn is_named(values: &[Value<'_>], name: &[u8]) -> bool
    ensures { result ≡ is_one_of (map (λ v. word_in (Some v)) (values_seen values.now)) name.now }
{
    for value in values {
        if word_in(value) == name {
            return true;
        }
    }
    false
}
