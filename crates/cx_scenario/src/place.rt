ghost use Rattle.std.specs.Prelude.{◌≡◌, Bool};
ghost use Rattle.cx_script.specs.Earlier.{may_stand, part_of};
ghost use Rattle.cx_scenario.specs.Views.{place_seen};
ghost use Rattle.cx_scenario.specs.Steps.{behind};
ghost use Rattle.cx_scenario.specs.Front.{is_over};

use cx_text::Form;

/// Where in a scenario the next line stands.
#[derive(Clone, Copy)]
pub enum Place {
    Opening,
    Declaring,
    Between,
    Inside,
    Over,
}

impl Place {
    /// Whether a scenario is over here.
    pub fn is_over(self) -> bool
        ensures { result ≡ is_over (place_seen self) }
    {
        matches!(self, Place::Over)
    }

    /// Whether a line of this form may stand here.
    pub fn may_stand(self, form: Form) -> bool
        ensures { result ≡ may_stand (place_seen self) (part_of form) }
    {
        match (self, form) {
            (Place::Opening, Form::VersionOne) => true,
            (Place::Declaring, Form::Body | Form::Main) => true,
            (Place::Declaring, form) => form.makes().is_some(),
            (Place::Between, Form::Body | Form::Main) => true,
            (Place::Inside, Form::VersionOne | Form::Body | Form::Main) => false,
            (Place::Inside, form) => form.makes().is_none(),
            _ => false,
        }
    }

    /// The place behind a line of this form, where `main` says whether the body of main has begun.
    pub fn behind(main: bool, form: Form) -> Place
        ensures { place_seen result ≡ behind main (part_of form) }
    {
        match form {
            Form::VersionOne => Place::Declaring,
            Form::Body | Form::Main => Place::Inside,
            Form::End => { if main { Place::Over } else { Place::Between } }
            form => {
                if form.makes().is_some() {
                    Place::Declaring
                } else {
                    Place::Inside
                }
            }
        }
    }
}
