//! The forms of calls of collectives: the one place in code that has their names and counts of words.

ghost use Rattle.std.specs.Prelude.{◌≡◌, false};
ghost use Rattle.text_calls.specs.FormTests.{shape_form};
ghost use Rattle.text_calls.specs.Tables.{IsRow};
ghost use Rattle.text_steps.specs.CollectiveLines.{collective_form_row, collective_named};

use base_text::words_left;
use text_calls::WordCount::Exactly;
use text_calls::{HasName, WordCount, first_named};

/// A form of line that is a call of collectives, without its words.
#[derive(Clone, Copy)]
pub enum CollectiveForm {
    /// `coll-start KIND ROOT FROM LEN`
    Start,
    /// `coll-step`
    Step,
    /// `coll-try DEST`
    Try,
}

/// All of them, in the order in which a name is looked up.
const COLLECTIVE_FORMS: [CollectiveForm; 3] = [
    CollectiveForm::Start,
    CollectiveForm::Step,
    CollectiveForm::Try,
];

impl CollectiveForm {
    /// Its name, and how many words may follow it.
    fn row(self) -> (&'static [u8], WordCount)
        ensures { IsRow (collective_form_row self) result.0.now result.1 }
    {
        match self {
            CollectiveForm::Start => (b"coll-start", Exactly(4)),
            CollectiveForm::Step => (b"coll-step", Exactly(0)),
            CollectiveForm::Try => (b"coll-try", Exactly(1)),
        }
    }

    /// The form of this name.
    #[tactic(auto, unfolding(crate::specs::CollectiveLines::collective_named, crate::specs::CollectiveLines::collective_forms))]
    pub fn named(name: &[u8]) -> Option<CollectiveForm>
        ensures { result ≡ collective_named name.now }
    {
        first_named(&COLLECTIVE_FORMS, name)
    }

    /// Whether the bytes after the name have as many words as the form.
    pub fn fits(self, rest: &[u8]) -> bool
        ensures { result ≡ shape_form (λ bytes. false) 0 (collective_form_row self).shape rest.now }
    {
        self.row().1.fits(words_left(rest))
    }
}

impl HasName for CollectiveForm {
    ghost use Rattle.text_steps.specs.CollectiveLines.{collective_form_row};

    ghost name_of = { λ form. (collective_form_row form).name };

    fn name(self) -> &'static [u8] {
        self.row().0
    }
}
