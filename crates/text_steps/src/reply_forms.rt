//! The forms of replies, behind the word `reply`: the one place in code that has their names and counts of words.

ghost use Rattle.std.specs.Prelude.{◌≡◌, false};
ghost use Rattle.text_calls.specs.FormTests.{shape_form};
ghost use Rattle.text_calls.specs.Tables.{IsRow};
ghost use Rattle.text_steps.specs.Bodies.{reply_form_row, reply_named};

use base_text::words_left;
use text_calls::WordCount::Between;
use text_calls::{HasName, WordCount, first_named};

/// A form of reply, without its words.
#[derive(Clone, Copy)]
pub enum ReplyForm {
    /// `short H V ..`
    Short,
    /// `medium H PAY V ..`
    Medium,
    /// `long H PAY OFF V ..`
    Long,
}

/// All of them, in the order in which a name is looked up.
const REPLY_FORMS: [ReplyForm; 3] = [ReplyForm::Short, ReplyForm::Medium, ReplyForm::Long];

impl ReplyForm {
    /// Its name, and how many words may follow it.
    fn row(self) -> (&'static [u8], WordCount)
        ensures { IsRow (reply_form_row self) result.0.now result.1 }
    {
        match self {
            ReplyForm::Short => (b"short", Between(1, 18)),
            ReplyForm::Medium => (b"medium", Between(2, 19)),
            ReplyForm::Long => (b"long", Between(3, 20)),
        }
    }

    /// The form of this name.
    #[tactic(auto, unfolding(crate::specs::Bodies::reply_named, crate::specs::Bodies::all_replies))]
    pub fn named(name: &[u8]) -> Option<ReplyForm>
        ensures { result ≡ reply_named name.now }
    {
        first_named(&REPLY_FORMS, name)
    }

    /// Whether the bytes after the name have as many words as the form.
    pub fn fits(self, rest: &[u8]) -> bool
        ensures { result ≡ shape_form (λ bytes. false) 0 (reply_form_row self).shape rest.now }
    {
        self.row().1.fits(words_left(rest))
    }
}

impl HasName for ReplyForm {
    ghost use Rattle.text_steps.specs.Bodies.{reply_form_row};

    ghost name_of = { λ form. (reply_form_row form).name };

    fn name(self) -> &'static [u8] {
        self.row().0
    }
}
