//! The forms of actions in a handler's body: the one place in code that has their names and counts of words.

ghost use Rattle.std.specs.Prelude.{◌≡◌};
ghost use Rattle.text_calls.specs.FormTests.{shape_form};
ghost use Rattle.text_steps.specs.Bodies.{action_form_row, action_named, reply_form};

use crate::bodies::reply_form;
use base_text::{spaced, words_left};
use text_calls::{HasName, first_named};

/// A form of action, without its words.
#[derive(Clone, Copy)]
pub enum ActionForm {
    /// `add C V`
    Add,
    /// `set-cell C V`
    SetCell,
    /// `source C`
    Source,
    /// `sum C`
    Sum,
    /// `keep OFF`
    Keep,
    /// `lock K`
    Lock,
    /// `unlock K`
    Unlock,
    /// `attempt KIND`
    Attempt,
    /// `reply ..`
    Reply,
}

/// All of them, in the order in which a name is looked up.
const ACTION_FORMS: [ActionForm; 9] = [
    ActionForm::Add,
    ActionForm::SetCell,
    ActionForm::Source,
    ActionForm::Sum,
    ActionForm::Keep,
    ActionForm::Lock,
    ActionForm::Unlock,
    ActionForm::Attempt,
    ActionForm::Reply,
];

impl ActionForm {
    /// The form of this name.
    #[tactic(auto, unfolding(crate::specs::Bodies::action_named, crate::specs::Bodies::action_forms))]
    pub fn named(name: &[u8]) -> Option<ActionForm>
        ensures { result ≡ action_named name.now }
    {
        first_named(&ACTION_FORMS, name)
    }

    /// Whether the bytes after the name have as many words as the form, and behind `reply` as many as one of a reply.
    pub fn fits(self, rest: &[u8]) -> bool
        ensures { result ≡ shape_form reply_form 0 (action_form_row self).shape rest.now }
    {
        match self {
            ActionForm::Add | ActionForm::SetCell => words_left(rest) == 2,
            ActionForm::Source
            | ActionForm::Sum
            | ActionForm::Keep
            | ActionForm::Lock
            | ActionForm::Unlock
            | ActionForm::Attempt => words_left(rest) == 1,
            ActionForm::Reply => match spaced(rest) {
                Ok(line) => reply_form(line),
                Err(_) => false,
            },
        }
    }
}

impl HasName for ActionForm {
    ghost use Rattle.text_steps.specs.Bodies.{action_form_row};

    ghost name_of = { λ form. (action_form_row form).name };

    fn name(self) -> &'static [u8] {
        match self {
            ActionForm::Add => b"add",
            ActionForm::SetCell => b"set-cell",
            ActionForm::Source => b"source",
            ActionForm::Sum => b"sum",
            ActionForm::Keep => b"keep",
            ActionForm::Lock => b"lock",
            ActionForm::Unlock => b"unlock",
            ActionForm::Attempt => b"attempt",
            ActionForm::Reply => b"reply",
        }
    }
}
