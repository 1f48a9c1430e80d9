//! The forms of events: the one place in code that has their names and counts of words.

ghost use Rattle.std.specs.Prelude.{◌≡◌, IfSome};
ghost use Rattle.std.specs.Option.{option_map};
ghost use Rattle.base_text.specs.Lines.{first_word, behind_word};
ghost use Rattle.text_calls.specs.FormTests.{shape_form};
ghost use Rattle.text_steps.specs.Events.{event_form_row, event_named};
ghost use Rattle.text_steps.specs.ThreadActions.{thread_action_form};

use crate::thread_actions::thread_action_form;
use base_text::{behind_name, skipped, spaced, words_left};
use text_calls::{HasName, Scope, first_named};

/// A form of event, without its words.
#[derive(Clone, Copy)]
pub enum EventForm {
    /// `call NODE THREAD ..`
    Call,
    /// `request FROM TO NUMBER`
    Request,
    /// `reply FROM TO NUMBER`
    Reply,
    /// `tick NODE`
    Tick,
    /// `settle ROUNDS`
    Settle,
}

/// All of them, in the order in which a name is looked up.
const EVENT_FORMS: [EventForm; 5] = [
    EventForm::Call,
    EventForm::Request,
    EventForm::Reply,
    EventForm::Tick,
    EventForm::Settle,
];

impl EventForm {
    /// The form that the first word names, and the bytes after it.
    ///
    /// Each line of a schedule asks this. So each name is a constant here, and is compared where the line has it.
    #[tactic(auto, unfolding(crate::specs::Events::event_named, crate::specs::Events::event_forms))]
    #[inline(always)]
    pub fn at_prefix(bytes: &[u8]) -> Option<(EventForm, &[u8])>
        ensures form { option_map (λ x. x.0) result ≡ event_named (first_word bytes.now) }
        ensures rest { IfSome result (λ x. x.1.now ≡ behind_word bytes.now) }
    {
        if let Some(rest) = behind_name(bytes, EventForm::Call.name()) {
            return Some((EventForm::Call, rest));
        }
        if let Some(rest) = behind_name(bytes, EventForm::Request.name()) {
            return Some((EventForm::Request, rest));
        }
        if let Some(rest) = behind_name(bytes, EventForm::Reply.name()) {
            return Some((EventForm::Reply, rest));
        }
        if let Some(rest) = behind_name(bytes, EventForm::Tick.name()) {
            return Some((EventForm::Tick, rest));
        }
        let rest = behind_name(bytes, EventForm::Settle.name())?;
        Some((EventForm::Settle, rest))
    }

    /// The form of this name.
    #[tactic(auto, unfolding(crate::specs::Events::event_named, crate::specs::Events::event_forms))]
    pub fn named(name: &[u8]) -> Option<EventForm>
        ensures { result ≡ event_named name.now }
    {
        first_named(&EVENT_FORMS, name)
    }

    /// Whether the bytes after the name have as many words as the form, and behind the thread of a call those of what a
    /// thread does.
    pub fn fits(self, scope: &Scope, rest: &[u8]) -> bool
        ensures { result ≡ shape_form (thread_action_form scope.now) 0
            (event_form_row scope.now.settings.nodes scope.now.settings.threads self).shape rest.now }
    {
        match self {
            EventForm::Call => match spaced(skipped(skipped(rest))) {
                Ok(line) => thread_action_form(scope, line),
                Err(_) => false,
            },
            EventForm::Request | EventForm::Reply => words_left(rest) == 3,
            EventForm::Tick | EventForm::Settle => words_left(rest) == 1,
        }
    }
}

impl HasName for EventForm {
    ghost use Rattle.text_steps.specs.Events.{event_form_row};

    ghost name_of = { λ form. (event_form_row 1 1 form).name };

    #[inline(always)]
    fn name(self) -> &'static [u8] {
        match self {
            EventForm::Call => b"call",
            EventForm::Request => b"request",
            EventForm::Reply => b"reply",
            EventForm::Tick => b"tick",
            EventForm::Settle => b"settle",
        }
    }
}
