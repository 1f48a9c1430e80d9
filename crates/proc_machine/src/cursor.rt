//! What is left of a thread's script.

ghost use Rattle.std.specs.Prelude.{◌≡◌, ◌<◌, Some, length, slice_get};
ghost use Rattle.std.specs.List.{list_all};
ghost use Rattle.proc_machine.specs.Kept.{is_done};
ghost use Rattle.proc_machine.specs.Cursors.{progress_of};
ghost use Rattle.proc_machine.specs.Scripted.{progress_after};

use node_rules::Answer;
use proc_steps::Tried;
use text_steps::ScriptStep;

/// What is left of a thread's script.
#[derive(Clone, Copy)]
pub struct Cursor<'a> {
    /// The steps that are left.
    pub left: &'a [ScriptStep],
    /// The answer with which the next one began, where an earlier try began it.
    pub began: Option<Answer>,
}

/// What is left of the script of the thread at this place.
pub fn cursor_at<'a>(cursors: &[Cursor<'a>], place: usize) -> Cursor<'a>
    requires { place < length cursors.now }
    ensures { slice_get cursors.now place ≡ Some result }
{
    cursors[place]
}

/// Whether no thread has a step left.
pub fn are_done(cursors: &[Cursor<'_>]) -> bool
    ensures { result ≡ list_all (λ cursor. is_done (progress_of cursor)) cursors.now }
{
    cursors.iter().all(|cursor| cursor.left.is_empty())
}

impl<'a> Cursor<'a> {
    /// At the first of these steps.
    pub fn new(steps: &'a [ScriptStep]) -> Cursor<'a>
        ensures { progress_of result ≡ record { left = steps.now; began = None } }
    {
        Cursor {
            left: steps,
            began: None,
        }
    }

    /// Goes on after the next step was tried, if there is one.
    pub fn go_on(&mut self, tried: &Tried)
        ensures { progress_of self.new ≡ progress_after (progress_of self.old) tried.now }
    {
        if self.left.is_empty() {
            return;
        }
        if tried.ended.is_some() {
            self.left = &self.left[1..];
            self.began = None;
        } else if tried.began.is_some() {
            self.began = tried.began;
        }
    }
}
