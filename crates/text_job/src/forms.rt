//! The forms of a job's own lines: the one place in code that has their names and counts of words.
//!
//! The lines of events, steps and actions have forms of their own, in `text_steps`.

ghost use Rattle.std.specs.Prelude.{◌≡◌, ◌==◌};
ghost use Rattle.std.specs.Str.{bytes_eq};
ghost use Rattle.base_text.specs.Lines.{first_word};
ghost use Rattle.text_job.specs.Places.{form_fits, form_name, setting_name};

use base_text::{begins, is_name};
use text_calls::HasName;

/// A line of a name and a number. A job's text begins with one of each, in this order.
#[derive(Clone, Copy)]
pub enum Setting {
    /// `gasnet VERSION`
    Version,
    /// `job J`
    Job,
    /// `nodes N`
    Nodes,
    /// `credits C`
    Credits,
    /// `threads T`
    Threads,
    /// `segment S`
    Segment,
    /// `last L`
    Last,
    /// `resend R`
    Resend,
    /// `patience P`
    Patience,
}

impl Setting {
    /// Whether a word is the name.
    pub(crate) fn has_name(self, word: &[u8]) -> bool
        ensures { result ≡ bytes_eq word.now (setting_name self) }
    {
        is_name(word, self.name())
    }

    /// Whether so many words may follow the name.
    pub(crate) fn fits(self, words: usize) -> bool
        ensures { result ≡ (words == 1) }
    {
        words == 1
    }
}

impl HasName for Setting {
    ghost use Rattle.text_job.specs.Places.{setting_name};

    ghost name_of = { λ setting. setting_name setting };

    fn name(self) -> &'static [u8] {
        match self {
            Setting::Version => b"gasnet",
            Setting::Job => b"job",
            Setting::Nodes => b"nodes",
            Setting::Credits => b"credits",
            Setting::Threads => b"threads",
            Setting::Segment => b"segment",
            Setting::Last => b"last",
            Setting::Resend => b"resend",
            Setting::Patience => b"patience",
        }
    }
}

/// A form of a line behind the settings, without its words.
#[derive(Clone, Copy)]
pub enum JobForm {
    /// `sieve D E F`
    Sieve,
    /// `pair I J C`
    Pair,
    /// `atomics`
    Atomics,
    /// `collect BASE ROOM`
    Collect,
    /// `handler INDEX ROLE K ..`
    Handler,
    /// `script NODE THREAD`
    Script,
    /// `schedule`
    Schedule,
    /// `end`, of a handler, a script or the schedule
    End,
    /// `done`
    Done,
}

impl JobForm {
    /// Whether a word is the name.
    pub(crate) fn has_name(self, word: &[u8]) -> bool
        ensures { result ≡ bytes_eq word.now (form_name self) }
    {
        is_name(word, self.name())
    }

    /// Whether a line begins with the name.
    #[inline(always)]
    pub(crate) fn begins(self, line: &[u8]) -> bool
        ensures { result ≡ bytes_eq (first_word line.now) (form_name self) }
    {
        begins(self.name(), line)
    }

    /// Whether so many words may follow the name.
    pub(crate) fn fits(self, words: usize) -> bool
        ensures { result ≡ form_fits self words }
    {
        match self {
            JobForm::Sieve | JobForm::Pair => words == 3,
            JobForm::Collect | JobForm::Script => words == 2,
            JobForm::Handler => 2 <= words,
            JobForm::Atomics | JobForm::Schedule | JobForm::End | JobForm::Done => words == 0,
        }
    }
}

impl HasName for JobForm {
    ghost use Rattle.text_job.specs.Places.{form_name};

    ghost name_of = { λ form. form_name form };

    fn name(self) -> &'static [u8] {
        match self {
            JobForm::Sieve => b"sieve",
            JobForm::Pair => b"pair",
            JobForm::Atomics => b"atomics",
            JobForm::Collect => b"collect",
            JobForm::Handler => b"handler",
            JobForm::Script => b"script",
            JobForm::Schedule => b"schedule",
            JobForm::End => b"end",
            JobForm::Done => b"done",
        }
    }
}
