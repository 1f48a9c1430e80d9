//! Telling a person.

ghost use Rattle.std.specs.Prelude.{◌≡◌, ℕ, Bool, List, Option, IfOk, string_bytes};
ghost use Rattle.cli_report.specs.Telling.{TellsHelp, TellsLine, TellsMade, TellsText, after_text, asks, end_text};

use crate::causes::fault_line;
use crate::texts::Texts;
use base_io::Wrote;
use std::alloc::{AllocError, Global};

/// What texts for a person are told to.
pub trait Tells {
    /// What was told so far, where that is known.
    ghost told: { Self → Option (List ℕ) };

    /// Tells a text. At a fault a prefix of it was told.
    fn tell(&mut self, text: &str) -> Wrote
        ensures { TellsText (told self.old) (told self.new) text.now result };
}

/// Tells a text, if there was memory for it; else nothing. Whether all of it was told.
pub fn tell_made<T: Tells>(to: &mut T, made: &Result<String, AllocError>) -> bool
    ensures { TellsMade (T.told to.old) (T.told to.new) made.now result }
{
    let Ok(text) = made else {
        return false;
    };
    match to.tell(text.as_str()) {
        Wrote::Done => true,
        Wrote::Fault => false,
    }
}

/// Whether a text was made that isn't empty.
fn asks(made: &Result<String, AllocError>) -> bool
    ensures { result ≡ asks made.now }
{
    match made {
        Ok(text) => !text.is_empty(),
        Err(AllocError) => false,
    }
}

/// Tells the help that words ask for. False where they ask for none, or memory ran out.
pub fn tell_help<X: Texts, T: Tells>(alloc: Global, words: &[String], to: &mut T) -> bool
    ensures { TellsHelp X.helps (T.told to.old) (T.told to.new) words.now result }
{
    let help = X::help(alloc, words);
    tell_made(to, &help);
    asks(&help)
}

/// Tells why no command runs, if there is memory for it.
pub fn tell_fault<T: Tells>(alloc: Global, fault: &str, to: &mut T)
    ensures { TellsLine (T.told to.old) (T.told to.new) fault.now }
{
    let line = fault_line(alloc, fault);
    tell_made(to, &line);
}

/// What is told after a run, each part a text, empty where there is nothing.
#[derive(Clone, Copy)]
pub(crate) struct After<'a> {
    /// Whether help was told before.
    pub is_help: bool,
    /// How many datagrams were dropped.
    pub dropped: &'a str,
    /// What the outputs of the nodes tell.
    pub findings: &'a str,
    /// How the nodes of a launch ended.
    pub ends: &'a str,
    /// The steps beside their answers.
    pub steps: &'a str,
    /// Why the run went wrong.
    pub fault: &'a str,
}

/// The steps, and why the run went wrong, unless help was told.
#[tactic(auto, unfolding(crate::specs::Telling::end_text))]
fn end_text(alloc: Global, after: &After<'_>) -> Result<String, AllocError>
    ensures { IfOk result (λ text. string_bytes text
        ≡ end_text after.now.is_help after.now.steps.now after.now.fault.now) }
{
    if after.is_help {
        return Ok(String::new(alloc));
    }
    let line = fault_line(alloc, after.fault)?;
    let (steps, fault) = (after.steps, line.as_str());
    format!(in alloc; "{steps}{fault}")
}

/// What is told after a run, in order.
///
/// # Errors
///
/// `AllocError` where memory ran out.
pub(crate) fn after_text(alloc: Global, after: &After<'_>) -> Result<String, AllocError>
    ensures { IfOk result (λ text. string_bytes text ≡ after_text after.now.is_help
        after.now.dropped.now after.now.findings.now after.now.ends.now after.now.steps.now
        after.now.fault.now) }
{
    let last = end_text(alloc, after)?;
    let (dropped, findings, ends) = (after.dropped, after.findings, after.ends);
    let end = last.as_str();
    format!(in alloc; "{dropped}{findings}{ends}{end}")
}
