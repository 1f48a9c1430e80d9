//! Reading calls of collectives.

ghost use Rattle.std.specs.Prelude.{◌≡◌, false};
ghost use Rattle.text_steps.specs.CollectiveLines.{collective_at, collective_form, collective_rows};
ghost use Rattle.text_steps.specs.CollectiveLines.{collective_form_row, start_row, try_row};
ghost use Rattle.text_calls.specs.Forms.{named_at, none_at, row_at};
ghost use Rattle.base_text.specs.Found.{Finds};
ghost use Rattle.text_calls.specs.FormTests.{named_form};
ghost use Rattle.text_steps.specs.Scripts.{coll_row};

use crate::collective_forms::CollectiveForm;
use crate::steps::{CollectiveText, WaitingStep};
use base_text::{Other, name_of};
use part_collective_area::Shape;
use text_calls::{Scope, collective_kind_at, number_at, short_at};

/// The start that the words of a line say behind its name, and the bytes after them.
fn start_at(bytes: &[u8]) -> Result<(CollectiveText, &[u8]), Other>
    ensures { Finds (λ x. (x.0, x.1.now)) result (row_at none_at start_row bytes.now) }
{
    let (kind, rest) = collective_kind_at(bytes)?;
    let (root, rest) = short_at(rest, 65_535)?;
    let (from, rest) = number_at(rest, 0, u64::MAX)?;
    let (len, rest) = number_at(rest, 0, u64::MAX)?;
    let shape = Shape { kind, root, len };
    Ok((CollectiveText::Start { shape, from }, rest))
}

/// The whole collective that the words of a line say behind its name, and the bytes after them.
pub fn coll_at(bytes: &[u8]) -> Result<(WaitingStep, &[u8]), Other>
    ensures { Finds (λ x. (x.0, x.1.now)) result (row_at none_at coll_row bytes.now) }
{
    let (kind, rest) = collective_kind_at(bytes)?;
    let (root, rest) = short_at(rest, 65_535)?;
    let (from, rest) = number_at(rest, 0, u64::MAX)?;
    let (len, rest) = number_at(rest, 0, u64::MAX)?;
    let (dest, rest) = number_at(rest, 0, u64::MAX)?;
    let shape = Shape { kind, root, len };
    Ok((WaitingStep::Collective { shape, from, dest }, rest))
}

/// A try to end a collective.
fn try_at(bytes: &[u8]) -> Result<(CollectiveText, &[u8]), Other>
    ensures { Finds (λ x. (x.0, x.1.now)) result (row_at none_at try_row bytes.now) }
{
    let (dest, rest) = number_at(bytes, 0, u64::MAX)?;
    Ok((CollectiveText::Try { dest }, rest))
}

/// The call that the words behind the name of a form say, and the bytes after them.
fn words_at(form: CollectiveForm, rest: &[u8]) -> Result<(CollectiveText, &[u8]), Other>
    ensures { Finds (λ x. (x.0, x.1.now)) result (row_at none_at (collective_form_row form) rest.now) }
{
    match form {
        CollectiveForm::Start => start_at(rest),
        CollectiveForm::Step => Ok((CollectiveText::Step, rest)),
        CollectiveForm::Try => try_at(rest),
    }
}

/// The call that a line says, by its name and the bytes after it.
fn named_collective_at<'a>(name: &[u8], rest: &'a [u8]) -> Result<(CollectiveText, &'a [u8]), Other>
    ensures { Finds (λ x. (x.0, x.1.now)) result
        (named_at none_at collective_rows name.now rest.now) }
{
    let Some(form) = CollectiveForm::named(name) else {
        return Err(Other);
    };
    words_at(form, rest)
}

/// The call that a line says, and the bytes after it.
#[tactic(auto, unfolding(crate::specs::CollectiveLines::collective_at))]
pub fn collective_at<'a>(
    scope: &Scope,
    bytes: &'a [u8],
) -> Result<(CollectiveText, &'a [u8]), Other>
    ensures { Finds (λ x. (x.0, x.1.now)) result (collective_at scope.now bytes.now) }
{
    let (name, rest) = name_of(bytes);
    let (call, rest) = named_collective_at(name, rest)?;
    if !scope.collect {
        return Err(Other);
    }
    Ok((call, rest))
}

/// Whether the words after a name are a form of such a line.
fn named_collective_form(name: &[u8], rest: &[u8]) -> bool
    ensures { result ≡ named_form (λ bytes. false) collective_rows name.now rest.now }
{
    match CollectiveForm::named(name) {
        Some(form) => form.fits(rest),
        None => false,
    }
}

/// Whether bytes have the form of a line that is a call of collectives.
#[tactic(auto, unfolding(crate::specs::CollectiveLines::collective_form))]
pub fn collective_form(scope: &Scope, bytes: &[u8]) -> bool
    ensures { result ≡ collective_form scope.now bytes.now }
{
    let (name, rest) = name_of(bytes);
    named_collective_form(name, rest) && scope.collect
}
