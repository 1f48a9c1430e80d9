//! Reading lines that begin transfers of many pieces.

ghost use Rattle.std.specs.Prelude.{◌≡◌, ◌≤◌, [], false, IfOk};
ghost use Rattle.node_vis.specs.Plans.{IsPlanned};
ghost use Rattle.text_calls.specs.Forms.{Number, Spans, Strides, bundle_at, bundles_at, named_at};
ghost use Rattle.text_calls.specs.Forms.{none_at};
ghost use Rattle.text_calls.specs.Forms.{part_at, row_at, split_at};
ghost use Rattle.base_text.specs.Found.{Finds, Reads};
ghost use Rattle.text_calls.specs.FormTests.{named_form};
ghost use Rattle.text_vis.specs.VisLines.{indexed_row, plan_in, shape_fault, strided_row, vis_form_row};
ghost use Rattle.text_vis.specs.VisLines.{vis_at, vis_form, vis_plan, vis_rows};

use crate::vis::{BoxedVis, Levels, SegmentRanges, VisShape, VisText, VisWords};
use crate::vis_forms::VisForm;
use base_text::{Miss, Other, has_more, name_of};
use node_vis::{Indexed, Level, Plan, PlanFault, Strided, Way};
use std::alloc::Global;
use text_calls::{Scope, byte_at, is_second, number_at, short_at};
use wire_message::Settings;

/// A level behind a space.
#[tactic(auto, unfolding(text_calls::specs::Forms::bundle_at))]
fn level_at(bytes: &[u8]) -> Result<(Level, &[u8]), Other>
    ensures { Finds (λ x. (x.0, x.1.now)) result (bundle_at Strides bytes.now) }
{
    let (count, rest) = number_at(bytes, 0, u64::MAX)?;
    let (remote, rest) = number_at(rest, 0, u64::MAX)?;
    let (local, rest) = number_at(rest, 0, u64::MAX)?;
    let level = Level {
        count,
        remote,
        local,
    };
    Ok((level, rest))
}

/// Up to four levels.
fn levels_at(alloc: Global, bytes: &[u8]) -> Result<(Levels, &[u8]), Miss>
    ensures { Reads (λ x. (x.0, x.1.now)) result (bundles_at 0 4 Strides bytes.now) }
{
    let mut items = Vec::new(alloc);
    let mut rest = bytes;
    while has_more(items.len(), 4, rest) {
        let (level, after) = level_at(rest)?;
        items.push(level)?;
        rest = after;
    }
    Ok((Levels { items }, rest))
}

/// A range behind a space: its first byte and its length.
#[tactic(auto, unfolding(text_calls::specs::Forms::bundle_at))]
fn range_at(bytes: &[u8]) -> Result<((u64, u64), &[u8]), Other>
    ensures { Finds (λ x. (x.0, x.1.now)) result (bundle_at Spans bytes.now) }
{
    let (first, rest) = number_at(bytes, 0, u64::MAX)?;
    let (len, rest) = number_at(rest, 0, u64::MAX)?;
    Ok(((first, len), rest))
}

/// So many ranges.
fn ranges_at(
    alloc: Global,
    least: usize,
    most: usize,
    bytes: &[u8],
) -> Result<(SegmentRanges, &[u8]), Miss>
    requires { most ≤ 16 }
    ensures { Reads (λ x. (x.0, x.1.now)) result (bundles_at least most Spans bytes.now) }
{
    let mut items = Vec::new(alloc);
    let mut rest = bytes;
    while has_more(items.len(), most, rest) {
        let (range, after) = range_at(rest)?;
        items.push(range)?;
        rest = after;
    }
    if items.len() < least {
        return Err(Miss::Unlike);
    }
    Ok((SegmentRanges { items }, rest))
}

/// How many ranges come first, behind a space.
pub(crate) fn count_at(bytes: &[u8]) -> Result<(usize, &[u8]), Other>
    ensures value { Finds (λ x. (x.0, x.1.now)) result (part_at (Number 1 16) bytes.now) }
    ensures range { IfOk result (λ x. (1 ≤ x.0) × (x.0 ≤ 16)) }
{
    let (count, rest) = number_at(bytes, 1, 16)?;
    Ok((count as usize, rest))
}

/// A counted list of ranges, and then another.
#[tactic(auto, unfolding(text_calls::specs::Forms::split_at))]
fn both_ranges_at(
    alloc: Global,
    bytes: &[u8],
) -> Result<(SegmentRanges, SegmentRanges, &[u8]), Miss>
    ensures { Reads (λ x. ((x.0, x.1), x.2.now)) result (split_at 16 Spans bytes.now) }
{
    let (count, rest) = count_at(bytes)?;
    let (first, rest) = ranges_at(alloc, count, count, rest)?;
    let (others, rest) = ranges_at(alloc, 1, 16, rest)?;
    Ok((first, others, rest))
}

/// What the words of a strided transfer say behind its name, and the bytes after them.
fn strided_at(alloc: Global, way: Way, bytes: &[u8]) -> Result<(VisWords, &[u8]), Miss>
    ensures { Reads (λ x. (x.0, x.1.now)) result (row_at none_at (strided_row [] way) bytes.now) }
{
    let (register, rest) = byte_at(bytes, 255)?;
    let (from, rest) = short_at(rest, 1_024)?;
    let (to, rest) = short_at(rest, 65_535)?;
    let (remote, rest) = number_at(rest, 0, u64::MAX)?;
    let (local, rest) = number_at(rest, 0, u64::MAX)?;
    let (len, rest) = number_at(rest, 0, u64::MAX)?;
    let (levels, rest) = levels_at(alloc, rest)?;
    let shape = VisShape::Strided {
        remote,
        local,
        len,
        levels,
    };
    let words = VisWords {
        register,
        from,
        way,
        to,
        shape,
    };
    Ok((words, rest))
}

/// What the words of an indexed transfer say behind its name, and the bytes after them.
fn indexed_at(alloc: Global, way: Way, bytes: &[u8]) -> Result<(VisWords, &[u8]), Miss>
    ensures { Reads (λ x. (x.0, x.1.now)) result (row_at none_at (indexed_row [] way) bytes.now) }
{
    let (register, rest) = byte_at(bytes, 255)?;
    let (from, rest) = short_at(rest, 1_024)?;
    let (to, rest) = short_at(rest, 65_535)?;
    let (remote, local, rest) = both_ranges_at(alloc, rest)?;
    let words = VisWords {
        register,
        from,
        way,
        to,
        shape: VisShape::Indexed { remote, local },
    };
    Ok((words, rest))
}

/// What the words behind the name of a form say, and the bytes after them.
fn words_at(alloc: Global, form: VisForm, rest: &[u8]) -> Result<(VisWords, &[u8]), Miss>
    ensures { Reads (λ x. (x.0, x.1.now)) result (row_at none_at (vis_form_row form) rest.now) }
{
    match form {
        VisForm::PutStrided => strided_at(alloc, Way::Put, rest),
        VisForm::GetStrided => strided_at(alloc, Way::Get, rest),
        VisForm::PutIndexed => indexed_at(alloc, Way::Put, rest),
        VisForm::GetIndexed => indexed_at(alloc, Way::Get, rest),
    }
}

/// What a line says, by its name and the bytes after it.
fn named_vis_at<'a>(
    alloc: Global,
    name: &[u8],
    rest: &'a [u8],
) -> Result<(VisWords, &'a [u8]), Miss>
    ensures { Reads (λ x. (x.0, x.1.now)) result (named_at none_at vis_rows name.now rest.now) }
{
    let Some(form) = VisForm::named(name) else {
        return Err(Miss::Unlike);
    };
    words_at(alloc, form, rest)
}

/// The plan of such words.
fn plan_of(alloc: Global, settings: &Settings, words: &VisWords) -> Result<Plan, PlanFault>
    ensures { IsPlanned (shape_fault settings.now words.now.way words.now.to words.now.shape)
        (vis_plan settings.now words.now) result }
{
    let (way, to) = (words.way, words.to);
    match &words.shape {
        VisShape::Strided {
            remote,
            local,
            len,
            levels,
        } => {
            let asked = Strided {
                way,
                to,
                remote: *remote,
                local: *local,
                len: *len,
                levels: levels.items(),
            };
            Plan::strided(alloc, settings, &asked)
        }
        VisShape::Indexed { remote, local } => {
            let asked = Indexed {
                way,
                to,
                remote: remote.items(),
                local: local.items(),
            };
            Plan::indexed(alloc, settings, &asked)
        }
    }
}

/// The transfer of such words with its plan, where it may stand in the job.
fn plan_in(alloc: Global, scope: &Scope, words: VisWords) -> Result<VisText, Miss>
    ensures { Reads (λ vis. vis) result (plan_in scope.now words) }
{
    if !is_second(scope) {
        drop(words);
        return Err(Miss::Unlike);
    }
    let plan = match plan_of(alloc, &scope.settings, &words) {
        Ok(plan) => plan,
        Err(PlanFault::NoMemory) => {
            drop(words);
            return Err(Miss::NoMemory);
        }
        Err(_) => {
            drop(words);
            return Err(Miss::Unlike);
        }
    };
    if plan.pieces() < usize::from(words.from) {
        drop(words);
        drop(plan);
        return Err(Miss::Unlike);
    }
    Ok(VisText { words, plan })
}

/// The transfer of many pieces that a line says, in an allocation of its own, and the bytes after it.
#[tactic(auto, unfolding(crate::specs::VisLines::vis_at))]
pub fn vis_at<'a>(
    alloc: Global,
    scope: &Scope,
    bytes: &'a [u8],
) -> Result<(BoxedVis, &'a [u8]), Miss>
    ensures { Reads (λ x. (x.0, x.1.now)) result (vis_at scope.now bytes.now) }
{
    let (name, rest) = name_of(bytes);
    let (words, rest) = named_vis_at(alloc, name, rest)?;
    let text = plan_in(alloc, scope, words)?;
    let inside = Box::new(alloc, text)?;
    Ok((BoxedVis { inside }, rest))
}

/// Whether the words after a name are a form of such a line.
fn named_vis_form(name: &[u8], rest: &[u8]) -> bool
    ensures { result ≡ named_form (λ bytes. false) vis_rows name.now rest.now }
{
    match VisForm::named(name) {
        Some(form) => form.fits(rest),
        None => false,
    }
}

/// Whether bytes have the form of a line that begins a transfer of many pieces.
#[tactic(auto, unfolding(crate::specs::VisLines::vis_form))]
pub fn vis_form(scope: &Scope, bytes: &[u8]) -> bool
    ensures { result ≡ vis_form scope.now bytes.now }
{
    let (name, rest) = name_of(bytes);
    named_vis_form(name, rest) && is_second(scope)
}
