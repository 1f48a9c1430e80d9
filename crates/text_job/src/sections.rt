//! Reading lines that begin a part of a job's text.

ghost use Rattle.std.specs.Prelude.{◌≡◌, ◌||◌, ◌&&◌, ◌==◌, nat_le, nat_lt, codes, true};
ghost use Rattle.std.specs.Str.{bytes_eq};
ghost use Rattle.base_text.specs.Lines.{first_word};
ghost use Rattle.text_job.specs.Places.{header_at, header_or_section_form, section_at};
ghost use Rattle.text_job.specs.Places.{section_form};
ghost use Rattle.text_job.specs.JobReading.{item_of_line};
ghost use Rattle.base_text.specs.Found.{Finds, Reads};
ghost use Rattle.base_text.specs.Reasons.{reason};

use crate::forms::JobForm;
use crate::job::ListedLocks;
use crate::locks::{are_listed, locks_at};
use base_text::{LineWhy, Miss, Other, ended, name_of, reason_of, words_left};
use part_handlers::Role;
use std::alloc::Global;
use text_calls::{byte_at, role_at, short_at};

/// The first line of a handler.
#[derive(Drop)]
pub struct HandlerHeader {
    /// The index: 0, or one of a client's.
    pub index: u8,
    /// Whether the handler runs for requests or for replies.
    pub role: Role,
    /// The locks that it lists.
    pub locks: ListedLocks,
}

/// A line that begins another part of a job's text.
#[derive(Clone, Copy)]
pub enum Section {
    /// A script of this thread.
    Script { node: u16, thread: u16 },
    /// The schedule.
    Schedule,
    /// The end of the text.
    Done,
}

/// Whether a handler's index is 0, or one of a client's.
fn is_index(index: u8) -> bool
    ensures { result ≡ ((index == 0) || nat_le 128 index) }
{
    index == 0 || 128 <= index
}

/// What the first line of a handler says, and the bytes after its words.
#[tactic(auto, unfolding(crate::specs::Places::header_at))]
fn header_at(alloc: Global, bytes: &[u8]) -> Result<(HandlerHeader, &[u8]), Miss>
    ensures { Reads (λ x. (x.0, x.1.now)) result (header_at bytes.now) }
{
    let (name, rest) = name_of(bytes);
    if !JobForm::Handler.has_name(name) {
        return Err(Miss::Unlike);
    }
    let (index, rest) = byte_at(rest, 255)?;
    let (role, rest) = role_at(rest)?;
    let (items, rest) = locks_at(alloc, rest)?;
    if !is_index(index) {
        return Err(Miss::Unlike);
    }
    if !are_listed(&items) {
        return Err(Miss::Unlike);
    }
    let locks = ListedLocks { items };
    Ok((HandlerHeader { index, role, locks }, rest))
}

/// What the first line of a handler says, and the bytes after it.
pub fn header_line(alloc: Global, bytes: &[u8]) -> Result<(HandlerHeader, &[u8]), Miss>
    ensures { Reads (λ x. (x.0, x.1.now)) result (item_of_line header_at bytes.now) }
{
    let (header, rest) = header_at(alloc, bytes)?;
    let rest = ended(rest)?;
    Ok((header, rest))
}

/// Why a line that begins with `handler` isn't read.
pub fn header_why(bytes: &[u8]) -> LineWhy
    requires { bytes_eq (first_word bytes.now) (codes "handler") ≡ true }
    ensures { result ≡ reason header_or_section_form bytes.now }
{
    let (_, rest) = name_of(bytes);
    reason_of(JobForm::Handler.fits(words_left(rest)), bytes)
}

/// Whether a node and a thread are there.
fn is_there(nodes: u16, threads: u16, node: u16, thread: u16) -> bool
    ensures { result ≡ (nat_lt node nodes && nat_lt thread threads) }
{
    node < nodes && thread < threads
}

/// What begins another part, and the bytes after its words.
#[tactic(auto, unfolding(crate::specs::Places::section_at))]
fn section_at(nodes: u16, threads: u16, bytes: &[u8]) -> Result<(Section, &[u8]), Other>
    ensures { Finds (λ x. (x.0, x.1.now)) result (section_at nodes threads bytes.now) }
{
    let (name, rest) = name_of(bytes);
    if JobForm::Script.has_name(name) {
        let (node, rest) = short_at(rest, 65_535)?;
        let (thread, rest) = short_at(rest, 65_535)?;
        if !is_there(nodes, threads, node, thread) {
            return Err(Other);
        }
        return Ok((Section::Script { node, thread }, rest));
    }
    if JobForm::Schedule.has_name(name) {
        return Ok((Section::Schedule, rest));
    }
    if JobForm::Done.has_name(name) {
        return Ok((Section::Done, rest));
    }
    Err(Other)
}

/// What begins another part, and the bytes after its line.
pub fn section_line(nodes: u16, threads: u16, bytes: &[u8]) -> Result<(Section, &[u8]), Other>
    ensures { Finds (λ x. (x.0, x.1.now)) result (item_of_line (section_at nodes threads) bytes.now) }
{
    let (section, rest) = section_at(nodes, threads, bytes)?;
    let rest = ended(rest)?;
    Ok((section, rest))
}

/// Whether bytes have the form of what begins another part.
#[tactic(auto, unfolding(crate::specs::Places::section_form))]
pub fn section_form(bytes: &[u8]) -> bool
    ensures { result ≡ section_form bytes.now }
{
    let (name, rest) = name_of(bytes);
    let count = words_left(rest);
    if JobForm::Script.has_name(name) {
        return JobForm::Script.fits(count);
    }
    if JobForm::Schedule.has_name(name) {
        return JobForm::Schedule.fits(count);
    }
    if JobForm::Done.has_name(name) {
        return JobForm::Done.fits(count);
    }
    false
}
