//! Reading the head of a job: its lines of a name and a number, and the sieve.

ghost use Rattle.std.specs.Prelude.{◌≡◌, ◌≤◌, ◌*◌, ◌-◌, ◌%◌, ◌&&◌, ◌||◌, ◌==◌, nat_le, IfOk, true, []};
ghost use Rattle.text_job.specs.HeadReading.{credits_form, fitting_line, head_at, in_range};
ghost use Rattle.text_job.specs.HeadReading.{nodes_form, number_from};
ghost use Rattle.text_job.specs.HeadReading.{number_line, number_why, segment_form, sieve_line};
ghost use Rattle.text_job.specs.HeadReading.{sieve_why, found_in_line};
ghost use Rattle.text_job.specs.JobReading.{job_of_head};
ghost use Rattle.text_job.specs.Places.{setting_name};
ghost use Rattle.text_calls.specs.Forms.{Number, part_at};
ghost use Rattle.base_text.specs.Found.{Finds};
ghost use Rattle.text_job.specs.Reading.{GivesAt};

use crate::fault::JobFault;
use crate::forms::{JobForm, Setting};
use crate::job::{Head, SieveRule};
use base_text::{LineWhy, Other, ended, name_of, reason_of, words_left};
use text_calls::number_at;
use wire_message::Settings;

/// The most credits of all ordered pairs of nodes together, which a world opens in one process (profile).
pub const MAX_CREDITS: u32 = 65_536;

/// The most bytes of a node's segment.
pub const MAX_SEGMENT: u64 = 67_108_864;

/// The most bytes of the segments of all nodes together.
const MAX_SEGMENTS: u64 = 268_435_456;

/// The number of a setting, in its range, and the bytes after the line.
#[tactic(auto, unfolding(crate::specs::HeadReading::number_line))]
fn number_line<'a>(
    setting: Setting,
    low: u64,
    high: u64,
    bytes: &'a [u8],
) -> Result<(u64, &'a [u8]), Other>
    ensures value { Finds (λ x. (x.0, x.1.now)) result
        (number_line (setting_name setting) low high bytes.now) }
    ensures range { IfOk result (λ x. (low ≤ x.0) × (x.0 ≤ high)) }
{
    let (word, rest) = name_of(bytes);
    if !setting.has_name(word) {
        return Err(Other);
    }
    let (number, rest) = number_at(rest, low, high)?;
    let rest = ended(rest)?;
    Ok((number, rest))
}

/// Why a line isn't that of a setting.
#[tactic(auto, unfolding(crate::specs::HeadReading::number_why))]
fn number_why(setting: Setting, bytes: &[u8]) -> LineWhy
    ensures { result ≡ number_why (setting_name setting) bytes.now }
{
    let (word, rest) = name_of(bytes);
    let form = setting.has_name(word) && setting.fits(words_left(rest));
    reason_of(form, bytes)
}

/// Whether a version has room for the nodes.
fn are_nodes(version: u64, nodes: u64) -> bool
    ensures { result ≡ (nat_le nodes 64 || (version == 2)) }
{
    nodes <= 64 || version == 2
}

/// The nodes, of which version 1 has at most 64.
#[tactic(auto, unfolding(crate::specs::HeadReading::fitting_line))]
fn nodes_line(version: u64, bytes: &[u8]) -> Result<(u64, &[u8]), Other>
    ensures value { Finds (λ x. (x.0, x.1.now)) result
        (fitting_line (nodes_form version) bytes.now) }
    ensures range { IfOk result (λ x. (1 ≤ x.0) × (x.0 ≤ 256)) }
    ensures few { IfOk result (λ x. (nat_le x.0 64 || (version == 2)) ≡ true) }
{
    let (nodes, rest) = number_line(Setting::Nodes, 1, 256, bytes)?;
    if !are_nodes(version, nodes) {
        return Err(Other);
    }
    Ok((nodes, rest))
}

/// Whether all pairs together have at most 65,536 credits.
fn are_credits(nodes: u64, credits: u64) -> bool
    requires nodes { nodes ≤ 256 }
    requires credits { credits ≤ 32 }
    ensures { result ≡ nat_le (nodes * (nodes - 1) * credits) MAX_CREDITS }
{
    nodes * nodes.saturating_sub(1) * credits <= u64::from(MAX_CREDITS)
}

/// The credits of each pair, at most 65,536 in all.
#[tactic(auto, unfolding(crate::specs::HeadReading::fitting_line))]
fn credits_line(nodes: u64, bytes: &[u8]) -> Result<(u64, &[u8]), Other>
    requires { nodes ≤ 256 }
    ensures value { Finds (λ x. (x.0, x.1.now)) result
        (fitting_line (credits_form nodes) bytes.now) }
    ensures range { IfOk result (λ x. (1 ≤ x.0) × (x.0 ≤ 32)) }
    ensures few { IfOk result (λ x. nat_le (nodes * (nodes - 1) * x.0) MAX_CREDITS ≡ true) }
{
    let (credits, rest) = number_line(Setting::Credits, 1, 32, bytes)?;
    if !are_credits(nodes, credits) {
        return Err(Other);
    }
    Ok((credits, rest))
}

/// Whether segments are whole pages, and have at most 268,435,456 bytes in all.
fn are_segments(nodes: u64, segment: u64) -> bool
    requires nodes { nodes ≤ 256 }
    requires segment { segment ≤ MAX_SEGMENT }
    ensures { result ≡ ((segment % 4096 == 0) && nat_le (nodes * segment) MAX_SEGMENTS) }
{
    segment % 4096 == 0 && nodes * segment <= MAX_SEGMENTS
}

/// The bytes of each segment, whole pages, at most 268,435,456 in all.
#[tactic(auto, unfolding(crate::specs::HeadReading::fitting_line))]
fn segment_line(nodes: u64, bytes: &[u8]) -> Result<(u64, &[u8]), Other>
    requires { nodes ≤ 256 }
    ensures value { Finds (λ x. (x.0, x.1.now)) result
        (fitting_line (segment_form nodes) bytes.now) }
    ensures range { IfOk result (λ x. (4096 ≤ x.0) × (x.0 ≤ MAX_SEGMENT)) }
    ensures few { IfOk result (λ x. ((x.0 % 4096 == 0) && nat_le (nodes * x.0) MAX_SEGMENTS) ≡ true) }
{
    let (segment, rest) = number_line(Setting::Segment, 4096, MAX_SEGMENT, bytes)?;
    if !are_segments(nodes, segment) {
        return Err(Other);
    }
    Ok((segment, rest))
}

/// A number of the sieve behind a space.
fn sieve_number(bytes: &[u8]) -> Result<(u32, &[u8]), Other>
    ensures { Finds (λ x. (x.0, x.1.now)) result (part_at (Number 0 65535) bytes.now) }
{
    let (number, rest) = number_at(bytes, 0, 65_535)?;
    Ok((number as u32, rest))
}

/// The rule of the line of the sieve, and the bytes after the line.
#[tactic(auto, unfolding(crate::specs::HeadReading::sieve_line))]
fn sieve_line(bytes: &[u8]) -> Result<(SieveRule, &[u8]), Other>
    ensures { Finds (λ x. (x.0, x.1.now)) result (sieve_line bytes.now) }
{
    let (word, rest) = name_of(bytes);
    if !JobForm::Sieve.has_name(word) {
        return Err(Other);
    }
    let (lose, rest) = sieve_number(rest)?;
    let (repeat, rest) = sieve_number(rest)?;
    let (swap, rest) = sieve_number(rest)?;
    let rest = ended(rest)?;
    Ok((SieveRule { lose, repeat, swap }, rest))
}

/// Why a line isn't that of the sieve.
#[tactic(auto, unfolding(crate::specs::HeadReading::sieve_why))]
fn sieve_why(bytes: &[u8]) -> LineWhy
    ensures { result ≡ sieve_why bytes.now }
{
    let (word, rest) = name_of(bytes);
    let form = JobForm::Sieve.has_name(word) && JobForm::Sieve.fits(words_left(rest));
    reason_of(form, bytes)
}

/// The number of a setting, in its range, and the bytes after the line.
#[tactic(auto, unfolding(crate::specs::HeadReading::number_from, crate::specs::HeadReading::fitting_line))]
fn number_from<'a>(
    line: u32,
    setting: Setting,
    low: u64,
    high: u64,
    bytes: &'a [u8],
) -> Result<(u64, &'a [u8]), JobFault>
    ensures value { GivesAt (λ x. (x.0, x.1.now)) result
        (number_from (in_range (setting_name setting) low high) line bytes.now) }
    ensures range { IfOk result (λ x. (low ≤ x.0) × (x.0 ≤ high)) }
{
    match number_line(setting, low, high, bytes) {
        Ok(read) => Ok(read),
        Err(Other) => {
            let why = number_why(setting, bytes);
            Err(JobFault::Bad { line, why })
        }
    }
}

/// The nodes, and the bytes after their line.
#[tactic(auto, unfolding(crate::specs::HeadReading::number_from))]
fn nodes_from(line: u32, version: u64, bytes: &[u8]) -> Result<(u64, &[u8]), JobFault>
    ensures value { GivesAt (λ x. (x.0, x.1.now)) result
        (number_from (nodes_form version) line bytes.now) }
    ensures range { IfOk result (λ x. (1 ≤ x.0) × (x.0 ≤ 256)) }
    ensures few { IfOk result (λ x. (nat_le x.0 64 || (version == 2)) ≡ true) }
{
    match nodes_line(version, bytes) {
        Ok(read) => Ok(read),
        Err(Other) => {
            let why = number_why(Setting::Nodes, bytes);
            Err(JobFault::Bad { line, why })
        }
    }
}

/// The credits of each pair, and the bytes after their line.
#[tactic(auto, unfolding(crate::specs::HeadReading::number_from))]
fn credits_from(line: u32, nodes: u64, bytes: &[u8]) -> Result<(u64, &[u8]), JobFault>
    requires { nodes ≤ 256 }
    ensures value { GivesAt (λ x. (x.0, x.1.now)) result
        (number_from (credits_form nodes) line bytes.now) }
    ensures range { IfOk result (λ x. (1 ≤ x.0) × (x.0 ≤ 32)) }
    ensures few { IfOk result (λ x. nat_le (nodes * (nodes - 1) * x.0) MAX_CREDITS ≡ true) }
{
    match credits_line(nodes, bytes) {
        Ok(read) => Ok(read),
        Err(Other) => {
            let why = number_why(Setting::Credits, bytes);
            Err(JobFault::Bad { line, why })
        }
    }
}

/// The bytes of each segment, and the bytes after their line.
#[tactic(auto, unfolding(crate::specs::HeadReading::number_from))]
fn segment_from(line: u32, nodes: u64, bytes: &[u8]) -> Result<(u64, &[u8]), JobFault>
    requires { nodes ≤ 256 }
    ensures value { GivesAt (λ x. (x.0, x.1.now)) result
        (number_from (segment_form nodes) line bytes.now) }
    ensures range { IfOk result (λ x. (4096 ≤ x.0) × (x.0 ≤ MAX_SEGMENT)) }
    ensures few { IfOk result (λ x. ((x.0 % 4096 == 0) && nat_le (nodes * x.0) MAX_SEGMENTS) ≡ true) }
{
    match segment_line(nodes, bytes) {
        Ok(read) => Ok(read),
        Err(Other) => {
            let why = number_why(Setting::Segment, bytes);
            Err(JobFault::Bad { line, why })
        }
    }
}

/// The rule of the sieve, and the bytes after its line.
fn sieve_from(line: u32, bytes: &[u8]) -> Result<(SieveRule, &[u8]), JobFault>
    ensures { GivesAt (λ x. (x.0, x.1.now)) result (found_in_line line (sieve_why bytes.now)
        (sieve_line bytes.now)) }
{
    match sieve_line(bytes) {
        Ok(read) => Ok(read),
        Err(Other) => {
            let why = sieve_why(bytes);
            Err(JobFault::Bad { line, why })
        }
    }
}

/// The head of a job, and the bytes after its ten lines.
#[tactic(auto, unfolding(crate::specs::HeadReading::head_at))]
pub fn head_at(bytes: &[u8]) -> Result<(Head, &[u8]), JobFault>
    ensures value { GivesAt (λ x. (job_of_head x.0, x.1.now)) result (head_at bytes.now) }
    ensures none { IfOk result (λ x. x.0.settings.pairs ≡ []) }
{
    let (version, rest) = number_from(1, Setting::Version, 1, 2, bytes)?;
    let (job, rest) = number_from(2, Setting::Job, 0, u64::MAX, rest)?;
    let (nodes, rest) = nodes_from(3, version, rest)?;
    let (credits, rest) = credits_from(4, nodes, rest)?;
    let (threads, rest) = number_from(5, Setting::Threads, 1, 16, rest)?;
    let (segment, rest) = segment_from(6, nodes, rest)?;
    let (last, rest) = number_from(7, Setting::Last, 1, u64::MAX, rest)?;
    let (resend, rest) = number_from(8, Setting::Resend, 1, 1_000_000, rest)?;
    let (patience, rest) = number_from(9, Setting::Patience, 1, 1_000_000, rest)?;
    let (sieve, rest) = sieve_from(10, rest)?;
    let (version, nodes, credits, threads) = (
        version as u8,
        nodes as u16,
        credits as u16,
        threads as u16,
    );
    match Settings::new(version, job, nodes, credits, threads, segment, last, resend) {
        Some(settings) => {
            let patience = patience as u32;
            Ok((
                Head {
                    settings,
                    patience,
                    sieve,
                    atomics: false,
                    collect: None,
                },
                rest,
            ))
        }
        None => {
            let why = LineWhy::Value;
            Err(JobFault::Bad { line: 10, why })
        }
    }
}
