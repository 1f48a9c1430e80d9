//! Reading the lines of pairs.

ghost use Rattle.std.specs.Prelude.{◌≡◌, ◌≢◌, ◌≤◌, ◌<◌, ◌+◌, ◌*◌, ◌-◌, ◌==◌, ◌&&◌, true, [], length, codes, IfOk};
ghost use Rattle.std.specs.Str.{bytes_eq};
ghost use Rattle.wire_message.specs.Parameters.{AreInRange, credits_in_all};
ghost use Rattle.base_text.specs.Lines.{first_word};
ghost use Rattle.text_calls.specs.Forms.{Number, part_at};
ghost use Rattle.text_job.specs.JobReading.{State, item_of_line, has_pair, job_of_head, read};
ghost use Rattle.text_job.specs.Places.{AtAtomics, AtPairs, pair_at, pair_fits, pairs_form};
ghost use Rattle.base_text.specs.Found.{Finds};
ghost use Rattle.text_job.specs.Reading.{Continues, IsPaired};
ghost use Rattle.base_text.specs.Reasons.{reason};
ghost use Rattle.text_calls.specs.declared.scope.Scope.{Scope as AnyScope};

use crate::fault::JobFault;
use crate::forms::JobForm;
use crate::head::MAX_CREDITS;
use crate::job::Head;
use base_text::{LineWhy, Other, ended, name_of, reason_of, words_left};
use text_calls::{number_at, short_at};
use wire_message::{PairCredits, Settings};

/// The most pairs with credits of their own.
const PAIRS: usize = 64;

/// Whether two nodes are there and differ, and all pairs have at most 65,536 credits where this one has these.
#[tactic(auto, using(crate::proofs::PairSums::sum_in_place))]
fn pair_fits(settings: &Settings, sum: u32, pair: PairCredits) -> bool
    requires sum { sum ≡ credits_in_all settings.now }
    ensures { result ≡ pair_fits settings.now pair }
{
    let nodes = settings.nodes();
    if pair.from >= nodes {
        return false;
    }
    if pair.to >= nodes {
        return false;
    }
    if pair.from == pair.to {
        return false;
    }
    let own = u64::from(settings.credits(pair.from, pair.to));
    u64::from(sum) + u64::from(pair.credits) <= u64::from(MAX_CREDITS) + own
}

/// Credits behind a space.
fn credits_at(bytes: &[u8]) -> Result<(u16, &[u8]), Other>
    ensures value { Finds (λ x. (x.0, x.1.now)) result (part_at (Number 1 32) bytes.now) }
    ensures range { IfOk result (λ x. (1 ≤ x.0) × (x.0 ≤ 32)) }
{
    let (credits, rest) = number_at(bytes, 1, 32)?;
    Ok((credits as u16, rest))
}

/// A pair and its credits, and the bytes after their words.
#[tactic(auto, unfolding(crate::specs::Places::pair_at))]
fn pair_at<'a>(
    settings: &Settings,
    sum: u32,
    bytes: &'a [u8],
) -> Result<(PairCredits, &'a [u8]), Other>
    requires sum { sum ≡ credits_in_all settings.now }
    ensures value { Finds (λ x. (x.0, x.1.now)) result (pair_at settings.now bytes.now) }
    ensures range { IfOk result (λ x. (1 ≤ x.0.credits) × (x.0.credits ≤ 32)) }
    ensures fits { IfOk result (λ x. pair_fits settings.now x.0 ≡ true) }
{
    let (name, rest) = name_of(bytes);
    if !JobForm::Pair.has_name(name) {
        return Err(Other);
    }
    let (from, rest) = short_at(rest, 255)?;
    let (to, rest) = short_at(rest, 255)?;
    let (credits, rest) = credits_at(rest)?;
    let pair = PairCredits { from, to, credits };
    if !pair_fits(settings, sum, pair) {
        return Err(Other);
    }
    Ok((pair, rest))
}

/// A pair and its credits, and the bytes after their line.
fn pair_line<'a>(
    settings: &Settings,
    sum: u32,
    bytes: &'a [u8],
) -> Result<(PairCredits, &'a [u8]), Other>
    requires sum { sum ≡ credits_in_all settings.now }
    ensures value { Finds (λ x. (x.0, x.1.now)) result (item_of_line (pair_at settings.now) bytes.now) }
    ensures range { IfOk result (λ x. (1 ≤ x.0.credits) × (x.0.credits ≤ 32)) }
    ensures fits { IfOk result (λ x. pair_fits settings.now x.0 ≡ true) }
{
    let (pair, rest) = pair_at(settings, sum, bytes)?;
    let rest = ended(rest)?;
    Ok((pair, rest))
}

/// Why a line that begins with `pair` isn't read.
fn pair_why(bytes: &[u8]) -> LineWhy
    requires { bytes_eq (first_word bytes.now) (codes "pair") ≡ true }
    ensures { (scope : AnyScope) → result ≡ reason (pairs_form scope) bytes.now }
{
    let (_, rest) = name_of(bytes);
    reason_of(JobForm::Pair.fits(words_left(rest)), bytes)
}

/// Whether a pair is among these.
fn has_pair(pairs: &[PairCredits], pair: PairCredits) -> bool
    ensures { result ≡ has_pair pairs.now pair }
{
    pairs
        .iter()
        .any(|other| other.from == pair.from && other.to == pair.to)
}

/// The head with one more pair, where the line may stand there.
fn with_pair(head: Head, sum: u32, pair: PairCredits) -> Result<(Head, u32), LineWhy>
    requires sum { sum ≡ credits_in_all head.settings }
    requires range { AreInRange head.settings }
    requires few { (1 ≤ pair.credits) × (pair.credits ≤ 32) }
    requires fits { pair_fits head.settings pair ≡ true }
    ensures value { IsPaired head pair result }
    ensures sum { IfOk result (λ x. x.1 ≡ credits_in_all x.0.settings) }
    ensures range { IfOk result (λ x. AreInRange x.0.settings) }
    ensures count { IfOk result (λ x. (length x.0.settings.pairs ≡ length head.settings.pairs + 1) ×
        (length head.settings.pairs < 64)) }
{
    let settings = head.settings;
    if has_pair(settings.pairs(), pair) {
        return Err(LineWhy::Entry);
    }
    if settings.pairs().len() >= PAIRS {
        return Err(LineWhy::Count);
    }
    let own = u32::from(settings.credits(pair.from, pair.to));
    let sum = sum + u32::from(pair.credits) - own;
    match settings.with_pair(pair.from, pair.to, pair.credits) {
        Some(settings) => Ok((Head { settings, ..head }, sum)),
        None => Err(LineWhy::Entry),
    }
}

/// The credits of all pairs, where none has its own.
fn even_sum(settings: &Settings) -> u32
    requires { settings.now.pairs ≡ [] }
    ensures value { result ≡ credits_in_all settings.now }
    ensures range { AreInRange settings.now }
{
    let nodes = u32::from(settings.nodes());
    let mut sum = 0;
    if nodes > 1 {
        sum = nodes * (nodes - 1) * u32::from(settings.credits(0, 1));
    }
    sum
}

/// The pairs up to the first line of another kind, with its number and the bytes from it on.
pub fn pairs_at(first: Head, bytes: &[u8]) -> Result<(Head, u32, &[u8]), JobFault>
    requires { first.settings.pairs ≡ [] }
    ensures value { Continues
        (λ x. read (record { place = AtAtomics; job = job_of_head x.0 }) x.1 x.2.now)
        result (read (record { place = AtPairs; job = job_of_head first }) 11 bytes.now) }
    ensures later { IfOk result (λ x. x.1 ≤ 75) }
{
    let mut head = first;
    let mut sum = even_sum(&head.settings);
    let mut line = 11;
    let mut rest = bytes;
    while JobForm::Pair.begins(rest) {
        let (pair, after) = match pair_line(&head.settings, sum, rest) {
            Ok(read) => read,
            Err(Other) => {
                let why = pair_why(rest);
                return Err(JobFault::Bad { line, why });
            }
        };
        match with_pair(head, sum, pair) {
            Ok((more, total)) => {
                head = more;
                sum = total;
            }
            Err(why) => return Err(JobFault::Bad { line, why }),
        }
        rest = after;
        line += 1;
    }
    Ok((head, line, rest))
}
