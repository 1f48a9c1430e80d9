//! What the replays of a run have, gathered place by place.

ghost use Rattle.std.specs.Prelude.{IfOk, OnOk, string_bytes};
ghost use Rattle.cli_report.specs.Gathering.{GivesOne, GivesTo};
ghost use Rattle.cli_report.specs.Replays.{AddsSent, AreSent, AreSteps, AreStepsAndWaits, AreWaits, IsPrefixText};

use crate::findings::NodeFinding;
use crate::replays::Replays;
use crate::status::Ending;
use crate::texts::Texts;
use crate::unsent::{Gap, SentMessage};
use std::alloc::{AllocError, Global};

/// What the output of each node tells.
pub(crate) fn findings_of<R: Replays>(
    alloc: Global,
    replays: &R,
) -> Result<Vec<NodeFinding>, AllocError>
    ensures { IfOk result (λ all. GivesTo (GivesOne (R.finds replays.now)) (R.places replays.now)
        all.items) }
{
    let mut all = Vec::new(alloc);
    for place in 0..replays.count() {
        if let Some(finding) = replays.finding(place) {
            all.push(finding)?;
        }
    }
    Ok(all)
}

/// Adds what the replay at a place sent.
fn add_sent<R: Replays>(
    replays: &R,
    place: usize,
    all: &mut Vec<SentMessage>,
) -> Result<(), AllocError>
    ensures { OnOk result (AddsSent R.Replays replays.now place all.old.items all.new.items) }
{
    for number in 0..replays.sent_count(place) {
        if let Some(one) = replays.sent_at(place, number) {
            all.push(one)?;
        }
    }
    Ok(())
}

/// What the replays of all traces sent.
pub(crate) fn sent_of<R: Replays>(
    alloc: Global,
    replays: &R,
) -> Result<Vec<SentMessage>, AllocError>
    ensures { IfOk result (λ all. GivesTo (AreSent R.Replays replays.now) (R.places replays.now)
        all.items) }
{
    let mut all = Vec::new(alloc);
    for place in 0..replays.count() {
        add_sent(replays, place, &mut all)?;
    }
    Ok(all)
}

/// Of each node the first entry that got what no node sent to it, if it has one.
pub(crate) fn gaps_of<R: Replays>(alloc: Global, replays: &R) -> Result<Vec<Gap>, AllocError>
    ensures { IfOk result (λ all. GivesTo (GivesOne (R.gaps replays.now)) (R.places replays.now)
        all.items) }
{
    let mut all = Vec::new(alloc);
    for place in 0..replays.count() {
        if let Some(gap) = replays.gap(place) {
            all.push(gap)?;
        }
    }
    Ok(all)
}

/// The steps of the nodes that ended.
fn steps_of<T: Texts, R: Replays>(
    alloc: Global,
    job: &[u8],
    replays: &R,
) -> Result<String, AllocError>
    ensures { IfOk result (λ text. GivesTo (AreSteps T.Texts R.Replays job.now replays.now)
        (R.places replays.now) (string_bytes text)) }
{
    let mut text = String::new(alloc);
    for place in 0..replays.count() {
        let told = T::steps_told(alloc, job, replays.steps(place))?;
        text.push_str(told.as_str())?;
    }
    Ok(text)
}

/// The steps that the threads of the nodes wait for.
fn waits_of<T: Texts, R: Replays>(
    alloc: Global,
    job: &[u8],
    replays: &R,
) -> Result<String, AllocError>
    ensures { IfOk result (λ text. GivesTo (AreWaits T.Texts R.Replays job.now replays.now)
        (R.places replays.now) (string_bytes text)) }
{
    let mut text = String::new(alloc);
    for place in 0..replays.count() {
        let told = T::waits_told(alloc, job, replays.rank(place), replays.steps(place))?;
        text.push_str(told.as_str())?;
    }
    Ok(text)
}

/// The steps of the nodes that ended, and those that their threads wait for.
fn steps_and_waits<T: Texts, R: Replays>(
    alloc: Global,
    job: &[u8],
    replays: &R,
) -> Result<String, AllocError>
    ensures { IfOk result (λ text. AreStepsAndWaits T.Texts R.Replays job.now replays.now
        (string_bytes text)) }
{
    let steps = steps_of::<T, R>(alloc, job, replays)?;
    let waits = waits_of::<T, R>(alloc, job, replays)?;
    let (first, second) = (steps.as_str(), waits.as_str());
    format!(in alloc; "{first}{second}")
}

/// Where there is no run, the steps of the nodes that ended, and those that their threads wait for.
pub(crate) fn steps_text<T: Texts, R: Replays>(
    alloc: Global,
    ending: Ending,
    job: &[u8],
    replays: &R,
) -> Result<String, AllocError>
    ensures { IfOk result (λ text. IsPrefixText T.Texts R.Replays ending job.now replays.now
        (string_bytes text)) }
{
    match ending {
        Ending::Run => Ok(String::new(alloc)),
        Ending::NoRun => steps_and_waits::<T, R>(alloc, job, replays),
        Ending::Failed => steps_and_waits::<T, R>(alloc, job, replays),
    }
}
