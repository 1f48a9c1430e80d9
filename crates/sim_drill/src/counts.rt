//! Counts of answers by their first words.

ghost use Rattle.std.specs.Prelude.{◌≡◌, ◌<◌, ◌+◌, ◌^◌, ◌-◌, ◌∷◌, ℕ, []};
ghost use Rattle.text_script.specs.AnswerWords.{Sight};
ghost use Rattle.sim_run.specs.RunText.{world_words};
ghost use Rattle.sim_drill.specs.Summary.{counted_word};
ghost use Rattle.sim_drill.specs.Counting.{AreAtMost, Tallies, count_in, counted_by, count_place};
ghost use Rattle.sim_drill.specs.Counting.{asked_as, delivered_as, ticked_as};

use node_rules::{Answer, Ticked};
use sim_world::WorldAnswer;
use spec_node::{Asked, Delivered};
use std::marker::Model;

/// A word by which answers are counted.
#[derive(Clone, Copy)]
pub enum Counted {
    /// A request was accepted.
    Accepted,
    /// A tick sent a chunk of a transfer.
    Chunk,
    /// A tick sent a request again.
    Retransmission,
    /// A request ran.
    Ran,
    /// A request had run before.
    Duplicate,
    /// A request of an earlier number.
    Stale,
    /// A reply brought its request back.
    Returned,
    /// A reply to a request that was back.
    Late,
    /// No credit was free.
    NotYet,
    /// The message was never sent.
    Unsent,
}

/// How many words are counted.
const WORDS: usize = 10;

impl Counted {
    /// All of them, in the order in which they are told.
    pub const ALL: [Counted; WORDS] = [
        Counted::Accepted,
        Counted::Chunk,
        Counted::Retransmission,
        Counted::Ran,
        Counted::Duplicate,
        Counted::Stale,
        Counted::Returned,
        Counted::Late,
        Counted::NotYet,
        Counted::Unsent,
    ];

    /// The word.
    pub fn word(self) -> &'static [u8]
        ensures { result.now ≡ counted_word self }
    {
        match self {
            Counted::Accepted => b"accepted",
            Counted::Chunk => b"chunk",
            Counted::Retransmission => b"resend",
            Counted::Ran => b"ran",
            Counted::Duplicate => b"again",
            Counted::Stale => b"stale",
            Counted::Returned => b"returned",
            Counted::Late => b"late",
            Counted::NotYet => b"not-yet",
            Counted::Unsent => b"unsent",
        }
    }

    /// The word with which an answer begins, if it is counted.
    fn of_answer(answer: &WorldAnswer) -> Option<Counted>
        ensures { result ≡ counted_by answer.now }
    {
        match answer {
            WorldAnswer::Node(Answer::Asked(asked)) => of_asked(asked),
            WorldAnswer::Node(Answer::Delivered(delivered)) => of_delivered(delivered),
            WorldAnswer::Node(Answer::Ticked(ticked)) => of_ticked(ticked),
            WorldAnswer::Unsent => Some(Counted::Unsent),
            _ => None,
        }
    }
}

/// The word of the answer to a request, if it is counted.
fn of_asked(asked: &Asked) -> Option<Counted>
    ensures { result ≡ asked_as asked.now }
{
    match asked {
        Asked::Accepted { .. } => Some(Counted::Accepted),
        Asked::Ran => Some(Counted::Ran),
        Asked::NotYet => Some(Counted::NotYet),
        _ => None,
    }
}

/// The word of the answer to a delivery, if it is counted.
fn of_delivered(delivered: &Delivered) -> Option<Counted>
    ensures { result ≡ delivered_as delivered.now }
{
    match delivered {
        Delivered::Ran(_) | Delivered::Notified(_, _) => Some(Counted::Ran),
        Delivered::Duplicate(_) => Some(Counted::Duplicate),
        Delivered::Stale => Some(Counted::Stale),
        Delivered::Returned { .. } => Some(Counted::Returned),
        Delivered::Late => Some(Counted::Late),
        _ => None,
    }
}

/// The word of the answer to a tick, if it is counted.
fn of_ticked(ticked: &Ticked) -> Option<Counted>
    ensures { result ≡ ticked_as ticked.now }
{
    match ticked {
        Ticked::Retransmission(_) => Some(Counted::Retransmission),
        Ticked::Chunk(_) => Some(Counted::Chunk),
        _ => None,
    }
}

/// How often each of these words was counted.
#[derive(Drop)]
pub struct Counts {
    counts: [u64; WORDS],
}

impl Model for Counts {
    ghost use Rattle.std.specs.Prelude.{◌≡◌, ℕ, List, length};

    ghost Value = { List ℕ };

    ghost view = { λ c. c.counts };

    ghost invariant = { λ c. length c.counts ≡ 10 };
}

impl Counts {
    /// None.
    pub fn new() -> Counts
        ensures { AreAtMost 0 result }
    {
        Counts { counts: [0; WORDS] }
    }

    /// Counts an answer, where its first word is one of these.
    pub fn count(&mut self, answer: &WorldAnswer)
        requires { AreAtMost (2 ^ 64 - 2) self.old }
        ensures tallies { (sight : Sight) → Tallies self.old self.new
            (world_words sight answer.now ∷ []) }
        ensures few { (most : ℕ) → AreAtMost most self.old → AreAtMost (most + 1) self.new }
    {
        if let Some(counted) = Counted::of_answer(answer) {
            self.counts[place_of(counted)] += 1;
        }
    }

    /// How often that word was counted.
    pub fn of(&self, counted: Counted) -> u64
        ensures { result ≡ count_in self.now counted }
    {
        self.counts[place_of(counted)]
    }
}

/// Where a word's count stands.
fn place_of(counted: Counted) -> usize
    ensures place { result ≡ count_place counted }
    ensures within { result < 10 }
{
    counted as usize
}
