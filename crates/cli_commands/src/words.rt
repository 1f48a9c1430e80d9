//! The words of commands.

ghost use Rattle.std.specs.Prelude.{◌≡◌, ◌<◌, ◌≤◌, ◌^◌, ◌∷◌, ℕ, [], MatchOption, codes, decimal, map, string_bytes};
ghost use Rattle.cli_commands.specs.Commands.{IsAsked};

use itoa::Buffer;

/// The least and the greatest port of rank 0.
const LEAST_PORT: u16 = 1_024;

const MOST_PORT: u16 = 65_472;

/// A command of the program.
#[derive(Clone, Copy)]
pub enum Command {
    /// A job is read, and run in a world.
    World,
    /// A job is read, and written with datagrams of version 2.
    Upgrade,
    /// A job and what its nodes wrote are read, and their traces are checked.
    Check,
    /// A job is read, its nodes are started as children, and the traces that they give are checked.
    Launch {
        /// The port of rank 0, 1,024 to 65,472.
        port: u16,
    },
    /// A job is read, and one of its nodes is run.
    Node {
        /// The number of the node, 0 to 255.
        rank: u16,
        /// The port of rank 0, 1,024 to 65,472.
        port: u16,
    },
    /// The drill of a seed is run in a world.
    Drill {
        /// The seed.
        seed: u64,
    },
}

/// The number below 2^64 whose decimal text the word is, without sign or leading zero.
fn number_of(word: &str) -> Option<u64>
    ensures { MatchOption result ((number : ℕ) → number < 2 ^ 64 → word.now ≡ decimal number → ⊥)
        (λ number. (number < 2 ^ 64) × (word.now ≡ decimal number)) }
{
    let Ok(number) = word.parse::<u64>() else {
        return None;
    };
    let mut text = Buffer::new();
    if text.format(number) == word {
        Some(number)
    } else {
        None
    }
}

/// The number, where it is in this range.
fn ranged(number: u16, least: u16, most: u16) -> Option<u16>
    ensures { MatchOption result (least ≤ number → number ≤ most → ⊥)
        (λ same. (same ≡ number) × (least ≤ same) × (same ≤ most)) }
{
    if number < least {
        return None;
    }
    if most < number {
        return None;
    }
    Some(number)
}

/// The number of this range whose decimal text the word is, without sign or leading zero.
fn number_in(word: &str, least: u16, most: u16) -> Option<u16>
    ensures { MatchOption result
        ((number : ℕ) → least ≤ number → number ≤ most → word.now ≡ decimal number → ⊥)
        (λ number. (least ≤ number) × (number ≤ most) × (word.now ≡ decimal number)) }
{
    let Ok(number) = word.parse::<u16>() else {
        return None;
    };
    let mut text = Buffer::new();
    if text.format(number) == word {
        ranged(number, least, most)
    } else {
        None
    }
}

/// The command of one word.
fn of_one(word: &str) -> Option<Command>
    ensures { IsAsked (word.now ∷ []) result }
{
    if word == "world" {
        Some(Command::World)
    } else if word == "upgrade" {
        Some(Command::Upgrade)
    } else if word == "check" {
        Some(Command::Check)
    } else {
        None
    }
}

/// The command of two words.
fn of_two(name: &str, word: &str) -> Option<Command>
    ensures { IsAsked (name.now ∷ word.now ∷ []) result }
{
    if name == "drill" {
        match number_of(word) {
            Some(seed) => Some(Command::Drill { seed }),
            None => None,
        }
    } else if name == "launch" {
        match number_in(word, LEAST_PORT, MOST_PORT) {
            Some(port) => Some(Command::Launch { port }),
            None => None,
        }
    } else {
        None
    }
}

/// The command `node` of these two words.
fn of_numbers(rank: &str, port: &str) -> Option<Command>
    ensures { IsAsked (codes "node" ∷ rank.now ∷ port.now ∷ []) result }
{
    let Some(rank) = number_in(rank, 0, 255) else {
        return None;
    };
    match number_in(port, LEAST_PORT, MOST_PORT) {
        Some(port) => Some(Command::Node { rank, port }),
        None => None,
    }
}

/// The command of three words.
fn of_three(name: &str, rank: &str, port: &str) -> Option<Command>
    ensures { IsAsked (name.now ∷ rank.now ∷ port.now ∷ []) result }
{
    if name == "node" {
        of_numbers(rank, port)
    } else {
        None
    }
}

/// What the words ask for: the command whose words they are, if there is one.
pub fn asked(words: &[String]) -> Option<Command>
    ensures { IsAsked (map string_bytes words.now) result }
{
    match words {
        [word] => of_one(word),
        [name, word] => of_two(name, word),
        [name, rank, port] => of_three(name, rank, port),
        _ => None,
    }
}
