//! Tables, each one text, and texts with holes.

use itoa::Buffer;
use std::alloc::{AllocError, Global};

/// The word at a place of a text. Empty where there are not so many words.
pub fn word_of(text: &str, place: usize) -> &str {
    text.split(' ').nth(place).unwrap_or("")
}

/// What stands in a table behind two words: the end of its first line whose first word is one of
/// the first two that are given and whose second word is the last one. In a line `_` stands for any
/// word. Empty where there is no such line.
pub fn row(table: &'static str, first: &str, other: &str, second: &str) -> &'static str {
    for line in table.lines() {
        let mut words = line.splitn(3, ' ');
        let own = words.next().unwrap_or("");
        let next = words.next().unwrap_or("");
        let is_first = own == first || own == other || own == "_";
        if is_first && (next == second || next == "_") {
            return words.next().unwrap_or("");
        }
    }
    ""
}

/// A text with these words for each `@` in it, and these numbers for each `%`, in their order.
pub fn fill(
    alloc: Global,
    text: &str,
    words: &[&str],
    numbers: &[u64],
) -> Result<String, AllocError> {
    let mut filled = String::new(alloc);
    let mut buffer = Buffer::new();
    let (mut words, mut numbers) = (words.iter(), numbers.iter());
    for letter in text.chars() {
        match letter {
            '@' => filled.push_str(words.next().unwrap_or(&""))?,
            '%' => filled.push_str(buffer.format(*numbers.next().unwrap_or(&0)))?,
            _ => filled.push(letter)?,
        }
    }
    Ok(filled)
}

/// Words of several texts as those of one.
pub fn as_one<'a>(first: &'a str, second: &'a str, third: &'a str, last: &'a str) -> [&'a str; 4] {
    [first, second, third, last]
}

/// A word with spaces behind it, where it is shorter than this.
pub fn padded(alloc: Global, word: &str, width: usize) -> Result<String, AllocError> {
    let mut text = String::from_str(alloc, word)?;
    for _ in word.len()..width {
        text.push(' ')?;
    }
    Ok(text)
}
