//! Lines and words of a text: reading and writing them, and why a line is refused. It knows no job and no trace.
//!
//! A line is words with one space between each two, and byte 10 (`Lines`). A word is a number in decimal without leading
//! zero, a number of 32 bits, or bytes as `x` and two hexadecimal digits for each (`Words`, `HexBytes`). What each reader
//! returns is what the reading function of the same name gives (`Finds`, `Reads`); so one text has one reading. `LineWhy`
//! has the reasons for which a line is refused (`Reasons`).
//!
//! What is written goes into a sink that gathers (`LineTexts`). Each `write_` function answers `Fault` only where the sink
//! failed; a prefix of the text went in then. Each `put_` function needs room for all of it, and can't fail.
#![tactic(auto)]

mod byte_words;
mod digit_writer;
mod digits;
mod line_parts;
mod line_writer;
mod miss;
mod number_writer;
mod numbers;
mod reasons;
mod signed;
mod why;
mod words;

pub use byte_words::{LineBytes, MAX_WORD_BYTES};
pub use digit_writer::{write_bytes, write_digits};
pub use digits::{bytes_of, pairs_of};
pub use line_parts::{put_end, put_number, put_word};
pub use line_writer::write_line;
pub use miss::{Miss, Other};
pub use number_writer::{write_integer, write_number};
pub use numbers::{number_from, number_of};
pub use reasons::{is_between, is_text, reason_of, skipped, words_left};
pub use signed::{after_first, integer_here, starts};
pub use why::LineWhy;
pub use words::{begins, behind_name, ended, has_more, is_name, name_of, spaced};
