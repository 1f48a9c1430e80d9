//! The forms of lines that begin transfers of many pieces: the one place in code that has their names and counts of
//! words.

ghost use Rattle.std.specs.Prelude.{◌≡◌, false};
ghost use Rattle.text_calls.specs.Forms.{Number, part_at};
ghost use Rattle.text_calls.specs.FormTests.{are_split, shape_form};
ghost use Rattle.text_vis.specs.VisLines.{vis_form_row, vis_named};

use crate::vis_lines::count_at;
use base_text::{Other, skipped, words_left};
use text_calls::{HasName, are_bundles, first_named};

/// A form of line that begins a transfer of many pieces, without its words.
#[derive(Clone, Copy)]
pub enum VisForm {
    /// `put-s R FROM TO REMOTE LOCAL LEN COUNT REMOTE LOCAL ..`
    PutStrided,
    /// `get-s R FROM TO REMOTE LOCAL LEN COUNT REMOTE LOCAL ..`
    GetStrided,
    /// `put-v R FROM TO K OFF LEN .. OFF LEN ..`
    PutIndexed,
    /// `get-v R FROM TO K OFF LEN .. OFF LEN ..`
    GetIndexed,
}

/// All of them, in the order in which a name is looked up.
const VIS_FORMS: [VisForm; 4] = [
    VisForm::PutStrided,
    VisForm::GetStrided,
    VisForm::PutIndexed,
    VisForm::GetIndexed,
];

/// Whether so many words are those of a counted list of ranges and another, by the bytes from the count on.
fn are_split(words: usize, bytes: &[u8]) -> bool
    ensures { result ≡ are_split 3 16 2 words (part_at (Number 1 16) bytes.now) }
{
    match count_at(bytes) {
        Ok((count, _)) => are_bundles(words, 4 + 2 * count, 1, 16, 2),
        Err(Other) => are_bundles(words, 4, 2, 32, 2),
    }
}

impl VisForm {
    /// The form of this name.
    #[tactic(auto, unfolding(crate::specs::VisLines::vis_named, crate::specs::VisLines::vis_forms))]
    pub fn named(name: &[u8]) -> Option<VisForm>
        ensures { result ≡ vis_named name.now }
    {
        first_named(&VIS_FORMS, name)
    }

    /// Whether the bytes after the name have as many words as the form.
    pub fn fits(self, rest: &[u8]) -> bool
        ensures { result ≡ shape_form (λ bytes. false) 0 (vis_form_row self).shape rest.now }
    {
        let count = words_left(rest);
        match self {
            VisForm::PutStrided | VisForm::GetStrided => are_bundles(count, 6, 0, 4, 3),
            VisForm::PutIndexed | VisForm::GetIndexed => {
                are_split(count, skipped(skipped(skipped(rest))))
            }
        }
    }
}

impl HasName for VisForm {
    ghost use Rattle.text_vis.specs.VisLines.{vis_form_row};

    ghost name_of = { λ form. (vis_form_row form).name };

    fn name(self) -> &'static [u8] {
        match self {
            VisForm::PutStrided => b"put-s",
            VisForm::GetStrided => b"get-s",
            VisForm::PutIndexed => b"put-v",
            VisForm::GetIndexed => b"get-v",
        }
    }
}
