//! The forms of steps that scripts alone have: the one place in code that has their names and counts of words.

ghost use Rattle.std.specs.Prelude.{◌≡◌, false};
ghost use Rattle.text_calls.specs.FormTests.{shape_form};
ghost use Rattle.text_calls.specs.Tables.{IsRow};
ghost use Rattle.text_steps.specs.Scripts.{waiting_row, waiting_named};

use base_text::words_left;
use text_calls::WordCount::{Between, Exactly};
use text_calls::{HasName, WordCount, first_named};

/// A form of step that scripts alone have, without its words.
#[derive(Clone, Copy)]
pub enum WaitingForm {
    /// `until C V`
    Until,
    /// `put TO REMOTE LOCAL LEN`
    Put,
    /// `get TO REMOTE LOCAL LEN`
    Get,
    /// `memset TO REMOTE LEN BYTE`
    Memset,
    /// `put-nb R TO REMOTE LOCAL LEN`
    PutBegin,
    /// `put-nbi TO REMOTE LOCAL LEN`
    PutImplicit,
    /// `wait R`
    Wait,
    /// `wait-all R ..`
    WaitAll,
    /// `wait-some R ..`
    WaitSome,
    /// `wait-nbi W`
    WaitImplicit,
    /// `barrier-wait ID FLAGS`
    BarrierWait,
    /// `until-word OFF N`
    UntilWord,
    /// `coll KIND ROOT FROM LEN DEST`
    Coll,
}

/// All of them, in the order in which a name is looked up.
const WAITING_FORMS: [WaitingForm; 13] = [
    WaitingForm::Until,
    WaitingForm::Put,
    WaitingForm::Get,
    WaitingForm::Memset,
    WaitingForm::PutBegin,
    WaitingForm::PutImplicit,
    WaitingForm::Wait,
    WaitingForm::WaitAll,
    WaitingForm::WaitSome,
    WaitingForm::WaitImplicit,
    WaitingForm::BarrierWait,
    WaitingForm::UntilWord,
    WaitingForm::Coll,
];

impl WaitingForm {
    /// Its name, and how many words may follow it.
    fn row(self) -> (&'static [u8], WordCount)
        ensures { IsRow (waiting_row self) result.0.now result.1 }
    {
        match self {
            WaitingForm::Until => (b"until", Exactly(2)),
            WaitingForm::Put => (b"put", Exactly(4)),
            WaitingForm::Get => (b"get", Exactly(4)),
            WaitingForm::Memset => (b"memset", Exactly(4)),
            WaitingForm::PutBegin => (b"put-nb", Exactly(5)),
            WaitingForm::PutImplicit => (b"put-nbi", Exactly(4)),
            WaitingForm::Wait => (b"wait", Exactly(1)),
            WaitingForm::WaitAll => (b"wait-all", Between(1, 16)),
            WaitingForm::WaitSome => (b"wait-some", Between(1, 16)),
            WaitingForm::WaitImplicit => (b"wait-nbi", Exactly(1)),
            WaitingForm::BarrierWait => (b"barrier-wait", Exactly(2)),
            WaitingForm::UntilWord => (b"until-word", Exactly(2)),
            WaitingForm::Coll => (b"coll", Exactly(5)),
        }
    }

    /// The form of this name.
    #[tactic(auto, unfolding(crate::specs::Scripts::waiting_named, crate::specs::Scripts::waiting_forms))]
    pub fn named(name: &[u8]) -> Option<WaitingForm>
        ensures { result ≡ waiting_named name.now }
    {
        first_named(&WAITING_FORMS, name)
    }

    /// Whether the bytes after the name have as many words as the form.
    pub fn fits(self, rest: &[u8]) -> bool
        ensures { result ≡ shape_form (λ bytes. false) 0 (waiting_row self).shape rest.now }
    {
        self.row().1.fits(words_left(rest))
    }
}

impl HasName for WaitingForm {
    ghost use Rattle.text_steps.specs.Scripts.{waiting_row};

    ghost name_of = { λ form. (waiting_row form).name };

    fn name(self) -> &'static [u8] {
        self.row().0
    }
}
