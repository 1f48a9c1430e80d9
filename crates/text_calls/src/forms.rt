//! The forms of calls: the one place in code that has their names, and how many words follow them.
//!
//! Each line of a schedule looks its name up. So `named` tests the names one after the other, each of which is a
//! constant there: a loop over a list of them takes some six times as long.

ghost use Rattle.std.specs.Prelude.{◌≡◌, false};
ghost use Rattle.text_calls.specs.Calls.{call_form_row, call_named, form_name, own_forms, sync_forms};
ghost use Rattle.text_calls.specs.Calls.{transfer_forms};
ghost use Rattle.text_calls.specs.FormTests.{shape_form};
ghost use Rattle.text_calls.specs.Tables.{IsRow, first_named};

use crate::WordCount::{Between, Exactly, Operations};
use crate::{HasName, WordCount};
use base_text::{is_name, words_left};

/// A form of call, without its words.
#[derive(Clone, Copy)]
pub enum CallForm {
    /// `short TO H V ..`
    Short,
    /// `atomic TO LOCAL TAG OP OFF A B ..`
    Atomic,
    /// `medium TO H PAY V ..`
    Medium,
    /// `long TO H PAY OFF V ..`
    Long,
    /// `async TO H PAY OFF V ..`
    Async,
    /// `lock K`
    Lock,
    /// `unlock K`
    Unlock,
    /// `poll`
    Poll,
    /// `attempt KIND`
    Attempt,
    /// `cell C`
    Cell,
    /// `set-cell C V`
    SetCell,
    /// `show OFF LEN`
    Show,
    /// `set OFF BYTES`
    Set,
    /// `fill OFF LEN BYTE`
    Fill,
    /// `word OFF`
    Word,
    /// `set-word OFF N`
    SetWord,
    /// `put-nb-bulk R TO REMOTE LOCAL LEN`
    Put,
    /// `get-nb R TO REMOTE LOCAL LEN`
    Get,
    /// `memset-nb R TO REMOTE LEN BYTE`
    Memset,
    /// `put-nbi-bulk TO REMOTE LOCAL LEN`
    ImplicitPut,
    /// `get-nbi TO REMOTE LOCAL LEN`
    ImplicitGet,
    /// `memset-nbi TO REMOTE LEN BYTE`
    ImplicitMemset,
    /// `issued R`
    Issued,
    /// `try R`
    Try,
    /// `try-all R ..`
    TryAll,
    /// `try-some R ..`
    TrySome,
    /// `try-nbi W`
    TryImplicit,
    /// `region-begin`
    RegionBegin,
    /// `region-end R`
    RegionEnd,
    /// `notify ID FLAGS`
    Notify,
    /// `try-barrier ID FLAGS`
    TryBarrier,
}

impl CallForm {
    /// Its name, and how many words may follow it.
    #[inline(always)]
    fn row(self) -> (&'static [u8], WordCount)
        ensures { IsRow (call_form_row self) result.0.now result.1 }
    {
        match self {
            CallForm::Short => (b"short", Between(2, 19)),
            CallForm::Atomic => (b"atomic", Operations(3)),
            CallForm::Medium => (b"medium", Between(3, 20)),
            CallForm::Long => (b"long", Between(4, 21)),
            CallForm::Async => (b"async", Between(4, 21)),
            CallForm::Lock => (b"lock", Exactly(1)),
            CallForm::Unlock => (b"unlock", Exactly(1)),
            CallForm::Poll => (b"poll", Exactly(0)),
            CallForm::Attempt => (b"attempt", Exactly(1)),
            CallForm::Cell => (b"cell", Exactly(1)),
            CallForm::SetCell => (b"set-cell", Exactly(2)),
            CallForm::Show => (b"show", Exactly(2)),
            CallForm::Set => (b"set", Exactly(2)),
            CallForm::Fill => (b"fill", Exactly(3)),
            CallForm::Word => (b"word", Exactly(1)),
            CallForm::SetWord => (b"set-word", Exactly(2)),
            CallForm::Put => (b"put-nb-bulk", Exactly(5)),
            CallForm::Get => (b"get-nb", Exactly(5)),
            CallForm::Memset => (b"memset-nb", Exactly(5)),
            CallForm::ImplicitPut => (b"put-nbi-bulk", Exactly(4)),
            CallForm::ImplicitGet => (b"get-nbi", Exactly(4)),
            CallForm::ImplicitMemset => (b"memset-nbi", Exactly(4)),
            CallForm::Issued => (b"issued", Exactly(1)),
            CallForm::Try => (b"try", Exactly(1)),
            CallForm::TryAll => (b"try-all", Between(1, 16)),
            CallForm::TrySome => (b"try-some", Between(1, 16)),
            CallForm::TryImplicit => (b"try-nbi", Exactly(1)),
            CallForm::RegionBegin => (b"region-begin", Exactly(0)),
            CallForm::RegionEnd => (b"region-end", Exactly(1)),
            CallForm::Notify => (b"notify", Exactly(2)),
            CallForm::TryBarrier => (b"try-barrier", Exactly(2)),
        }
    }

    /// The form of this name, from `issued` on.
    #[tactic(auto, unfolding(crate::specs::Calls::sync_forms))]
    fn sync_named(name: &[u8]) -> Option<CallForm>
        ensures { result ≡ first_named form_name sync_forms name.now }
    {
        if is_name(name, CallForm::Issued.name()) {
            return Some(CallForm::Issued);
        }
        if is_name(name, CallForm::Try.name()) {
            return Some(CallForm::Try);
        }
        if is_name(name, CallForm::TryAll.name()) {
            return Some(CallForm::TryAll);
        }
        if is_name(name, CallForm::TrySome.name()) {
            return Some(CallForm::TrySome);
        }
        if is_name(name, CallForm::TryImplicit.name()) {
            return Some(CallForm::TryImplicit);
        }
        if is_name(name, CallForm::RegionBegin.name()) {
            return Some(CallForm::RegionBegin);
        }
        if is_name(name, CallForm::RegionEnd.name()) {
            return Some(CallForm::RegionEnd);
        }
        if is_name(name, CallForm::Notify.name()) {
            return Some(CallForm::Notify);
        }
        if is_name(name, CallForm::TryBarrier.name()) {
            return Some(CallForm::TryBarrier);
        }
        None
    }

    /// The form of this name, from `put-nb-bulk` on.
    #[tactic(auto, unfolding(crate::specs::Calls::transfer_forms))]
    fn transfer_named(name: &[u8]) -> Option<CallForm>
        ensures { result ≡ first_named form_name transfer_forms name.now }
    {
        if is_name(name, CallForm::Put.name()) {
            return Some(CallForm::Put);
        }
        if is_name(name, CallForm::Get.name()) {
            return Some(CallForm::Get);
        }
        if is_name(name, CallForm::Memset.name()) {
            return Some(CallForm::Memset);
        }
        if is_name(name, CallForm::ImplicitPut.name()) {
            return Some(CallForm::ImplicitPut);
        }
        if is_name(name, CallForm::ImplicitGet.name()) {
            return Some(CallForm::ImplicitGet);
        }
        if is_name(name, CallForm::ImplicitMemset.name()) {
            return Some(CallForm::ImplicitMemset);
        }
        CallForm::sync_named(name)
    }

    /// The form of this name, from `lock` on.
    #[tactic(auto, unfolding(crate::specs::Calls::own_forms))]
    fn own_named(name: &[u8]) -> Option<CallForm>
        ensures { result ≡ first_named form_name own_forms name.now }
    {
        if is_name(name, CallForm::Lock.name()) {
            return Some(CallForm::Lock);
        }
        if is_name(name, CallForm::Unlock.name()) {
            return Some(CallForm::Unlock);
        }
        if is_name(name, CallForm::Poll.name()) {
            return Some(CallForm::Poll);
        }
        if is_name(name, CallForm::Attempt.name()) {
            return Some(CallForm::Attempt);
        }
        if is_name(name, CallForm::Cell.name()) {
            return Some(CallForm::Cell);
        }
        if is_name(name, CallForm::SetCell.name()) {
            return Some(CallForm::SetCell);
        }
        if is_name(name, CallForm::Show.name()) {
            return Some(CallForm::Show);
        }
        if is_name(name, CallForm::Set.name()) {
            return Some(CallForm::Set);
        }
        if is_name(name, CallForm::Fill.name()) {
            return Some(CallForm::Fill);
        }
        if is_name(name, CallForm::Word.name()) {
            return Some(CallForm::Word);
        }
        if is_name(name, CallForm::SetWord.name()) {
            return Some(CallForm::SetWord);
        }
        CallForm::transfer_named(name)
    }

    /// The form of this name.
    #[tactic(auto, unfolding(crate::specs::Calls::call_named, crate::specs::Calls::call_forms))]
    pub fn named(name: &[u8]) -> Option<CallForm>
        ensures { result ≡ call_named name.now }
    {
        if is_name(name, CallForm::Short.name()) {
            return Some(CallForm::Short);
        }
        if is_name(name, CallForm::Atomic.name()) {
            return Some(CallForm::Atomic);
        }
        if is_name(name, CallForm::Medium.name()) {
            return Some(CallForm::Medium);
        }
        if is_name(name, CallForm::Long.name()) {
            return Some(CallForm::Long);
        }
        if is_name(name, CallForm::Async.name()) {
            return Some(CallForm::Async);
        }
        CallForm::own_named(name)
    }

    /// Whether the bytes after the name have as many words as the form.
    pub fn fits(self, rest: &[u8]) -> bool
        ensures { result ≡ shape_form (λ bytes. false) 0 (call_form_row self).shape rest.now }
    {
        self.row().1.fits(words_left(rest))
    }
}

impl HasName for CallForm {
    ghost use Rattle.text_calls.specs.Calls.{form_name};

    ghost name_of = { form_name };

    #[inline(always)]
    fn name(self) -> &'static [u8] {
        self.row().0
    }
}
