//! The forms of a job's lines, as a person is told of them.

use crate::kinds::{KINDS, number};
use crate::places::{Reading, parts_at};
use crate::tables::{row, word_of};
use std::alloc::{AllocError, Global};

/// All forms. A line has the part of a job's text where the form stands, the least and the greatest
/// count of its words, and its words; behind `..` the last ones come again.
///
/// A part that begins with 2 stands in version 2 alone. The part `also` is of the word before the
/// calls of a schedule.
static FORMS: &str = "\
head0 2 2 gasnet VERSION
head1 2 2 job J
head2 2 2 nodes N
head3 2 2 credits C
head4 2 2 threads T
head5 2 2 segment S
head6 2 2 last L
head7 2 2 resend R
head8 2 2 patience P
head9 4 4 sieve D E F
pair 4 4 pair I J C
2atomics 1 1 atomics
2collect 3 3 collect BASE ROOM
handler 3 4194304 handler INDEX ROLE K ..
script 3 3 script NODE THREAD
schedule 1 1 schedule
done 1 1 done
end 1 1 end
action 3 3 add C V
action 3 3 set-cell C V
action 2 2 source C
action 2 2 sum C
action 2 2 keep OFF
action 2 2 lock K
action 2 2 unlock K
action 2 2 attempt KIND
action 3 20 reply short H V ..
action 4 21 reply medium H PAY V ..
action 5 22 reply long H PAY OFF V ..
wait 3 3 until C V
wait 5 5 put TO REMOTE LOCAL LEN
wait 5 5 get TO REMOTE LOCAL LEN
wait 5 5 memset TO REMOTE LEN BYTE
wait 6 6 put-nb R TO REMOTE LOCAL LEN
wait 5 5 put-nbi TO REMOTE LOCAL LEN
wait 2 2 wait R
wait 2 17 wait-all R ..
wait 2 17 wait-some R ..
wait 2 2 wait-nbi W
wait 3 3 barrier-wait ID FLAGS
2wait 3 3 until-word OFF N
call 3 20 short TO H V ..
call 4 21 medium TO H PAY V ..
call 5 22 long TO H PAY OFF V ..
call 5 22 async TO H PAY OFF V ..
call 2 2 lock K
call 2 2 unlock K
call 1 1 poll
call 2 2 attempt KIND
call 2 2 cell C
call 3 3 set-cell C V
call 3 3 show OFF LEN
call 3 3 set OFF BYTES
call 4 4 fill OFF LEN BYTE
call 2 2 word OFF
call 3 3 set-word OFF N
call 6 6 put-nb-bulk R TO REMOTE LOCAL LEN
call 6 6 get-nb R TO REMOTE LOCAL LEN
call 6 6 memset-nb R TO REMOTE LEN BYTE
call 5 5 put-nbi-bulk TO REMOTE LOCAL LEN
call 5 5 get-nbi TO REMOTE LOCAL LEN
call 5 5 memset-nbi TO REMOTE LEN BYTE
call 2 2 issued R
call 2 2 try R
call 2 17 try-all R ..
call 2 17 try-some R ..
call 2 2 try-nbi W
call 1 1 region-begin
call 2 2 region-end R
2call 7 19 put-s R FROM TO REMOTE LOCAL LEN COUNT REMOTE LOCAL ..
2call 7 19 get-s R FROM TO REMOTE LOCAL LEN COUNT REMOTE LOCAL ..
2call 9 69 put-v R FROM TO K OFF LEN .. OFF LEN ..
2call 9 69 get-v R FROM TO K OFF LEN .. OFF LEN ..
call 3 3 notify ID FLAGS
call 3 3 try-barrier ID FLAGS
batch 8 68 atomic TO LOCAL TAG OP OFF A B ..
collective 5 5 coll-start KIND ROOT FROM LEN
collective 1 1 coll-step
collective 2 2 coll-try DEST
whole 6 6 coll KIND ROOT FROM LEN DEST
event 4 4 request I J K
event 4 4 reply I J K
event 2 2 tick I
event 2 2 settle K
also 1 1 call
";

/// What the words of forms have to be. A line has a part or the first word of a form, a word of it,
/// and its kind: a range or the name of a row of kinds. `_` stands for all others. A word without a
/// row may be any.
///
/// The row of `..` has the words that come again, by the rest that their place leaves by 12.
static WORDS: &str = "\
gasnet VERSION :1:2
job J :0:18446744073709551615
nodes N :1:NODES
credits C :1:32
threads T :1:16
segment S :4096:67108864
last L :1:18446744073709551615
resend R :1:1000000
patience P :1:1000000
sieve D :0:65535
sieve E :0:65535
sieve F :0:65535
pair I :0:RANK
pair J :0:RANK
pair C :1:32
handler INDEX index
handler ROLE role
handler K :0:63
script NODE :0:RANK
script THREAD :0:THREAD
settle K :1:4096
event NOW :0:18446744073709551615
event I :0:RANK
event J :0:RANK
event T :0:THREAD
event K :1:18446744073709551615
2call K :1:16
collect ROOM :8:8192
collective KIND collective
collective FROM :0:18446744073709551615
whole KIND collective
whole FROM :0:18446744073709551615
show LEN :0:8192
action V body-value
action PAY body-payload
_ C :0:255
_ R :0:255
_ H :0:255
_ K :0:255
_ BYTE :0:255
_ FLAGS :0:255
_ FROM :0:1024
_ TO :0:65535
_ ROOT :0:65535
_ BASE :0:18446744073709551615
_ DEST :0:18446744073709551615
_ OFF :0:18446744073709551615
_ LEN :0:18446744073709551615
_ REMOTE :0:18446744073709551615
_ LOCAL :0:18446744073709551615
_ COUNT :0:18446744073709551615
_ N :0:18446744073709551615
_ TAG :0:18446744073709551615
_ A :0:18446744073709551615
_ B :0:18446744073709551615
_ ID integer
_ V value
_ PAY payload
_ BYTES bytes
_ KIND call
_ W implicit
_ OP operation
atomic .. OP OFF A B OP OFF A B OP OFF A B
put-s .. LOCAL COUNT REMOTE LOCAL COUNT REMOTE LOCAL COUNT REMOTE LOCAL COUNT REMOTE
get-s .. LOCAL COUNT REMOTE LOCAL COUNT REMOTE LOCAL COUNT REMOTE LOCAL COUNT REMOTE
put-v .. LEN OFF LEN OFF LEN OFF LEN OFF LEN OFF LEN OFF
get-v .. LEN OFF LEN OFF LEN OFF LEN OFF LEN OFF LEN OFF
handler .. K K K K K K K K K K K K
wait-all .. R R R R R R R R R R R R
wait-some .. R R R R R R R R R R R R
try-all .. R R R R R R R R R R R R
try-some .. R R R R R R R R R R R R
action .. V V V V V V V V V V V V
call .. V V V V V V V V V V V V
";

/// From this place on the words of a form that has so many are those that come again.
const AGAIN: usize = 7;

/// A form of lines.
#[derive(Clone, Copy)]
pub struct Form {
    /// The part where it stands. Empty of no form.
    pub part: &'static str,
    /// Its first word.
    pub name: &'static str,
    /// Its words.
    pub text: &'static str,
    /// The least count of its words.
    pub least: usize,
    /// The greatest count.
    pub most: usize,
}

/// What stands before the event or the call in a line of the schedule.
pub const PREFIX: Form = Form {
    part: "event",
    name: "NOW",
    text: "NOW call I T",
    least: 4,
    most: 4,
};

/// The form that a line of the table says.
fn form_of(line: &'static str) -> Form {
    let mut words = line.splitn(4, ' ');
    let part = words.next().unwrap_or("");
    let least = number(words.next().unwrap_or("")) as usize;
    let most = number(words.next().unwrap_or("")) as usize;
    let text = words.next().unwrap_or("");
    Form {
        part,
        name: word_of(text, 0),
        text,
        least,
        most,
    }
}

/// Whether a form begins with these two words. The second one counts only in a reply of a handler.
fn begins(form: &Form, name: &str, second: &str) -> bool {
    if form.name != name {
        return false;
    }
    if form.part != "action" || name != "reply" {
        return true;
    }
    word_of(form.text, 1) == second
}

/// The form as which a line begins at a word, of those that may come at this place in this job, or
/// only in another.
pub fn form_in(reading: &Reading, place: &str, here: bool, line: &str, first: usize) -> Form {
    let parts = parts_at(place);
    let name = word_of(line, first);
    let second = word_of(line, first.saturating_add(1));
    for row in FORMS.lines() {
        let form = form_of(row);
        if begins(&form, name, second) && reading.has(parts, form.part, here) {
            return form;
        }
    }
    form_of("")
}

/// The names of the forms that may come at this place. Of forms of one name it has the first.
pub fn names(alloc: Global, reading: &Reading, place: &str) -> Result<String, AllocError> {
    let mut names = String::new(alloc);
    let parts = parts_at(place);
    for line in FORMS.lines() {
        let form = form_of(line);
        if !reading.has(parts, form.part, true) || names.as_str().ends_with(form.name) {
            continue;
        }
        if !names.is_empty() {
            names.push_str(", ")?;
        }
        names.push_str(form.name)?;
    }
    Ok(names)
}

impl Form {
    /// The form's word for the word at a place.
    pub fn word_at(&self, place: usize) -> &'static str {
        let word = word_of(self.text, place);
        if place < AGAIN && word != ".." && !word.is_empty() {
            return word;
        }
        word_of(row(WORDS, self.name, self.part, ".."), place % 12)
    }

    /// What may stand for a word of the form. Empty where any word may.
    pub fn kind_of(&self, word: &str) -> &'static str {
        let kind = row(WORDS, self.name, self.part, word);
        let named = row(KINDS, "kind", "", kind);
        if named.is_empty() { kind } else { named }
    }
}
