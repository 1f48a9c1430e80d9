//! Where a line stands in a job's text.

use crate::kinds::{fits, number};
use crate::tables::row;

/// Which parts may come at a place, and which place comes behind a line: behind the place and the
/// first word of the line. The places `round` and `call` are within a line of the schedule: before
/// its event, and before its call.
static PLACES: &str = "\
comes head0 head0
comes head1 head1
comes head2 head2
comes head3 head3
comes head4 head4
comes head5 head5
comes head6 head6
comes head7 head7
comes head8 head8
comes head9 head9
comes pairs pair 2atomics 2collect handler script schedule done
comes collect 2collect handler script schedule done
comes handlers handler script schedule done
comes body action end
comes scripts script schedule done
comes steps wait 2wait call 2call batch collective whole end
comes schedule event end
comes done done
comes round event also
comes call call 2call batch collective
head0 _ head1
head1 _ head2
head2 _ head3
head3 _ head4
head4 _ head5
head5 _ head6
head6 _ head7
head7 _ head8
head8 _ head9
head9 _ pairs
body end handlers
body _ body
steps end scripts
steps _ steps
schedule end done
schedule _ schedule
_ pair pairs
_ atomics collect
_ collect handlers
_ handler body
_ script steps
_ schedule schedule
_ _ behind
";

/// The settings that other lines of a job depend on.
#[derive(Clone, Copy)]
pub struct Limits {
    /// The version.
    pub version: u64,
    /// The nodes.
    pub nodes: u64,
    /// The threads of each node.
    pub threads: u64,
}

/// Those before a job's first line.
pub const NO_LIMITS: Limits = Limits {
    version: 1,
    nodes: 1,
    threads: 1,
};

/// What is known of a job's text from its lines so far.
#[derive(Clone, Copy)]
pub struct Reading {
    /// What comes next: a word of the table.
    pub place: &'static str,
    /// The settings that other lines depend on.
    pub limits: Limits,
    /// Whether the line of atomics was read.
    pub atomics: bool,
    /// Whether the line of collectives was read.
    pub collect: bool,
    /// The outputs of nodes that were read behind the job.
    pub outputs: u64,
    /// The lines of the next output that were read.
    pub lines: u64,
}

impl Reading {
    /// Before the first line.
    pub fn new() -> Reading {
        Reading {
            place: "head0",
            limits: NO_LIMITS,
            atomics: false,
            collect: false,
            outputs: 0,
            lines: 0,
        }
    }

    /// Keeps a number of the head.
    fn keep(&mut self, word: &str) {
        match self.place.as_bytes().last() {
            Some(b'0') => self.limits.version = number(word),
            Some(b'2') => self.limits.nodes = number(word),
            Some(b'4') => self.limits.threads = number(word),
            _ => {}
        }
    }

    /// Goes on behind a good line.
    pub fn pass(&mut self, line: &str) {
        let (name, others) = line.split_once(' ').unwrap_or((line, ""));
        self.keep(others);
        if name == "atomics" {
            self.atomics = true;
        }
        if name == "collect" {
            self.collect = true;
        }
        if self.place != "behind" {
            self.place = row(PLACES, self.place, "", name);
        } else if name == "status" {
            self.outputs = self.outputs.saturating_add(1);
            self.lines = 0;
        } else {
            self.lines = self.lines.saturating_add(1);
        }
    }

    /// Whether a form of this part is one of those that may come, here or else only in another job.
    pub fn has(&self, parts: &str, part: &str, here: bool) -> bool {
        if !fits(part, parts, self.limits) {
            return false;
        }
        if part == "batch" {
            return self.atomics == here;
        }
        if part == "collective" || part == "whole" {
            return self.collect == here;
        }
        here == (!part.starts_with('2') || self.limits.version == 2)
    }
}

/// The parts that may come at a place.
pub fn parts_at(place: &str) -> &'static str {
    row(PLACES, "comes", "", place)
}
