//! The beginning of a plan's pieces.

ghost use Rattle.std.specs.Prelude.{◌≡◌, ◌<◌, ◌≤◌, IfSome, length, unwrap_or};
ghost use Rattle.node_endpoint.specs.Sites.{IsThere};
ghost use Rattle.node_vis.specs.Beginning.{is_refused, vis_by, vis_of};
ghost use Rattle.node_vis.specs.Begins.{Begins};
ghost use Rattle.node_vis.specs.Opening.{Closes, IsAlone, Opens, TriesPlan};
ghost use Rattle.node_vis.specs.declared.shapes.Vis.{Vis as AVis};

use crate::plan::Plan;
use crate::shapes::Vis;
use node_endpoint::{Answer, Begun, Call, Caller, Region, make_call};

/// Memory ran out at a call.
#[derive(Clone, Copy)]
struct OutOfMemory;

impl Plan {
    /// Begins the pieces from `from` on, in one access region of the thread, and puts the region's handle into the
    /// register.
    ///
    /// It begins a region, then each piece as an implicit transfer, up to one that is refused for want of room,
    /// and ends the region. `Nested` and `Forbidden` come exactly where the region is refused so. `NoMemory`
    /// doesn't come: none of these calls is a request.
    pub fn begin<K: Caller>(&self, caller: &mut K, thread: u16, from: usize, reg: u8) -> Vis
        requires there { IsThere (K.site caller.old) }
        requires thread { thread < (K.site caller.old).settings.threads }
        requires from { from ≤ length self.now.pieces }
        requires settings { self.now.settings ≡ (K.site caller.old).settings }
        ensures begins { Begins K.Caller caller.old (record {
          plan = self.now;
          thread = thread;
          from = from;
          register = reg;
        }) result caller.new }
        ensures same_reference { K.lent caller.new ≡ K.lent caller.old }
        ensures same_site { K.site caller.new ≡ K.site caller.old }
    {
        self.begin_in_region(caller, thread, from, reg)
    }

    /// The beginning as the record of the calls that it makes tells it.
    fn begin_in_region<K: Caller>(&self, caller: &mut K, thread: u16, from: usize, reg: u8) -> Vis
        requires there { IsThere (K.site caller.old) }
        requires thread { thread < (K.site caller.old).settings.threads }
        requires from { from ≤ length self.now.pieces }
        requires settings { self.now.settings ≡ (K.site caller.old).settings }
        ensures { Begins K.Caller caller.old (record {
          plan = self.now;
          thread = thread;
          from = from;
          register = reg;
        }) result caller.new }
    {
        match begin_region(caller, thread) {
            Err(OutOfMemory) => return Vis::NoMemory,
            Ok(Some(why)) => return why,
            Ok(None) => {}
        }
        let Ok(refused) = self.begin_pieces(caller, thread, from) else {
            return Vis::NoMemory;
        };
        let Ok(()) = end_region(caller, thread, reg) else {
            return Vis::NoMemory;
        };
        answer_by(from, refused)
    }

    /// Begins the pieces from `from` on, up to one that is refused. Answers the place of that one.
    fn begin_pieces<K: Caller>(
        &self,
        caller: &mut K,
        thread: u16,
        from: usize,
    ) -> Result<Option<usize>, OutOfMemory>
        requires there { IsThere (K.site caller.old) }
        requires thread { thread < (K.site caller.old).settings.threads }
        requires from { from ≤ length self.now.pieces }
        ensures { TriesPlan K.Caller caller.old self.now thread from result caller.new }
    {
        for place in from..self.pieces() {
            let call = Call::BeginImplicit {
                transfer: self.transfer(place),
            };
            let Some(answer) = make_call(caller, thread, &call) else {
                return Err(OutOfMemory);
            };
            if is_refused(&answer) {
                return Ok(Some(place));
            }
        }
        Ok(None)
    }
}

/// The answer of a beginning, by the first piece that was refused.
fn answer_by(from: usize, refused: Option<usize>) -> Vis
    ensures { result ≡ vis_by from refused }
{
    match refused {
        None => Vis::Whole,
        Some(next) => {
            if next == from {
                Vis::TooMany
            } else {
                Vis::Part { next }
            }
        }
    }
}

/// Whether the beginning of a transfer was refused for want of room.
fn is_refused(answer: &Answer) -> bool
    ensures { result ≡ is_refused answer.now }
{
    match answer {
        Answer::Started(Begun::TooMany) => true,
        _ => false,
    }
}

/// The answer of a beginning whose region was refused.
fn refusal_of(answer: &Answer) -> Option<Vis>
    ensures answer { (other : AVis) → vis_of answer.now other ≡ unwrap_or result other }
    ensures alone { IfSome result IsAlone }
{
    match answer {
        Answer::Forbidden(why) => Some(Vis::Forbidden(*why)),
        Answer::Region(Region::Nested) => Some(Vis::Nested),
        _ => None,
    }
}

/// Begins a region. Answers how the whole is answered where that is refused.
fn begin_region<K: Caller>(caller: &mut K, thread: u16) -> Result<Option<Vis>, OutOfMemory>
    requires there { IsThere (K.site caller.old) }
    requires thread { thread < (K.site caller.old).settings.threads }
    ensures { Opens K.Caller caller.old thread result caller.new }
{
    let Some(answer) = make_call(caller, thread, &Call::RegionBegin) else {
        return Err(OutOfMemory);
    };
    Ok(refusal_of(&answer))
}

/// Ends the region, whose handle goes into the register.
fn end_region<K: Caller>(caller: &mut K, thread: u16, reg: u8) -> Result<(), OutOfMemory>
    requires there { IsThere (K.site caller.old) }
    requires thread { thread < (K.site caller.old).settings.threads }
    ensures { Closes K.Caller caller.old thread reg result caller.new }
{
    match make_call(caller, thread, &Call::RegionEnd { reg }) {
        None => Err(OutOfMemory),
        Some(_) => Ok(()),
    }
}
