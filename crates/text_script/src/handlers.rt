//! The handlers of a job.

ghost use Rattle.std.specs.Prelude.{◌≡◌, IfOk, List, None, Some, length, replicate, slice_get};
ghost use Rattle.text_job.specs.declared.job.HandlerText.{HandlerText};
ghost use Rattle.part_handlers.specs.Registered.{no_entries};
ghost use Rattle.text_script.specs.Bodies.{is_for_batches, is_for_collectives};
ghost use Rattle.text_script.specs.Registration.{JobHandlers, batch_entries, body_for, entries_first, entry_of};
ghost use Rattle.text_script.specs.Registration.{register, registry_of};
ghost use Rattle.text_script.specs.Places.{ArePlaced, AtRegistering, body_at, place_at, placing, register_turn};

use crate::body::do_all;
use node_atomics::{BATCH_HANDLER, BLOCK_HANDLER, entries, serve};
use part_collective_area::{entry, serve as serve_collective};
use part_handlers::{Cells, Entry, Handlers, Serves, Table, Token};
use part_segment::Segment;
use std::alloc::{AllocError, Global};
use std::marker::Model;
use text_job::{HandlerText, HandlerTexts};
use text_steps::Action;

/// The lowest index of a client's handler.
const LOWEST: u8 = 128;

/// How many indexes a client's handlers have.
const PLACES: usize = 128;

/// The index of the handler of collectives.
const COLLECTIVE_HANDLER: u8 = 254;

/// Which handlers of services a job has.
#[derive(Clone, Copy)]
pub(crate) struct Services {
    /// Those of batches of atomic operations.
    pub atomics: bool,
    /// That of collectives.
    pub collect: bool,
}

/// The handlers of a job, each with the actions of its body; those of batches of atomic operations and that of
/// collectives, where the job has them.
#[derive(Drop)]
pub struct ScriptHandlers {
    atomics: bool,
    collect: bool,
    texts: HandlerTexts,
    /// For each index from 128 to 255 the place among the texts of the one that is registered for it.
    places: Vec<Option<usize>>,
}

impl Model for ScriptHandlers {
    ghost use Rattle.text_script.specs.Places.{AreBodies};
    ghost use Rattle.text_script.specs.Registration.{JobHandlers};

    ghost Value = { JobHandlers };

    ghost view = { λ h. record { atomics = h.atomics; collect = h.collect; texts = h.texts } };

    ghost invariant = { λ h.
        AreBodies (record { atomics = h.atomics; collect = h.collect; texts = h.texts })
        h.places.items };
}

impl ScriptHandlers {
    /// These handlers, and the table in which they are registered: first those of batches, where the job has atomics,
    /// and that of collectives, where it has an area of them; then those with an index of their own, in order, and then
    /// those that ask for any. One whose index is refused isn't registered, and never runs.
    ///
    /// It is refused for want of memory alone.
    pub(crate) fn new(
        alloc: Global,
        services: Services,
        texts: HandlerTexts,
    ) -> Result<(ScriptHandlers, Table), AllocError>
        ensures handlers { IfOk result (λ made. made.0
            ≡ record { atomics = services.atomics; collect = services.collect; texts = texts }) }
        ensures table { let handlers : JobHandlers =
            record { atomics = services.atomics; collect = services.collect; texts = texts } in
            IfOk result (λ made. made.1 ≡ (registry_of handlers).table) }
    {
        let mut table = Table::new(alloc)?;
        let mut places = [None; PLACES];
        register_first(services, &mut table);
        register_all(services, texts.texts(), &mut table, &mut places);
        let places = Vec::from_array(alloc, places)?;
        let Services { atomics, collect } = services;
        Ok((
            ScriptHandlers {
                atomics,
                collect,
                texts,
                places,
            },
            table,
        ))
    }

    /// Whether the handler of this index is one of batches.
    fn is_for_batches(&self, index: u8) -> bool
        ensures { result ≡ is_for_batches self.now index }
    {
        self.atomics && (index == BATCH_HANDLER || index == BLOCK_HANDLER)
    }

    /// Whether the handler of this index is that of collectives.
    fn is_for_collectives(&self, index: u8) -> bool
        ensures { result ≡ is_for_collectives self.now index }
    {
        self.collect && index == COLLECTIVE_HANDLER
    }

    /// The actions of the handler of the job's own of this index; none where there is no such handler.
    fn actions(&self, index: u8) -> &[Action]
        ensures { result.now ≡ body_for self.now index }
    {
        actions_at(self.texts.texts(), place_for(&self.places, index))
    }
}

/// The place for this index.
fn place_for(places: &[Option<usize>], index: u8) -> Option<usize>
    requires { length places.now ≡ 128 }
    ensures { result ≡ place_at places.now index }
{
    if index < LOWEST {
        return None;
    }
    places[(index - LOWEST) as usize]
}

/// The actions of the handler at this place; none where no place is given.
fn actions_at(texts: &[HandlerText], place: Option<usize>) -> &[Action]
    ensures { result.now ≡ body_at texts.now place }
{
    let Some(place) = place else {
        return &[];
    };
    match texts.get(place) {
        Some(text) => text.body.actions(),
        None => &[],
    }
}

/// Registers both handlers of batches, where the job has atomics.
fn register_batches(atomics: bool, table: &mut Table)
    requires { table.old ≡ no_entries }
    ensures { table.new ≡ batch_entries atomics }
{
    if atomics {
        let entries = entries();
        let _ = table.register(entries[0]);
        let _ = table.register(entries[1]);
    }
}

/// Registers the handlers of the services that the job has.
fn register_first(services: Services, table: &mut Table)
    requires { table.old ≡ no_entries }
    ensures { table.new ≡ entries_first services.atomics services.collect }
{
    register_batches(services.atomics, table);
    if services.collect {
        let _ = table.register(entry());
    }
}

/// Registers all of the job's own in their turns: first those with an index of their own, and then those that ask for
/// any.
fn register_all(
    services: Services,
    texts: &[HandlerText],
    table: &mut Table,
    places: &mut [Option<usize>],
)
    requires table { table.old ≡ entries_first services.atomics services.collect }
    requires places { places.old ≡ replicate 128 None }
    ensures { ArePlaced texts.now (registry_of (record {
      atomics = services.atomics;
      collect = services.collect;
      texts = texts.now;
    })) table.new places.new }
{
    register_those(texts, false, table, places);
    register_those(texts, true, table, places);
}

/// Registers those that ask for any index, or the others, in order.
fn register_those(texts: &[HandlerText], any: bool, table: &mut Table, places: &mut [Option<usize>])
    requires { length places.old ≡ 128 }
    ensures at { AtRegistering texts.now (register_turn any texts.now)
        (placing table.old places.old) (placing table.new places.new) }
    ensures long { length places.new ≡ 128 }
{
    for (place, text) in texts.iter().enumerate() {
        if (text.index == 0) == any {
            register_one(text, place, table, places);
        }
    }
}

/// The entry that a handler asks for, with the locks that it lists.
fn entry_of(text: &HandlerText) -> Entry
    ensures { result ≡ entry_of text.now }
{
    Entry {
        index: text.index,
        serves: Serves::only(text.role),
        locks: text.locks.listed(),
    }
}

/// Registers the handler that stands at this place.
fn register_one(text: &HandlerText, place: usize, table: &mut Table, places: &mut [Option<usize>])
    requires { length places.old ≡ 128 }
    ensures at { (texts : List HandlerText) → slice_get texts place ≡ Some text.now
        → AtRegistering texts (λ registry. register registry text.now)
        (placing table.old places.old) (placing table.new places.new) }
    ensures long { length places.new ≡ 128 }
{
    if let Ok(index) = table.register(entry_of(text)) {
        places[(index - LOWEST) as usize] = Some(place);
    }
}

impl Handlers for ScriptHandlers {
    ghost use Rattle.text_script.specs.Bodies.{script_meaning};
    ghost use Rattle.text_script.specs.LawfulBodies.{lawful-script};

    ghost meaning = { script_meaning };

    ghost is_lawful = { lawful-script };

    fn run(&self, handler: u8, segment: &mut Segment, cells: &mut Cells, token: &mut Token<'_>) {
        if self.is_for_batches(handler) {
            serve(handler, segment, token);
        } else if self.is_for_collectives(handler) {
            serve_collective(segment, token);
        } else {
            do_all(self.actions(handler), segment, cells, token);
        }
    }
}
