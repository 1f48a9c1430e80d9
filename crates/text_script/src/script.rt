//! A job as it is run.

ghost use Rattle.std.specs.Prelude.{◌≡◌, IfOk, IfSome, length, slice_get, is_some};
ghost use Rattle.std.specs.Option.{option_map};
ghost use Rattle.part_collective_area.specs.Area.{IsArea};
ghost use Rattle.text_job.specs.JobReading.{lines_of};
ghost use Rattle.text_job.specs.JobText.{IsJob};
ghost use Rattle.text_script.specs.Registration.{handlers_of, registry_of};
ghost use Rattle.text_script.specs.ScriptInvariant.{IsWithin, MayCollect};

use crate::handlers::{ScriptHandlers, Services};
use part_handlers::Table;
use std::alloc::{AllocError, Global};
use std::marker::Model;
use text_job::{CollectArea, Job, NodeScript, NodeScripts, Schedule, SieveRule};
use text_steps::TimedEvent;
use wire_message::Settings;

/// A job whose handlers are registered.
#[derive(Drop)]
pub struct Script {
    settings: Settings,
    patience: u32,
    sieve: SieveRule,
    collect: Option<CollectArea>,
    handlers: ScriptHandlers,
    /// The table in which the handlers are registered.
    table: Table,
    scripts: NodeScripts,
    schedule: Option<Schedule>,
}

impl Model for Script {
    ghost use Rattle.text_job.specs.declared.job.Job.{Job as JobState};
    ghost use Rattle.text_script.specs.ScriptInvariant.{IsMade};

    ghost Value = { JobState };

    ghost view = { λ script. record {
      settings = script.settings;
      patience = script.patience;
      sieve = script.sieve;
      atomics = script.handlers.atomics;
      collect = script.collect;
      handlers = script.handlers.texts;
      scripts = script.scripts;
      schedule = script.schedule;
    } };

    ghost invariant = { λ script.
        IsMade script.settings script.collect script.handlers script.table script.schedule };
}

impl Script {
    /// The job, with its handlers registered.
    ///
    /// It is refused for want of memory alone.
    pub fn new(alloc: Global, job: Job) -> Result<Script, AllocError>
        requires { IsJob job }
        ensures { IfOk result (λ script. script ≡ job) }
    {
        let Job {
            settings,
            patience,
            sieve,
            atomics,
            collect,
            handlers,
            scripts,
            schedule,
        } = job;
        let services = Services {
            atomics,
            collect: collect.is_some(),
        };
        let (handlers, table) = ScriptHandlers::new(alloc, services, handlers)?;
        Ok(Script {
            settings,
            patience,
            sieve,
            collect,
            handlers,
            table,
            scripts,
            schedule,
        })
    }

    /// The settings of all nodes.
    pub fn settings(&self) -> &Settings
        ensures { result.now ≡ self.now.settings }
    {
        &self.settings
    }

    /// After how many quiet turns a node stops waiting.
    pub fn patience(&self) -> u32
        ensures { result ≡ self.now.patience }
    {
        self.patience
    }

    /// What a link's sieve does.
    pub fn sieve(&self) -> SieveRule
        ensures { result ≡ self.now.sieve }
    {
        self.sieve
    }

    /// Where the area of collectives begins in each segment, and the room for data of each of its parts, in bytes; none
    /// exactly where the job has no area of them. Each segment has the area.
    pub fn collect(&self) -> Option<(u64, u64)>
        ensures area { result ≡ option_map (λ area. (area.base, area.room)) self.now.collect }
        ensures inside { IfSome result (λ at. IsArea self.now.settings.segment
            (record { nodes = self.now.settings.nodes; base = at.0; room = at.1 })) }
    {
        match self.collect {
            Some(area) => Some((area.base, area.room)),
            None => None,
        }
    }

    /// The handlers.
    pub fn handlers(&self) -> &ScriptHandlers
        ensures { result.now ≡ handlers_of self.now }
    {
        &self.handlers
    }

    /// The table in which the handlers are registered.
    pub fn table(&self) -> &Table
        ensures { result.now ≡ (registry_of (handlers_of self.now)).table }
    {
        &self.table
    }

    /// The scripts of the nodes' threads, in the order in which they stand in the text.
    pub fn scripts(&self) -> &[NodeScript]
        ensures { result.now ≡ self.now.scripts }
    {
        self.scripts.scripts()
    }

    /// The number of lines of the schedule, 0 where there is none.
    pub fn lines(&self) -> usize
        ensures { result ≡ length (lines_of self.now.schedule) }
    {
        match &self.schedule {
            Some(schedule) => schedule.lines().len(),
            None => 0,
        }
    }

    /// What line `i` of the schedule asks for, if there is such a line.
    pub fn timed(&self, i: usize) -> Option<&TimedEvent>
        ensures line { option_map (λ e. e.now) result ≡ slice_get (lines_of self.now.schedule) i }
        ensures within { IfSome result (λ e. IsWithin self.now.settings e.now.event) }
        ensures collect { IfSome result (λ e. MayCollect self.now.collect e.now.event) }
    {
        line_at(&self.schedule, i)
    }
}

/// Line `i` of a schedule, if there is such a line.
fn line_at(schedule: &Option<Schedule>, i: usize) -> Option<&TimedEvent>
    ensures { option_map (λ e. e.now) result ≡ slice_get (lines_of schedule.now) i }
{
    match schedule {
        Some(schedule) => schedule.lines().get(i),
        None => None,
    }
}
