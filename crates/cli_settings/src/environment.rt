//! What the environment sets for a run of the program.

ghost use Rattle.std.specs.Prelude.{◌≡◌, Bool, IfErr, IfOk, List, ℕ, Ok, Option, Result, String, codes, string_bytes};
ghost use Rattle.std.specs.Global.{Global};
ghost use Rattle.std.specs.declared.alloc.AllocError.{AllocError};
ghost use Rattle.cli_settings.specs.Environment.{AreHosts, IsHosts, IsHostsFile, IsKey, IsKeyText, IsSecret, IsSetOne};
ghost use Rattle.cli_settings.specs.Environment.{RefusesHosts, RefusesHostsFile, RefusesHostsText, RefusesKey};
ghost use Rattle.cli_settings.specs.Environment.{RefusesKeyText, RefusesSecret, RefusesSettings};
ghost use Rattle.cli_settings.specs.declared.environment.KeyFile.{KeyFile};
ghost use Rattle.cli_settings.specs.declared.settings.Refusal.{Refusal};

use crate::settings::{Refusal, is_one, secret_of};
use std::alloc::{AllocError, Global};

/// The bits of a file's mode by which others than its owner may use it.
const OTHERS: u32 = 0o077;

/// A file of a key.
#[derive(Drop)]
pub struct KeyFile {
    /// The mode of the file, whose bits say who may use it.
    pub mode: u32,
    /// The text of the file, if it can be read.
    pub text: Option<String>,
}

/// The environment of the program: variables, and the files that they name.
pub trait Environment {
    /// What a variable was found to hold.
    ghost sets: { Self → List ℕ → Result (Option (String Global)) Refusal → Type 0 };
    /// What a file of hosts was found to have; none where it can't be read.
    ghost lists: { Self → List ℕ → Option (String Global) → Type 0 };
    /// What a file of a key was found to be; none where it can't be opened.
    ghost guards: { Self → List ℕ → Option KeyFile → Type 0 };
    /// The addresses of nodes.
    type Hosts: Drop;
    /// The hosts that a text was found to name; none where it is no list of addresses.
    ghost names: { List ℕ → Option Self.Hosts → Type 0 };
    /// The hosts of nodes that are all on this one.
    ghost local: { Self.Hosts → Type 0 };

    /// What a variable holds, if it is set.
    fn value(&self, name: &str) -> Result<Option<String>, Refusal>
        ensures { sets self.now name.now result };

    /// The text of a file of hosts.
    fn hosts_text(&self, path: &str) -> Option<String>
        ensures { lists self.now path.now result };

    /// The file of a key.
    fn key_file(&self, path: &str) -> Option<KeyFile>
        ensures { guards self.now path.now result };

    /// The hosts that a text names.
    fn hosts_of(alloc: Global, text: &str) -> Result<Option<Self::Hosts>, AllocError>
        ensures { IfOk result (names text.now) };

    /// The hosts of nodes that are all on this one.
    fn local_hosts(alloc: Global) -> Self::Hosts
        ensures { local result };
}

/// What the environment sets beside the hosts.
#[derive(Drop)]
pub struct SettingsTold {
    /// The bytes of the key of the job, by `GASNET_KEY_FILE`.
    pub secret: Option<[u8; 32]>,
    /// The program that `launch` starts for each node in place of itself, by `GASNET_AGENT`.
    pub agent: Option<String>,
    /// The folder where `launch` keeps the files of its nodes, by `GASNET_KEEP`.
    pub folder: Option<String>,
    /// Whether each step is told beside its answer, by `GASNET_STEPS`.
    pub steps: bool,
}

/// The text of the hosts by `GASNET_HOSTS_FILE`.
fn hosts_by_file<E: Environment>(from: &E) -> Result<Option<String>, Refusal>
    ensures told { IfOk result (IsHostsFile (E.sets from.now) (E.lists from.now)) }
    ensures refused { IfErr result (RefusesHostsFile (E.sets from.now) (E.lists from.now)) }
{
    let Some(path) = from.value("GASNET_HOSTS_FILE")? else {
        return Ok(None);
    };
    match from.hosts_text(path.as_str()) {
        Some(text) => Ok(Some(text)),
        None => Err(Refusal::NoHostsFile),
    }
}

/// The text of the hosts of the nodes by `GASNET_HOSTS`, else by `GASNET_HOSTS_FILE`, if one is set.
///
/// # Errors
///
/// A `Refusal` where one of these can't be used.
fn hosts_text<E: Environment>(from: &E) -> Result<Option<String>, Refusal>
    ensures told { IfOk result (IsHosts (E.sets from.now) (E.lists from.now)) }
    ensures refused { IfErr result (RefusesHostsText (E.sets from.now) (E.lists from.now)) }
{
    match from.value("GASNET_HOSTS")? {
        Some(text) => Ok(Some(text)),
        None => hosts_by_file(from),
    }
}

/// The hosts of the nodes: those that the environment names, else this one.
///
/// # Errors
///
/// A `Refusal` where a variable can't be used, the file can't be read, the text is no list of addresses, or memory ran
/// out for it.
pub fn hosts_told<E: Environment>(alloc: Global, from: &E) -> Result<E::Hosts, Refusal>
    ensures told { IfOk result (AreHosts (E.sets from.now) (E.lists from.now) E.names E.local) }
    ensures refused { IfErr result (RefusesHosts (E.sets from.now) (E.lists from.now) E.names) }
{
    let Some(text) = hosts_text(from)? else {
        return Ok(E::local_hosts(alloc));
    };
    match E::hosts_of(alloc, text.as_str())? {
        Some(hosts) => Ok(hosts),
        None => Err(Refusal::NoHosts),
    }
}

/// The text of the file of a key, which no other than its owner may use.
fn key_text<E: Environment>(from: &E, path: &str) -> Result<String, Refusal>
    ensures told { IfOk result (λ text. IsKeyText (E.guards from.now) path.now text) }
    ensures refused { IfErr result (RefusesKeyText (E.guards from.now) path.now) }
{
    let Some(file) = from.key_file(path) else {
        return Err(Refusal::NoKeyFile);
    };
    if file.mode & OTHERS != 0 {
        return Err(Refusal::OpenKeyFile);
    }
    match file.text {
        Some(text) => Ok(text),
        None => Err(Refusal::NoKeyFile),
    }
}

/// The bytes of the key in a file, whose text may have spaces at its ends.
fn secret_in<E: Environment>(from: &E, path: &str) -> Result<[u8; 32], Refusal>
    ensures told { IfOk result (IsKey (E.guards from.now) path.now) }
    ensures refused { IfErr result (RefusesKey (E.guards from.now) path.now) }
{
    let text = key_text(from, path)?;
    let secret = secret_of(text.as_str().trim())?;
    Ok(secret)
}

/// The bytes of the key in the file that `GASNET_KEY_FILE` names.
fn secret_told<E: Environment>(from: &E) -> Result<Option<[u8; 32]>, Refusal>
    ensures told { IfOk result (IsSecret (E.sets from.now) (E.guards from.now)) }
    ensures refused { IfErr result (RefusesSecret (E.sets from.now) (E.guards from.now)) }
{
    match from.value("GASNET_KEY_FILE")? {
        Some(path) => Ok(Some(secret_in(from, path.as_str())?)),
        None => Ok(None),
    }
}

/// What the environment sets beside the hosts.
///
/// # Errors
///
/// A `Refusal` for the first variable that can't be used, in the order of the fields.
pub fn settings_told<E: Environment>(from: &E) -> Result<SettingsTold, Refusal>
    ensures secret { IfOk result (λ told. IsSecret (E.sets from.now) (E.guards from.now)
        told.secret) }
    ensures agent { IfOk result (λ told. E.sets from.now (codes "GASNET_AGENT") (Ok told.agent)) }
    ensures folder { IfOk result (λ told. E.sets from.now (codes "GASNET_KEEP") (Ok told.folder)) }
    ensures steps { IfOk result (λ told. IsSetOne (E.sets from.now) told.steps) }
    ensures refused { IfErr result (RefusesSettings (E.sets from.now) (E.guards from.now)) }
{
    let secret = secret_told(from)?;
    let agent = from.value("GASNET_AGENT")?;
    let folder = from.value("GASNET_KEEP")?;
    let steps = is_one(&from.value("GASNET_STEPS")?);
    Ok(SettingsTold {
        secret,
        agent,
        folder,
        steps,
    })
}
