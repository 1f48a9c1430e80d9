//! The environment that the system tells.

ghost use Rattle.std.specs.Prelude.{◌≡◌, []};
ghost use Rattle.proc_linux.specs.HostTexts.{NamesHosts};

use cli_settings::{Environment, KeyFile, Refusal, set_value};
use proc_linux::Hosts;
use std::alloc::{AllocError, Global};
use std::env;
use std::fs::{self, File, OpenFile};
use std::io::Read;
use std::os::unix::fs::MetadataExt;
use std::rt::{Env, Files};

/// The environment that the system tells. What its variables and files have isn't known. Hosts are those of their text.
#[derive(Drop)]
pub struct SystemEnvironment<'a, R> {
    rt: &'a R,
}

impl<'a, R: Env + Files + AllocGlobal> SystemEnvironment<'a, R> {
    /// That of this handle.
    pub fn new(rt: &'a R) -> SystemEnvironment<'a, R> {
        SystemEnvironment { rt }
    }
}

impl<R: Env + Files + AllocGlobal> Environment for SystemEnvironment<'_, R> {
    type Hosts = Hosts;

    ghost sets = { λ _ _ _. Unit {0} };

    ghost lists = { λ _ _ _. Unit {0} };

    ghost guards = { λ _ _ _. Unit {0} };

    ghost names = { NamesHosts };

    ghost local = { λ hosts. hosts.addresses.items ≡ [] };

    fn value(&self, name: &str) -> Result<Option<String>, Refusal> {
        set_value(env::var(self.rt, name))
    }

    fn hosts_text(&self, path: &str) -> Option<String> {
        fs::read_to_string(self.rt, path).ok()
    }

    fn key_file(&self, path: &str) -> Option<KeyFile> {
        let mut file = File::open(self.rt, path).ok()?;
        let mode = file.metadata().ok()?.mode();
        let mut read = String::new(self.rt.alloc());
        let text = file.read_to_string(&mut read).ok().map(|_| read);
        Some(KeyFile { mode, text })
    }

    fn hosts_of(alloc: Global, text: &str) -> Result<Option<Hosts>, AllocError> {
        Hosts::of_text(alloc, text)
    }

    fn local_hosts(alloc: Global) -> Hosts {
        Hosts::local(alloc)
    }
}
