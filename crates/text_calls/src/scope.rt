//! What the lines of a job are read by, beside their own words.

ghost use Rattle.std.specs.Prelude.{◌≡◌};
ghost use Rattle.text_calls.specs.Versions.{is_second};

use wire_message::Settings;

/// What the lines before one say that decides what it may say.
#[derive(Clone, Copy)]
pub struct Scope {
    /// The numbers that all nodes know.
    pub settings: Settings,
    /// Whether the nodes serve batches of remote atomics.
    pub atomics: bool,
    /// Whether they run collectives.
    pub collect: bool,
}

/// Whether the datagrams have the second version.
pub fn is_second(scope: &Scope) -> bool
    ensures { result ≡ is_second scope.now }
{
    scope.settings.version() == 2
}
