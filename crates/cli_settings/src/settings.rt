//! What the environment sets, by what the system tells of it.

ghost use Rattle.std.specs.Prelude.{◌≡◌, IfErr, IfOk, Ok, is_ok};
ghost use Rattle.cli_settings.specs.declared.settings.Refusal.TheVariants.{NoKey};
ghost use Rattle.hex.specs.Hex.{decode_sized};
ghost use Rattle.cli_settings.specs.Settings.{IsValue, is_one, refusal_code, refusal_line, refusal_text};

use hex::FromHex;
use std::alloc::AllocError;
use std::env::VarError;

/// Why what the environment sets is refused.
#[derive(Clone, Copy)]
pub enum Refusal {
    /// A variable isn't UTF-8.
    NoText,
    /// The hosts are no list of addresses.
    NoHosts,
    /// The file of the hosts can't be read.
    NoHostsFile,
    /// The file of the key can't be read.
    NoKeyFile,
    /// Others than its owner may use the file of the key.
    OpenKeyFile,
    /// The file of the key has no key.
    NoKey,
    /// Memory ran out.
    NoMemory,
}

impl From<AllocError> for Refusal {
    ghost use Rattle.std.specs.Prelude.{◌≡◌};
    ghost use Rattle.cli_settings.specs.declared.settings.Refusal.TheVariants.{NoMemory};

    ghost from_gives = { λ _ why. why ≡ NoMemory };

    fn from(_: AllocError) -> Refusal {
        Refusal::NoMemory
    }
}

impl Refusal {
    /// What is told of it.
    #[tactic(auto, unfolding(crate::specs::Settings::refusal_text))]
    pub fn text(self) -> &'static str
        ensures { result.now ≡ refusal_text self }
    {
        match self {
            Refusal::NoText => "a variable GASNET_.. isn't UTF-8",
            Refusal::NoHosts =>
                "GASNET_HOSTS or GASNET_HOSTS_FILE has no list of IPv4 and IPv6 addresses",
            Refusal::NoHostsFile => "the file of GASNET_HOSTS_FILE can't be read",
            Refusal::NoKeyFile => "the file of GASNET_KEY_FILE can't be read",
            Refusal::OpenKeyFile => "others than its owner may use the file of GASNET_KEY_FILE",
            Refusal::NoKey => "the file of GASNET_KEY_FILE isn't 64 hexadecimal digits",
            Refusal::NoMemory => "memory ran out",
        }
    }

    /// The exit status of the program then.
    pub fn code(self) -> u8
        ensures { result ≡ refusal_code self }
    {
        match self {
            Refusal::NoMemory => 8,
            _ => 2,
        }
    }

    /// The status line then.
    pub fn line(self) -> &'static str
        ensures { result.now ≡ refusal_line self }
    {
        match self {
            Refusal::NoMemory => "status 8 no-memory",
            _ => "status 2 usage",
        }
    }
}

/// What a variable holds, if it is set.
///
/// # Errors
///
/// `NoText` where it is no text, `NoMemory` where memory ran out.
pub fn set_value(told: Result<String, VarError>) -> Result<Option<String>, Refusal>
    ensures { IsValue told result }
{
    match told {
        Ok(text) => Ok(Some(text)),
        Err(VarError::NotPresent) => Ok(None),
        Err(VarError::NotUnicode) => Err(Refusal::NoText),
        Err(VarError::OutOfMemory) => Err(Refusal::NoMemory),
    }
}

/// Whether a variable is 1.
pub fn is_one(value: &Option<String>) -> bool
    ensures { result ≡ is_one value.now }
{
    match value {
        Some(text) => text.as_str() == "1",
        None => false,
    }
}

/// The bytes of a key, by its 64 digits.
///
/// # Errors
///
/// `NoKey` where the text is none of 64 hexadecimal digits.
pub fn secret_of(text: &str) -> Result<[u8; 32], Refusal>
    ensures read { IfOk result (λ secret. decode_sized text.now 32 ≡ Ok secret) }
    ensures refused { IfErr result (λ why. why ≡ NoKey) }
    ensures only { is_ok result ≡ is_ok (decode_sized text.now 32) }
{
    match <[u8; 32] as FromHex>::from_hex(text) {
        Ok(secret) => Ok(secret),
        Err(_) => Err(Refusal::NoKey),
    }
}
