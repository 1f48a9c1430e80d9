//! The last line of what a command wrote, and what it says.

ghost use Rattle.std.specs.Prelude.{◌≡◌, ◌≤◌};
ghost use Rattle.cli_report.specs.Status.{IsEnd, IsLastLine, IsStart, digit, ending_of, is_refusal};
ghost use Rattle.cli_report.specs.Status.{status_number, line_status};

/// How a run ended whose nodes' outputs are told of.
#[derive(Clone, Copy)]
pub(crate) enum Ending {
    /// It is one, and its lines were written.
    Run,
    /// The traces are no run.
    NoRun,
    /// A node failed, or couldn't be started.
    Failed,
}

/// How many bytes stand before the bytes 10 at the end.
fn line_end(bytes: &[u8]) -> usize
    ensures { IsEnd bytes.now result }
{
    let mut end = 0;
    for (place, byte) in bytes.iter().enumerate() {
        if *byte != b'\n' {
            end = place + 1;
        }
    }
    end
}

/// How many bytes there are up to the last byte 10.
fn line_start(bytes: &[u8]) -> usize
    ensures { IsStart bytes.now result }
{
    let mut start = 0;
    for (place, byte) in bytes.iter().enumerate() {
        if *byte == b'\n' {
            start = place + 1;
        }
    }
    start
}

/// The last line that isn't empty, without the byte that ends it.
pub(crate) fn last_line(bytes: &[u8]) -> &[u8]
    ensures { IsLastLine bytes.now result.now }
{
    let (prefix, _) = bytes.split_at(line_end(bytes));
    let (_, line) = prefix.split_at(line_start(prefix));
    line
}

/// The number that a digit makes behind so many tens. None where the byte is no digit.
fn digit(tens: u8, byte: u8) -> Option<u8>
    requires { tens ≤ 10 }
    ensures { result ≡ digit tens byte }
{
    if byte < b'0' || byte > b'9' {
        return None;
    }
    Some(tens + (byte - b'0'))
}

/// The number at the beginning of what stands behind `status `: a digit before a space, or a 1 and a
/// digit.
fn status_number(text: &[u8]) -> Option<u8>
    ensures { result ≡ status_number text.now }
{
    let (first, behind) = text.split_first()?;
    let (second, _) = behind.split_first()?;
    if *second == b' ' {
        return digit(0, *first);
    }
    if *first == b'1' {
        return digit(10, *second);
    }
    None
}

/// The status that a line tells. None where it is no status line.
#[tactic(auto, unfolding(crate::specs::Status::line_status))]
pub(crate) fn line_status(line: &[u8]) -> Option<u8>
    ensures { result ≡ line_status line.now }
{
    if !line.starts_with("status ".as_bytes()) {
        return None;
    }
    let (_, behind) = line.split_at(7);
    status_number(behind)
}

/// How a run with this status ended. None where there is nothing to tell of its nodes' outputs.
pub(crate) fn ending_of(status: Option<u8>) -> Option<Ending>
    ensures { result ≡ ending_of status }
{
    match status {
        Some(0) => Some(Ending::Run),
        Some(1) => Some(Ending::Run),
        Some(7) => Some(Ending::Failed),
        Some(11) => Some(Ending::NoRun),
        Some(12) => Some(Ending::Failed),
        _ => None,
    }
}

/// Whether words or a job are refused with this status.
pub(crate) fn is_refusal(status: Option<u8>) -> bool
    ensures { result ≡ is_refusal status }
{
    match status {
        Some(2) => true,
        Some(3) => true,
        _ => false,
    }
}
