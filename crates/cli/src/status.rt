//! How a command ends: its exit status, and what it says of a failure.
ghost use Rattle.std.specs.Prelude.{◌≡◌, ◌++◌, codes};
ghost use Rattle.counted_devices.specs.DeviceStates.{states};
ghost use Rattle.counted_devices.specs.Sendings.{pieces_text};
ghost use Rattle.cli.specs.FailureLines.{failure_line, fault_line};
ghost use Rattle.cli.specs.Devices.{ReceivesOrFails};
ghost use Rattle.cli.specs.Statuses.{code_of, status_of, status_of_kind};

use counted_devices::{CountedWrite, FaultKind, FaultNumbers, ReadFault, write_pieces};
use fault_script::ScriptError;
use file_format::FileFault;
use itoa::Buffer;
use parallel_keys::CheckError;
use tag::Memory;
use thiserror::Error;

/// How a command ended.
#[derive(Clone, Copy, Debug, PartialEq, Eq)]
pub enum Status {
    /// All is as it should be: the verdict on each key is yes, a script was run, or help was asked for.
    Good,
    /// A key is refused.
    Refused,
    /// The words of the command line make no command.
    Usage,
    /// A file can't be opened, or isn't of its format.
    Format,
    /// Out of memory, a device that failed, or a thread that couldn't be started.
    Failed,
    /// No key is refused; whether one is atomic isn't decided.
    Undecided,
}

impl Status {
    /// The exit status of the program.
    pub fn code(self) -> u8
        ensures { result ≡ code_of self }
    {
        match self {
            Status::Good => 0,
            Status::Refused => 1,
            Status::Usage => 2,
            Status::Format => 3,
            Status::Failed => 4,
            Status::Undecided => 5,
        }
    }
}

/// Why a command ended before its time.
#[derive(Clone, Copy, Debug, PartialEq, Eq, Error)]
pub enum Failure<'a> {
    #[error("{name}: cannot open")]
    Closed { name: &'a str },
    #[error("{name}: {fault}")]
    File { name: &'a str, fault: FileFault },
    #[error("{name}: {error}")]
    Script { name: &'a str, error: ScriptError },
    #[error("output failed")]
    Output,
    #[error("no memory")]
    Memory,
    #[error("no thread")]
    Thread,
}

impl From<Memory> for Failure<'_> {
    ghost use Rattle.std.specs.Prelude.{◌≡◌};
    ghost use Rattle.cli.specs.declared.status.Failure.TheVariants.{Memory};

    ghost from_gives = { λ _ failure. failure ≡ Memory };

    fn from(_: Memory) -> Self {
        Failure::Memory
    }
}

impl From<CheckError> for Failure<'_> {
    ghost use Rattle.std.specs.Prelude.{◌≡◌};
    ghost use Rattle.cli.specs.FailureLines.{failure_of};

    ghost from_gives = { λ error failure. failure ≡ failure_of error };

    fn from(error: CheckError) -> Self {
        match error {
            CheckError::Memory => Failure::Memory,
            CheckError::Thread => Failure::Thread,
        }
    }
}

/// The status of a file or a script that couldn't be read.
fn kind_status<L: Copy>(kind: FaultKind<L>) -> Status
    ensures { result ≡ status_of_kind kind }
{
    match kind {
        FaultKind::Line(_) => Status::Format,
        FaultKind::Device | FaultKind::Memory => Status::Failed,
    }
}

/// Says the text that is given in these pieces. What the writer refuses is lost, as there is nowhere
/// else to say it.
pub fn say<E: CountedWrite>(pieces: &[&str], errors: &mut E)
    ensures { ReceivesOrFails (states E.contents E.failures errors.old errors.new) (pieces_text pieces.now) }
{
    let _ = write_pieces(pieces, errors);
}

/// Says at which line the reading of the file of that name ended, and with what fault, one line.
fn say_at<'a, E: CountedWrite>(
    name: &'a str,
    line: &'a str,
    title: &'a str,
    number: &'a str,
    text: &'a str,
    errors: &mut E,
)
    ensures { ReceivesOrFails (states E.contents E.failures errors.old errors.new)
        (codes "abd: " ++ name.now ++ codes ": line " ++ line.now ++ codes ": " ++ title.now
        ++ codes " " ++ number.now ++ codes " " ++ text.now ++ codes "\n") }
{
    let pieces = [
        "abd: ", name, ": line ", line, ": ", title, " ", number, " ", text, "\n",
    ];
    say(&pieces, errors);
}

/// Says with what fault the reading of the file of that name ended, one line.
fn say_fault<L: FaultNumbers, E: CountedWrite>(name: &str, fault: ReadFault<L>, errors: &mut E)
    ensures { ReceivesOrFails (states E.contents E.failures errors.old errors.new)
        (fault_line
        (record {
          number = L.number;
          text = L.text;
          title = L.title;
          device = L.DEVICE;
          memory = L.MEMORY;
        })
        name.now fault) }
{
    let (mut line, mut number) = (Buffer::new(), Buffer::new());
    say_at(
        name,
        line.format(fault.line),
        L::title(),
        number.format(fault.kind.number()),
        fault.kind.text(),
        errors,
    );
}

impl Failure<'_> {
    /// The status that the program ends with.
    pub fn status(self) -> Status
        ensures { result ≡ status_of self.entry }
    {
        match self {
            Failure::Closed { .. } => Status::Format,
            Failure::File { fault, .. } => kind_status(fault.kind),
            Failure::Script { error, .. } => kind_status(error.kind),
            Failure::Output | Failure::Memory | Failure::Thread => Status::Failed,
        }
    }

    /// Says it on the writer, one line, and answers its status. What the writer refuses is lost, as
    /// there is nowhere else to say it. It takes no memory.
    pub fn report<E: CountedWrite>(self, errors: &mut E) -> Status
        ensures status { result ≡ status_of self.entry }
        ensures told { ReceivesOrFails (states E.contents E.failures errors.old errors.new)
            (failure_line self.entry) }
    {
        match self {
            Failure::Closed { name } => say(&["abd: ", name, ": cannot open\n"], errors),
            Failure::File { name, fault } => say_fault(name, fault, errors),
            Failure::Script { name, error } => say_fault(name, error, errors),
            Failure::Output => say(&["abd: output failed\n"], errors),
            Failure::Memory => say(&["abd: no memory\n"], errors),
            Failure::Thread => say(&["abd: no thread\n"], errors),
        }
        self.status()
    }
}
