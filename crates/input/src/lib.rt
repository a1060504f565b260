// What the programs `store` and `channel` share: input that is read a part at a time, and how they end where it or the output fails.
#![tactic(auto)]

ghost use Rattle.std.specs.Prelude.{◌≡◌, ◌≢◌, length, replicate};
ghost use Rattle.std.specs.IoError.{error_kind};
ghost use Rattle.std.specs.Process.{exit_status};
ghost use Rattle.std.specs.declared.io.ErrorKind.TheVariants as kind;
ghost use Rattle.input.specs.Input.{Within};

use std::io;
use std::io::{Error, ErrorKind, Read};
use std::process::ExitCode;

// As many zeros as a list has places.
pub fn zeros<const N: usize>() -> [u8; N]
    ensures { result ≡ replicate N 0 }
{
    [0; N]
}

// One read, which may bring a part only, as from a pipe. Where there is room for a byte, 0 bytes are the end.
pub fn read_some<R: Read>(reader: &mut R, part: &mut [u8]) -> io::Result<usize>
    ensures { Within result (length part.new) }
{
    reader.read(part)
}

// The status where a program cannot do what it was to. Why is said on standard error; nothing is left to do where that fails too.
pub fn fail(rt: &impl Eprint, program: &str, what: &str, error: Error) -> ExitCode
    ensures { exit_status result ≡ 1 }
{
    let _ = eprintln!(rt; "{program}: cannot {what}: {error}");
    ExitCode::FAILURE
}

// The status where the output could not be written. Where nobody reads it any more the program ends as by the signal for that, 13, and says
// nothing: std holds the signal off, and the write fails.
pub fn unwritten(rt: &impl Eprint, program: &str, error: Error) -> ExitCode
    ensures unread { error_kind error ≡ kind.BrokenPipe → exit_status result ≡ 141 }
    ensures other { error_kind error ≢ kind.BrokenPipe → exit_status result ≡ 1 }
{
    let is_unread = error.kind() == ErrorKind::BrokenPipe;
    if is_unread {
        return ExitCode::from(141);
    }
    fail(rt, program, "write standard output", error)
}
