// Answers each line of standard input by one line, as it comes: a list in the order that the line asks for, or `refused=` and a number. The
// input may have any length, and its lines too: 4,096 bytes of it are held, and 8,193 of an open line. The lines that end in what a read brings
// are answered before the next read.
// What cannot be read or written is said on standard error, and the program ends with 1. Where nobody reads its output any more, it ends as by
// the signal for that, with 141, and says nothing. In either case the line that is open and those after it have no answer, and the last answer
// that was written may be a part of one. Where it ends with 0, every line was answered.
// A proved loop has to end, and nothing that is known of a read says that an input does. So the loop over the reads has as many turns as no run
// uses up: each brings a byte at least, or is the last.
#![tactic(auto)]

ghost use Rattle.std.specs.Prelude.{◌≡◌, ◌<◌, ◌≤◌, length, take};
ghost use Rattle.lines.specs.Determining.{Unbroken};
ghost use Rattle.lines.specs.Pieces.{ended};
ghost use Rattle.store_lines.specs.Answering.{printed_lines};
ghost use Rattle.storing.specs.Printing.{printed_line};
ghost use Rattle.store.specs.Keeping.{LeftOpen};

use std::io;
use std::io::{Error, Read};
use std::process::ExitCode;

// Why a line has no answer.
#[derive(Drop)]
enum Failure {
    Unread(Error),
    Unwritten(Error),
}

// Writes what is printed for the lines that end in a piece, which goes on with a line of which the first `count` of a list are kept, and nothing
// else.
fn print_lines(
    rt: &impl Print,
    piece: &[u8],
    before: &[u8],
    count: usize,
    bytes: &[u8],
) -> io::Result<()>
    requires { (length before.now ≡ 8193) × (count ≤ 8193) × Unbroken (take count before.now)
        × (bytes.now ≡ printed_lines (ended 8193 (take count before.now) piece.now)) }
{
    rt.write_all(bytes)
}

// Writes what is printed for a line without its byte 10, as the end of the input leaves one open, and nothing else.
fn print_last(rt: &impl Print, line: &[u8], bytes: &[u8]) -> io::Result<()>
    requires { (0 < length line.now) × (length line.now ≤ 8193) × Unbroken line.now × (bytes.now ≡ printed_line line.now) }
{
    rt.write_all(bytes)
}

// Answers the lines that end in a piece, which goes on with a line of which the first `count` of a list are kept; what is kept of the line that it
// leaves open takes their place, and how many bytes these are is the answer. `line` and `out` are lent to work in.
fn answer_piece(
    rt: &impl Print,
    piece: &[u8],
    before: &mut [u8],
    count: usize,
    line: &mut [u8],
    out: &mut [u8],
) -> io::Result<usize>
    requires { (length piece.now ≤ 4096) × (length before.old ≡ 8193) × (count ≤ 8193) × (length line.old ≡ 8193)
        × (length out.old ≡ 136588) × Unbroken (take count before.old) }
    ensures { LeftOpen piece.now before.old count before.new result }
{
    let progress = store_lines::answer_piece(piece, before, count, line, out, 0);
    let printed = progress.printed;
    print_lines(rt, piece, before, count, &out[..printed])?;
    let kept = progress.kept;
    store_lines::copy_bytes(line, kept, before);
    Ok(kept)
}

// Answers the line that the end of the input leaves open, the first `count` of a list.
fn answer_last(rt: &impl Print, list: &[u8], count: usize, out: &mut [u8]) -> io::Result<()>
    requires { (0 < count) × (count ≤ 8193) × (length list.now ≡ 8193) × (length out.old ≡ 136588) × Unbroken (take count list.now) }
{
    let line = &list[..count];
    let printed = store_lines::put_printed(line, out, 0);
    print_last(rt, line, &out[..printed])
}

fn answer_input<R: Read>(rt: &impl Print, reader: &mut R) -> Result<(), Failure> {
    let mut piece: [u8; 4096] = input::zeros();
    // one byte more than the longest line that is not refused with 1
    let mut before_space: [u8; 8193] = input::zeros();
    let before: &mut [u8] = &mut before_space;
    let mut line_space: [u8; 8193] = input::zeros();
    let line: &mut [u8] = &mut line_space;
    // room for the answers of the lines that end in 4,096 bytes, where 8,193 are kept of the first: eleven times these bytes, and 1,409 more
    let mut out_space: [u8; 136588] = input::zeros();
    let out: &mut [u8] = &mut out_space;
    let mut kept: usize = 0;
    for _ in 0..u64::MAX {
        let count = input::read_some(reader, &mut piece).map_err(Failure::Unread)?;
        if count == 0 {
            if kept == 0 {
                return Ok(());
            }
            return answer_last(rt, before, kept, out).map_err(Failure::Unwritten);
        }
        kept = answer_piece(rt, &piece[..count], before, kept, line, out).map_err(
            Failure::Unwritten,
        )?;
    }
    Err(Failure::Unread(Error::other("it does not end")))
}

fn main(rt: HostRuntime) -> ExitCode {
    match answer_input(&rt, &mut rt.stdin()) {
        Ok(()) => ExitCode::SUCCESS,
        Err(Failure::Unread(error)) => input::fail(&rt, "store", "read standard input", error),
        Err(Failure::Unwritten(error)) => input::unwritten(&rt, "store", error),
    }
}
