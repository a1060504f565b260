// Reads one job text from standard input and prints its answer text, or `refused=`, the number and byte 10, by one write. It reads no
// further than the first byte that makes a text too long. What cannot be read or printed is said on standard error, and then standard
// output holds no answer or a part of one, and the program ends with 1. Where nobody reads its output any more, it ends as by the signal for
// that, with 141, and says nothing.
#![tactic(auto)]

ghost use Rattle.std.specs.Prelude.{◌≡◌, length};
ghost use Rattle.definitions.specs.Printing.{printed};
ghost use Rattle.input.specs.Input.{Within};

use std::io;
use std::io::Read;
use std::process::ExitCode;

// The input to its end, or until the list is full.
fn read_input<R: Read>(reader: &mut R, text: &mut [u8]) -> io::Result<usize>
    ensures { Within result (length text.new) }
{
    let mut count: usize = 0;
    // a while: a read says by how much its place goes on
    while count < text.len() {
        let more = input::read_some(reader, &mut text[count..])?;
        if more == 0 {
            return Ok(count);
        }
        count += more;
    }
    Ok(count)
}

// The only write to standard output: of what is printed for the text, and of nothing else.
fn print(rt: &impl Print, text: &[u8], bytes: &[u8]) -> io::Result<()>
    requires { bytes.now ≡ printed text.now }
{
    rt.write_all(bytes)
}

fn main(rt: HostRuntime) -> ExitCode {
    // one byte more than the longest text
    let mut text: [u8; 8193] = input::zeros();
    match read_input(&mut rt.stdin(), &mut text) {
        Err(error) => input::fail(&rt, "channel", "read standard input", error),
        Ok(count) => {
            let job = &text[0..count];
            let printout = printing::print_job(job);
            let bytes = printout.bytes;
            let end = printout.length;
            match print(&rt, job, &bytes[0..end]) {
                Ok(()) => ExitCode::SUCCESS,
                Err(error) => input::unwritten(&rt, "channel", error),
            }
        }
    }
}
