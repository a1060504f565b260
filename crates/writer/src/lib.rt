// Writes lines, of numbers, of one number and of an operation, and of them an answer text or a refusal text (the scope paper, 'The job
// text'), into a lent output. Each function writes from a place on, answers the place after what it wrote, and leaves every other byte
// as it was.
#![tactic(auto)]

ghost use Rattle.std.specs.Prelude.{[], ◌+◌, ◌*◌, ◌≤◌, length};
ghost use Rattle.definitions.specs.Text.{decimal, numbers, line, operation_key, name};
ghost use Rattle.writer.specs.Putting.{Put};
ghost use Rattle.writer.specs.Entries.{entry};
ghost use Rattle.writer.specs.Lines.{line_room};
ghost use Rattle.writer.specs.Answer.{Room, AnswerWritten};
ghost use Rattle.writer.specs.Refusal.{longest_refusal, RefusalWritten};

use definitions::Operation;

fn put_bytes(out: &mut [u8], at: usize, bytes: &[u8]) -> usize
    requires { at + length bytes.now ≤ length out.old }
    ensures { Put
        out.old at
        bytes.now (length bytes.now)
        out.new result }
{
    out[at..at + bytes.len()].copy_from_slice(bytes);
    at + bytes.len()
}

// A number in decimal: its tens, if it has any, and then its last digit.
fn put_number(out: &mut [u8], at: usize, x: u32) -> usize
    requires { at + 10 ≤ length out.old }
    ensures { Put out.old at (decimal x) 10 out.new result }
{
    if x < 10 {
        out[at] = (48 + x) as u8;
        return at + 1;
    }
    let next = put_number(out, at, x / 10);
    out[next] = (48 + x % 10) as u8;
    next + 1
}

// Entry k of a list, after a space if it is not the first.
fn put_entry(out: &mut [u8], at: usize, k: usize, x: u32) -> usize
    requires { at + 11 ≤ length out.old }
    ensures { Put out.old at (entry k x) 11 out.new result }
{
    let is_first = k == 0;
    if is_first {
        return put_number(out, at, x);
    }
    out[at] = b' ';
    put_number(out, at + 1, x)
}

// Numbers with one space between two.
fn put_numbers(out: &mut [u8], at: usize, list: &[u32]) -> usize
    requires { at + 11 * length list.now ≤ length out.old }
    ensures { Put
        out.old at
        (numbers list.now) (11 * length list.now)
        out.new result }
{
    let mut next = at;
    for (k, x) in list.iter().enumerate() {
        next = put_entry(out, next, k, *x);
    }
    next
}

// The line with a key and a list of numbers.
pub fn put_line(out: &mut [u8], at: usize, key: &[u8], list: &[u32]) -> usize
    requires { at + line_room key.now (11 * length list.now) ≤ length out.old }
    ensures { Put
        out.old at
        (line key.now (numbers list.now) []) (line_room key.now (11 * length list.now))
        out.new result }
{
    let first = put_bytes(out, at, key);
    let end = put_numbers(out, first, list);
    out[end] = b'\n';
    end + 1
}

// The line with a key and one number.
pub fn put_number_line(out: &mut [u8], at: usize, key: &[u8], x: u32) -> usize
    requires { at + line_room key.now 10 ≤ length out.old }
    ensures { Put
        out.old at
        (line key.now (decimal x) []) (line_room key.now 10)
        out.new result }
{
    let first = put_bytes(out, at, key);
    let last = put_number(out, first, x);
    out[last] = b'\n';
    last + 1
}

// The line of an operation.
pub fn put_operation_line(out: &mut [u8], at: usize, operation: Operation) -> usize
    requires { at + line_room operation_key 9 ≤ length out.old }
    ensures { Put
        out.old at
        (line operation_key (name operation) []) (line_room operation_key 9)
        out.new result }
{
    // by hand and not by Display: the clause says each line's bytes
    match operation {
        Operation::Expand => put_bytes(out, at, b"op=expand\n"),
        Operation::Adjoint => put_bytes(out, at, b"op=adjoint\n"),
        Operation::Decompose => put_bytes(out, at, b"op=decompose\n"),
        Operation::Moments => put_bytes(out, at, b"op=moments\n"),
        Operation::Norms => put_bytes(out, at, b"op=norms\n"),
    }
}

// The answer text at the front of the output, with its length as the answer. The output has at least 4,096 bytes and the list at
// most 255 numbers, which is what the text call hands out at most.
pub fn write_answer(out: &mut [u8], operation: Operation, list: &[u32]) -> usize
    requires { Room out.old list.now }
    ensures { AnswerWritten operation list.now result out.old out.new }
{
    let result = put_operation_line(out, 0, operation);
    put_line(out, result, b"out=", list)
}

// The refusal text at the front of the output, with its length as the answer. The output has room for that of any 32-bit number.
pub fn write_refusal(out: &mut [u8], number: u32) -> usize
    requires { longest_refusal ≤ length out.old }
    ensures { RefusalWritten number result out.old out.new }
{
    put_number_line(out, 0, b"refused=", number)
}
