// Writes a job text (the scope paper, 'The job text') line by line into a lent output. Nothing is tested here: the lists are no longer
// than those of a family and its curve, and the output has room for them.
// The family's lists come apart, as write_job is lent them; a place in the output stands beside it, since Put (writer, Putting) is of the whole.
#![tactic(auto)]

ghost use Rattle.std.specs.Prelude.{[], ◌+◌, ◌≤◌, length};
ghost use Rattle.definitions.specs.JobWriting.{written_job};
ghost use Rattle.writer.specs.Putting.{Put};
ghost use Rattle.job_text.specs.Parts.{row_lines, rows_room, family_lines, family_room};
ghost use Rattle.job_text.specs.Parts.{request_lines, request_room, JobRoom, TextWritten};

use definitions::Operation;

// The lines of the rows: a, b and c.
fn put_rows(out: &mut [u8], at: usize, a: &[u32], b: &[u32], c: &[u32]) -> usize
    requires { at + rows_room a.now b.now c.now ≤ length out.old }
    ensures { Put
        out.old at
        (row_lines a.now b.now c.now []) (rows_room a.now b.now c.now)
        out.new result }
{
    let after_a = writer::put_line(out, at, b"a=", a);
    let after_b = writer::put_line(out, after_a, b"b=", b);
    writer::put_line(out, after_b, b"c=", c)
}

// The lines of a family: its modulus and its rows.
pub fn put_family(out: &mut [u8], at: usize, modulus: u32, a: &[u32], b: &[u32], c: &[u32]) -> usize
    requires { at + family_room a.now b.now c.now ≤ length out.old }
    ensures { Put
        out.old at
        (family_lines modulus a.now b.now c.now []) (family_room a.now b.now c.now)
        out.new result }
{
    let rows = writer::put_number_line(out, at, b"mod=", modulus);
    put_rows(out, rows, a, b, c)
}

// The lines of what is asked: the operation and the curve.
fn put_request(out: &mut [u8], at: usize, operation: Operation, curve: &[u32]) -> usize
    requires { at + request_room curve.now ≤ length out.old }
    ensures { Put
        out.old at
        (request_lines operation curve.now) (request_room curve.now)
        out.new result }
{
    let next = writer::put_operation_line(out, at, operation);
    writer::put_line(out, next, b"v=", curve)
}

// The job text at the front of the output, with its length as the answer.
pub fn write_text(
    out: &mut [u8],
    modulus: u32,
    a: &[u32],
    b: &[u32],
    c: &[u32],
    operation: Operation,
    curve: &[u32],
) -> usize
    requires { JobRoom out.old a.now b.now c.now curve.now }
    ensures { TextWritten
        (written_job modulus a.now b.now c.now operation curve.now) result
        out.old out.new }
{
    let request = put_family(out, 0, modulus, a, b, c);
    put_request(out, request, operation, curve)
}
