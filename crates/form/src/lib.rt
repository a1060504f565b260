// Reads the lines of a family and a whole job text (the scope paper, 'The job text'). Each list is put into a lent one while its line is
// checked, as far as it has room, and counted whole: so no number is read twice, and a list that is too long is refused by its count
// and not here. Every contract says what the reading of definitions answers.
#![tactic(auto)]

ghost use Rattle.std.specs.Prelude.{◌≤◌, length, drop};
ghost use Rattle.form.specs.FamilyLines.{read_rows, RowsRead, read_family, FamilyRead};
ghost use Rattle.form.specs.JobForm.{read_end, EndRead, Formed};

use definitions::Operation;
use reader::Read;

// How many numbers stand in each of the three lists of a family's rows.
#[derive(Clone, Copy, Debug, PartialEq, Eq)]
pub struct RowLines {
    pub a: usize,
    pub b: usize,
    pub c: usize,
}

// The modulus of a family, and how many numbers stand in each of its lists.
#[derive(Clone, Copy, Debug, PartialEq, Eq)]
pub struct FamilyLines {
    pub modulus: u32,
    pub rows: RowLines,
}

// The operation of a job and how many numbers its curve has.
#[derive(Drop)]
struct JobEnd {
    operation: Operation,
    curve: usize,
}

// What stands in a job text, each list by its count.
#[derive(Drop)]
pub struct JobForm {
    pub modulus: u32,
    pub operation: Operation,
    pub a: usize,
    pub b: usize,
    pub c: usize,
    pub curve: usize,
}

// The lines of a family's rows: its lists a, b and c, each put at the front of a lent one.
fn row_lines(
    text: &[u8],
    at: usize,
    a: &mut [u32],
    b: &mut [u32],
    c: &mut [u32],
) -> Option<Read<RowLines>>
    requires { at ≤ length text.now }
    ensures { RowsRead
        text.now (read_rows (drop at text.now))
        a.old a.new b.old b.new c.old c.new result }
{
    let a_line = reader::numbers_line(text, at, b"a=", a)?;
    let b_line = reader::numbers_line(text, a_line.next, b"b=", b)?;
    let c_line = reader::numbers_line(text, b_line.next, b"c=", c)?;
    Some(Read {
        value: RowLines {
            a: a_line.value,
            b: b_line.value,
            c: c_line.value,
        },
        next: c_line.next,
    })
}

// The lines of a family: its modulus and its rows.
pub fn family_lines(
    text: &[u8],
    at: usize,
    a: &mut [u32],
    b: &mut [u32],
    c: &mut [u32],
) -> Option<Read<FamilyLines>>
    requires { at ≤ length text.now }
    ensures { FamilyRead
        text.now (read_family (drop at text.now))
        a.old a.new b.old b.new c.old c.new result }
{
    let modulus = reader::number_line(text, at, b"mod=")?;
    let rows = row_lines(text, modulus.next, a, b, c)?;
    Some(Read {
        value: FamilyLines {
            modulus: modulus.value,
            rows: rows.value,
        },
        next: rows.next,
    })
}

// What follows the family in a job text: the lines of the operation and of the curve, and no more.
fn job_end(text: &[u8], at: usize, curve: &mut [u32]) -> Option<JobEnd>
    requires { at ≤ length text.now }
    ensures { EndRead (read_end (drop at text.now)) curve.old curve.new result }
{
    let operation = reader::operation_line(text, at)?;
    let entries = reader::numbers_line(text, operation.next, b"v=", curve)?;
    if entries.next != text.len() {
        return None;
    }
    Some(JobEnd {
        operation: operation.value,
        curve: entries.value,
    })
}

// The form of a whole text: the job that stands in it, its lists put at the front of the lent ones, or none, since it is malformed (refusal 2).
pub fn job_form(
    text: &[u8],
    a: &mut [u32],
    b: &mut [u32],
    c: &mut [u32],
    curve: &mut [u32],
) -> Option<JobForm>
    ensures { Formed
        text.now
        a.old a.new b.old b.new c.old c.new
        curve.old curve.new result }
{
    let family = family_lines(text, 0, a, b, c)?;
    let end = job_end(text, family.next, curve)?;
    let rows = family.value.rows;
    Some(JobForm {
        modulus: family.value.modulus,
        operation: end.operation,
        a: rows.a,
        b: rows.b,
        c: rows.c,
        curve: end.curve,
    })
}
