// The calls on job texts. The text call: a job text in, its answer text out; the lists are read by `form`, converted by `operations` and
// written by `writer`. And the call that writes a job text, by `job_text`. Nothing is written before every test has passed, and neither has
// a 'requires'.
// m, a, b and c come apart, as write_job is lent them, which README and docs/ name. Those of `answer`, of ten parameters, are arrays of fixed
// length with the counts of a text beside, since there is no heap.
#![tactic(auto)]

ghost use Rattle.std.specs.Prelude.{take};
ghost use Rattle.definitions.specs.Family.{ones};
ghost use Rattle.definitions.specs.TextCall.{TextConverted};
ghost use Rattle.definitions.specs.JobWriting.{written_job, JobWritten};
ghost use Rattle.lists.specs.Lent.{lent};
ghost use Rattle.job.specs.Replies.{Ready, Replied};

use definitions::{Operation, Refusal};
use form::JobForm;

// The answer text of an operation on the fronts of the lists, once its sizes are in order: the tests on values are still to be made.
fn answer(
    operation: Operation,
    modulus: u32,
    a: &[u32],
    b: &[u32],
    c: &[u32],
    rows: usize,
    curve: &[u32],
    entries: usize,
    output: &mut [u8],
    work: &mut [u32],
) -> Result<u32, Refusal>
    requires { Ready operation modulus a.now b.now c.now rows curve.now entries output.old work.old }
    ensures { Replied operation (lent modulus rows a.now b.now c.now ones) (take entries curve.now) result
        output.old output.new work.old work.new }
{
    let mut list = [0u32; 255];
    let count = operations::result_count(operation, rows);
    operations::convert_parts(
        operation, modulus, a, b, c, rows, curve, entries, &mut list, count, work,
    )?;
    Ok(writer::write_answer(output, operation, &list[0..count]) as u32)
}

// The text call: the answer text of a job text, and its length. After an accepted call the first 16,384 numbers of the working list
// are zero, whichever the operation.
// Refused with 1 and 2 (the sender of the text); with 3 to 6 (the same, or the station's program), 7: the output has less than 4,096
// bytes, and 8: the working list is too short (the station's program); with 9, 17, 10, 18 and 11 (the maker of the element); with 12
// (the sender of the curve).
pub fn convert_text(text: &[u8], output: &mut [u8], work: &mut [u32]) -> Result<u32, Refusal>
    ensures { TextConverted text.now result output.old output.new work.old work.new }
{
    checks::text_length(text.len())?;
    let mut xs = lists::zeros::<128>();
    let mut ys = lists::zeros::<128>();
    let mut zs = lists::zeros::<128>();
    let mut us = lists::zeros::<128>();
    let Some(
        JobForm {
            modulus,
            operation,
            a,
            b,
            c,
            curve,
        },
    ) = form::job_form(text, &mut xs, &mut ys, &mut zs, &mut us)
    else {
        return Err(Refusal::Malformed);
    };
    verdicts::sizes(modulus, operation, a, b, c, curve, output.len(), work.len())?;
    answer(
        operation, modulus, &xs, &ys, &zs, a, &us, curve, output, work,
    )
}

// Writes the text of a job from a modulus, the lists of a family, an operation and a curve, with the text's length as the answer: only a
// job that the text call carries out, in the one form that it takes. What the output holds past the text stays.
// Refused with 3 to 6 and 7: the output has less than 8,192 bytes (the station's program); with 9, 17, 10, 18 and 11 (the maker of the
// element); with 12 (the sender of the curve).
pub fn write_job(
    m: u32,
    a: &[u32],
    b: &[u32],
    c: &[u32],
    operation: Operation,
    curve: &[u32],
    output: &mut [u8],
) -> Result<u32, Refusal>
    ensures { JobWritten (written_job m a.now b.now c.now operation curve.now) result
        output.old output.new }
{
    verdicts::writing(m, a, b, c, operation, curve, output.len())?;
    Ok(job_text::write_text(output, m, a, b, c, operation, curve) as u32)
}
