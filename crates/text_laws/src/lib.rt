// The law over the two calls on job texts: what is written is carried out. Its function lends every list, makes the calls until one
// refuses, and promises on every input which refusal is given and what each list then holds, and that only an accepted job is written; on
// an accepted job and lists as long as the calls ask, that both finish and the law holds of the very bytes handed out. The promise stands
// in specs/Laws.antt. It is evidence and no library call.
// Each list is lent for itself, as the two calls ask.
#![tactic(auto)]

ghost use Rattle.definitions.specs.JobWriting.{written_job};
ghost use Rattle.text_laws.specs.Laws.{WrittenAndAnswered};

use definitions::{Operation, Refusal};

// Writes a job, and has the text call answer the bytes that were written.
fn write_and_answer(
    m: u32,
    a: &[u32],
    b: &[u32],
    c: &[u32],
    operation: Operation,
    curve: &[u32],
    text: &mut [u8],
    output: &mut [u8],
    work: &mut [u32],
) -> Result<u32, Refusal>
    ensures { WrittenAndAnswered (written_job m a.now b.now c.now operation curve.now)
        text.old output.old work.old result
        text.new output.new work.new }
{
    let end = job::write_job(m, a, b, c, operation, curve, text)? as usize;
    job::convert_text(&text[..end], output, work)
}
