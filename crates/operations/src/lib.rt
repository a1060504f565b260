// The operations of a job on lists, by the tree way, once the tests on sizes have passed: how many numbers each hands out, and the conversion
// with the tests that are left.
// m, a, b and c come apart, as the calls are lent them that they go on to. convert_parts has counts beside lists of fixed length: no heap.
#![tactic(auto)]

ghost use Rattle.std.specs.Prelude.{◌≡◌, ◌≤◌, length, take};
ghost use Rattle.definitions.specs.Answers.{answered};
ghost use Rattle.definitions.specs.Family.{family, ones};
ghost use Rattle.lists.specs.Lent.{lent};
ghost use Rattle.operations.specs.Results.{result_count};
ghost use Rattle.operations.specs.Lists.{Sized, Parts, ConvertedValues, ConvertedFront};

use definitions::{Operation, Refusal};

// How many numbers an operation hands out, on a family of that many rows.
// A job's operation comes from a text, so a match chooses, here and in convert_lists: one table each.
pub fn result_count(operation: Operation, rows: usize) -> usize
    requires { rows ≤ 127 }
    ensures { result ≡ result_count operation rows }
{
    match operation {
        Operation::Expand => rows + 1,
        Operation::Adjoint => rows + 1,
        Operation::Decompose => rows + 1,
        Operation::Moments => 2 * rows + 1,
        Operation::Norms => rows + 1,
    }
}

// The operation on lists whose sizes are in order, by the tree way: the tests on values are still to be made. Norms needs no working list,
// and it is left clear all the same.
fn convert_lists(
    operation: Operation,
    m: u32,
    a: &[u32],
    b: &[u32],
    c: &[u32],
    curve: &[u32],
    output: &mut [u32],
    work: &mut [u32],
) -> Result<(), Refusal>
    requires { Sized operation (family m a.now b.now c.now) curve.now (length output.old) (length work.old) }
    ensures { ConvertedValues operation (family m a.now b.now c.now) curve.now (answered result)
        output.old output.new work.old work.new }
{
    match operation {
        Operation::Expand => tree_calls::tree_expand(m, a, b, c, curve, output, work),
        Operation::Adjoint => tree_calls::tree_adjoint(m, a, b, c, curve, output, work),
        Operation::Decompose => tree_calls::tree_decompose(m, a, b, c, curve, output, work),
        Operation::Moments => tree_calls::moments(m, a, b, c, output, work),
        Operation::Norms => {
            plain_calls::norms(m, a, b, c, output)?;
            lists::clear(work);
            Ok(())
        }
    }
}

// The same on the fronts of longer lists.
pub fn convert_parts(
    operation: Operation,
    m: u32,
    a: &[u32],
    b: &[u32],
    c: &[u32],
    rows: usize,
    curve: &[u32],
    entries: usize,
    output: &mut [u32],
    count: usize,
    work: &mut [u32],
) -> Result<(), Refusal>
    requires { Parts operation m a.now b.now c.now rows curve.now entries output.old count (length work.old) }
    ensures { ConvertedFront operation (lent m rows a.now b.now c.now ones)
        (take entries curve.now) count (answered result)
        output.old output.new work.old work.new }
{
    convert_lists(
        operation,
        m,
        &a[0..rows],
        &b[0..rows],
        &c[0..rows],
        &curve[0..entries],
        &mut output[0..count],
        work,
    )
}
