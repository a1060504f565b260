// The operations on a prepared family by the tree way, and Moments: the record stands in the place of m, a, b and c. Each makes every test
// itself, ends on every input, and either converts or refuses with the paper's number and touches nothing: none has a 'requires', and each
// has one 'ensures' that settles answer, output and working list on every input. No inverse is searched for.
// prepared_plain has functions of the same names: they are lent no working list, and make no test 8.
// Each check is taken apart by 'let .. else' before the next: the form that the scope paper names.
#![tactic(auto)]

ghost use Rattle.std.specs.Prelude.{◌≡◌, []};
ghost use Rattle.definitions.specs.Answers.{answered};
ghost use Rattle.definitions.specs.Conversion.{expand, adjoint, decompose};
ghost use Rattle.definitions.specs.PreparedCalls.{prepared_tree_tests, prepared_moments_tests, PreparedTreeCall, PreparedMomentsCall};
ghost use Rattle.definitions.specs.Refusals.{verdict};
ghost use Rattle.prepared.specs.Held.{held};

use definitions::Refusal;
use lists::Family;
use moment_way::Inverted;
use prepared::Prepared;
use tree::{Adjoining, Conversion, Expanding};

// 14, 6, 7, 8 and 12.
fn tree_verdict(family: &Prepared, curve: &[u32], output: usize, work: usize) -> Result<(), Refusal>
    ensures { answered result ≡ verdict (prepared_tree_tests (held family.now) curve.now output work) [] }
{
    let right = family.right();
    let Ok(()) = right else {
        return right;
    };
    let n = family.rows as usize + 1;
    let entries = checks::curve_length(n, curve.len());
    let Ok(()) = entries else {
        return entries;
    };
    let place = checks::output_length(n, output);
    let Ok(()) = place else {
        return place;
    };
    let room = checks::work_length(work);
    let Ok(()) = room else {
        return room;
    };
    checks::curve_entries(family.modulus, curve)
}

// 14, 7 and 8.
fn moments_verdict(family: &Prepared, output: usize, work: usize) -> Result<(), Refusal>
    ensures { answered result ≡ verdict (prepared_moments_tests (held family.now) output work) [] }
{
    let right = family.right();
    let Ok(()) = right else {
        return right;
    };
    let place = checks::output_length(2 * (family.rows as usize) + 1, output);
    let Ok(()) = place else {
        return place;
    };
    checks::work_length(work)
}

// A conversion by the tree on a record: its tests, and then its core, lent the rows.
fn call<C: Conversion>(
    family: Prepared,
    curve: &[u32],
    output: &mut [u32],
    work: &mut [u32],
) -> Result<(), Refusal>
    ensures { PreparedTreeCall C.converted (held family) curve.now (answered result)
        output.old output.new work.old work.new }
{
    tree_verdict(&family, curve, output.len(), work.len())?;
    let rows = family.rows as usize;
    let lent = Family {
        modulus: family.modulus,
        a: &family.a[..rows],
        b: &family.b[..rows],
        c: &family.c[..rows],
    };
    C::convert_front(&lent, curve, output, work);
    Ok(())
}

// Expand by the subproduct tree. After an accepted call the first 16,384 numbers of the working list are zero. Refused with 14: the record
// is not right; with 6 to 8: curve or output is not n long, or the working list too short; with 12: a curve entry is not below m.
pub fn tree_expand(
    family: Prepared,
    curve: &[u32],
    output: &mut [u32],
    work: &mut [u32],
) -> Result<(), Refusal>
    ensures { PreparedTreeCall expand (held family) curve.now (answered result)
        output.old output.new work.old work.new }
{
    call::<Expanding>(family, curve, output, work)
}

// Adjoint by the subproduct tree. The working list and the refusals are as for tree_expand.
pub fn tree_adjoint(
    family: Prepared,
    curve: &[u32],
    output: &mut [u32],
    work: &mut [u32],
) -> Result<(), Refusal>
    ensures { PreparedTreeCall adjoint (held family) curve.now (answered result)
        output.old output.new work.old work.new }
{
    call::<Adjoining>(family, curve, output, work)
}

// Decompose by the moments and the subproduct tree, by the stored inverses. The working list and the refusals are as for tree_expand, with
// the coefficients in the curve's place.
pub fn tree_decompose(
    family: Prepared,
    coefficients: &[u32],
    output: &mut [u32],
    work: &mut [u32],
) -> Result<(), Refusal>
    ensures { PreparedTreeCall decompose (held family) coefficients.now (answered result)
        output.old output.new work.old work.new }
{
    tree_verdict(&family, coefficients, output.len(), work.len())?;
    let rows = family.rows as usize;
    let lent = Family {
        modulus: family.modulus,
        a: &family.a[..rows],
        b: &family.b[..rows],
        c: &family.c[..rows],
    };
    let inverted = Inverted::by_ones(lent, &family.a_inverses);
    moment_way::decompose(&inverted, &family.c_inverses, 1, coefficients, output, work);
    Ok(())
}

// Moments, by the stored inverses of the a. The working list is as for tree_expand. Refused with 14: the record is not right; with 7 and 8:
// the output is not 2n - 1 long, or the working list too short.
pub fn moments(family: Prepared, output: &mut [u32], work: &mut [u32]) -> Result<(), Refusal>
    ensures { PreparedMomentsCall (held family) (answered result)
        output.old output.new work.old work.new }
{
    moments_verdict(&family, output.len(), work.len())?;
    let rows = family.rows as usize;
    let lent = Family {
        modulus: family.modulus,
        a: &family.a[..rows],
        b: &family.b[..rows],
        c: &family.c[..rows],
    };
    let inverted = Inverted::by_ones(lent, &family.a_inverses);
    moment_way::moments(&inverted, output, work);
    Ok(())
}
