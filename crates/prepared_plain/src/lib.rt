// The operations on a prepared family by the plain way, and Norms: the record stands in the place of m, a, b and c. Each makes every test
// itself, ends on every input, and either converts or refuses with the paper's number and touches nothing: none has a 'requires', and each
// has one 'ensures' that settles answer and output on every input. No inverse is searched for.
// prepared_tree has functions of the same names: they are lent a working list, make test 8, and promise that the list is cleared.
// Each check is taken apart by 'let .. else' before the next: the form that the scope paper names.
#![tactic(auto)]

ghost use Rattle.std.specs.Prelude.{◌≡◌, []};
ghost use Rattle.definitions.specs.Answers.{answered};
ghost use Rattle.definitions.specs.Conversion.{expand, adjoint, decompose};
ghost use Rattle.definitions.specs.PreparedCalls.{prepared_plain_tests, prepared_norms_tests, PreparedPlainCall, PreparedNormsCall};
ghost use Rattle.definitions.specs.Refusals.{verdict};
ghost use Rattle.prepared.specs.Held.{held};

use definitions::Refusal;
use lists::Family;
use plain::{Adjoining, Conversion, Expanding};
use prepared::Prepared;

// 14, 6, 7 and 12.
fn plain_verdict(family: &Prepared, curve: &[u32], output: usize) -> Result<(), Refusal>
    ensures { answered result ≡ verdict (prepared_plain_tests (held family.now) curve.now output) [] }
{
    let right = family.right();
    let Ok(()) = right else {
        return right;
    };
    let n = family.rows as usize + 1;
    let entries = checks::curve_length(n, curve.len());
    let Ok(()) = entries else {
        return entries;
    };
    let place = checks::output_length(n, output);
    let Ok(()) = place else {
        return place;
    };
    checks::curve_entries(family.modulus, curve)
}

// 14 and 7.
fn norms_verdict(family: &Prepared, output: usize) -> Result<(), Refusal>
    ensures { answered result ≡ verdict (prepared_norms_tests (held family.now) output) [] }
{
    let right = family.right();
    let Ok(()) = right else {
        return right;
    };
    checks::output_length(family.rows as usize + 1, output)
}

// A conversion by the plain way on a record: its tests, and then its core, lent the rows.
fn call<C: Conversion>(family: Prepared, curve: &[u32], output: &mut [u32]) -> Result<(), Refusal>
    ensures { PreparedPlainCall C.converted (held family) curve.now (answered result)
        output.old output.new }
{
    plain_verdict(&family, curve, output.len())?;
    let rows = family.rows as usize;
    let lent = Family {
        modulus: family.modulus,
        a: &family.a[..rows],
        b: &family.b[..rows],
        c: &family.c[..rows],
    };
    C::convert_front(&lent, curve, output);
    Ok(())
}

// Expand, row by row. Refused with 14: the record is not right; with 6 and 7: curve or output is not n long; with 12: a curve entry is not
// below m.
pub fn plain_expand(family: Prepared, curve: &[u32], output: &mut [u32]) -> Result<(), Refusal>
    ensures { PreparedPlainCall expand (held family) curve.now (answered result)
        output.old output.new }
{
    call::<Expanding>(family, curve, output)
}

// Adjoint, row by row. Refused as plain_expand is.
pub fn plain_adjoint(family: Prepared, curve: &[u32], output: &mut [u32]) -> Result<(), Refusal>
    ensures { PreparedPlainCall adjoint (held family) curve.now (answered result)
        output.old output.new }
{
    call::<Adjoining>(family, curve, output)
}

// Decompose, from the top power, by the stored inverses of the a. Refused as plain_expand is, with the coefficients in the curve's place.
pub fn plain_decompose(
    family: Prepared,
    coefficients: &[u32],
    output: &mut [u32],
) -> Result<(), Refusal>
    ensures { PreparedPlainCall decompose (held family) coefficients.now (answered result)
        output.old output.new }
{
    plain_verdict(&family, coefficients, output.len())?;
    let rows = family.rows as usize;
    let inverted = Family {
        modulus: family.modulus,
        a: &family.a_inverses[..rows],
        b: &family.b[..rows],
        c: &family.c[..rows],
    };
    plain::decompose(&inverted, coefficients, output);
    Ok(())
}

// Norms: those that are stored. Refused with 14: the record is not right; with 7: the output is not n long.
pub fn norms(family: Prepared, output: &mut [u32]) -> Result<(), Refusal>
    ensures { PreparedNormsCall (held family) (answered result) output.old output.new }
{
    norms_verdict(&family, output.len())?;
    lists::copy(&family.norms, family.rows as usize + 1, output);
    Ok(())
}
