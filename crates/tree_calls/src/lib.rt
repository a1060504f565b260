// The public calls by the tree way, and Moments. Each makes every test itself, ends on every input, and either converts or refuses with the scope
// paper's number and touches nothing: none has a 'requires', and each has one 'ensures' that settles answer, output and working list on every input.
// m, a, b and c come apart, and lists as `&[u32]`: the form that the scope paper names, of calls that README and docs/ name.
#![tactic(auto)]

ghost use Rattle.definitions.specs.Answers.{answered, TreeCall, MomentsCall};
ghost use Rattle.definitions.specs.Conversion.{expand, adjoint, decompose};
ghost use Rattle.definitions.specs.Family.{family};

use definitions::Refusal;
use lists::{Family, zeros};
use moment_way::Inverted;
use tree::{Adjoining, Conversion, Expanding};

// A conversion by the tree: its tests, and then its core.
// plain_calls has one of its own: it is lent no working list, and makes no test 8.
fn call<C: Conversion>(
    m: u32,
    a: &[u32],
    b: &[u32],
    c: &[u32],
    curve: &[u32],
    output: &mut [u32],
    work: &mut [u32],
) -> Result<(), Refusal>
    ensures { TreeCall C.converted (family m a.now b.now c.now) curve.now (answered result)
        output.old output.new work.old work.new }
{
    verdicts::tree(m, a, b, c, curve, output.len(), work.len())?;
    let family = Family {
        modulus: m,
        a,
        b,
        c,
    };
    C::convert_front(&family, curve, output, work);
    Ok(())
}

// Expand by the subproduct tree (Figure 1 of the report): the same list as plain_expand's. After an accepted call the first 16,384
// numbers of the working list are zero. Refused as plain_expand is, and with 8: the working list is too short.
pub fn tree_expand(
    m: u32,
    a: &[u32],
    b: &[u32],
    c: &[u32],
    curve: &[u32],
    output: &mut [u32],
    work: &mut [u32],
) -> Result<(), Refusal>
    ensures { TreeCall expand (family m a.now b.now c.now) curve.now (answered result)
        output.old output.new work.old work.new }
{
    call::<Expanding>(m, a, b, c, curve, output, work)
}

// Adjoint by the subproduct tree (Figure 2 of the report): the same list as plain_adjoint's. The working list and the refusals are as
// for tree_expand.
pub fn tree_adjoint(
    m: u32,
    a: &[u32],
    b: &[u32],
    c: &[u32],
    curve: &[u32],
    output: &mut [u32],
    work: &mut [u32],
) -> Result<(), Refusal>
    ensures { TreeCall adjoint (family m a.now b.now c.now) curve.now (answered result)
        output.old output.new work.old work.new }
{
    call::<Adjoining>(m, a, b, c, curve, output, work)
}

// Decompose by the moments and the subproduct tree (Figure 3 of the report): the same list as plain_decompose's. The working list
// and the refusals are as for tree_expand.
pub fn tree_decompose(
    m: u32,
    a: &[u32],
    b: &[u32],
    c: &[u32],
    coefficients: &[u32],
    output: &mut [u32],
    work: &mut [u32],
) -> Result<(), Refusal>
    ensures { TreeCall decompose (family m a.now b.now c.now) coefficients.now (answered result)
        output.old output.new work.old work.new }
{
    verdicts::tree(m, a, b, c, coefficients, output.len(), work.len())?;
    let rows = a.len();
    let mut a_inverses = zeros::<128>();
    inverses::of_list(m, a, 0, rows, &mut a_inverses);
    let mut c_inverses = zeros::<128>();
    inverses::of_list(m, c, 1, rows, &mut c_inverses);
    let family = Family {
        modulus: m,
        a,
        b,
        c,
    };
    let inverted = Inverted::by_ones(family, &a_inverses);
    moment_way::decompose(&inverted, &c_inverses, 1, coefficients, output, work);
    Ok(())
}

// Moments: the 2n - 1 first coefficients of rev(G_{n-1}, n) / rev(F_n, n + 1), with the closing row 1 1 1 as row n. The working list is
// as for tree_expand.
// Refused with 3, 4, 5, 7 and 8 (the station's program), and with 9, 17, 10, 18 and 11 (the maker of the element).
pub fn moments(
    m: u32,
    a: &[u32],
    b: &[u32],
    c: &[u32],
    output: &mut [u32],
    work: &mut [u32],
) -> Result<(), Refusal>
    ensures { MomentsCall (family m a.now b.now c.now) (answered result)
        output.old output.new work.old work.new }
{
    verdicts::moments(m, a, b, c, output.len(), work.len())?;
    let mut a_inverses = zeros::<128>();
    inverses::of_list(m, a, 0, a.len(), &mut a_inverses);
    let family = Family {
        modulus: m,
        a,
        b,
        c,
    };
    let inverted = Inverted::by_ones(family, &a_inverses);
    moment_way::moments(&inverted, output, work);
    Ok(())
}
