// The public call that expands a curve on two channels and joins: rows and curve are signed numbers, reduced modulo each. It makes every test
// itself, ends on every input, and either hands out the joined coefficients or refuses with the number of the change requests and touches nothing:
// it has no 'requires', and one 'ensures' that settles answer and output on every input.
// m1, m2, a, b and c come apart, as the call is lent them that README and docs/ name. sizes, column and rows are tests of its own: of two
// moduli, and of signed numbers.
// Each check is taken apart by 'let .. else' before the next: the form that the scope paper names.
#![tactic(auto)]

ghost use Rattle.std.specs.Prelude.{List, [], ◌++◌, ◌≡◌, ◌≤◌, ◌<◌, ℤ, length, drop};
ghost use Rattle.definitions.specs.Answers.{answered, number_of};
ghost use Rattle.definitions.specs.Family.{Modulus};
ghost use Rattle.definitions.specs.Refusals.{verdict};
ghost use Rattle.checks.specs.Columns.{column_tests};
ghost use Rattle.joining.specs.Expanding.{signed, reduced_list, reduced, reduced_expand};
ghost use Rattle.joining.specs.Calls.{size_tests, both_rows, ExpandJoinCall};
ghost use Rattle.expand_join.specs.Input.{Sized, ChannelInput};

use definitions::{FIRST_C, Refusal};
use lists::{Family, zeros};

// 4, 5, 6 and 7 of the lengths of the rows' lists, the curve and the output, where m has passed its test.
fn sizes(m: u32, a: usize, b: usize, c: usize, curve: usize, output: usize) -> Result<(), Refusal>
    requires { Modulus m }
    ensures { answered result ≡ verdict (size_tests a b c curve output) [] }
{
    let shape = checks::family_shape(m, a, b, c);
    let Ok(()) = shape else {
        return shape;
    };
    let entries = checks::curve_length(a + 1, curve);
    let Ok(()) = entries else {
        return entries;
    };
    checks::output_length(a + 1, output)
}

// The inverses modulo m of a column of signed rows from place first on, closed by 1: refused with the one number where the lowest without an
// inverse leaves zero, with the other where it does not.
fn column(m: u32, list: &[i32], first: usize, zero: Refusal, shared: Refusal) -> Result<(), Refusal>
    requires { (0 < m) × (length list.now ≤ 127) }
    ensures { answered result ≡ verdict
        (column_tests m first (length list.now) (reduced_list m list.now) 1 (number_of zero) (number_of shared)) [] }
{
    let mut x = zeros::<128>();
    join::reduce_list(m, list, &mut x);
    checks::column(m, &x, first, list.len(), 1, zero, shared)
}

// 17 and 10 modulo m1, then modulo m2; 18 and 11 modulo m1, then modulo m2: whatever the b.
fn rows(m1: u32, m2: u32, a: &[i32], c: &[i32]) -> Result<(), Refusal>
    requires { (0 < m1) × (0 < m2) × Sized (length a.now) (length c.now) }
    ensures { (b : List ℤ) → answered result ≡ verdict (both_rows (reduced m1 (signed a.now b c.now))
        (reduced m2 (signed a.now b c.now))) [] }
{
    let first_a = column(m1, a, 0, Refusal::ZeroA, Refusal::NoInverseA);
    let Ok(()) = first_a else {
        return first_a;
    };
    let second_a = column(m2, a, 0, Refusal::ZeroA, Refusal::NoInverseA);
    let Ok(()) = second_a else {
        return second_a;
    };
    let first_c = column(m1, c, FIRST_C, Refusal::ZeroC, Refusal::NoInverseC);
    let Ok(()) = first_c else {
        return first_c;
    };
    column(m2, c, FIRST_C, Refusal::ZeroC, Refusal::NoInverseC)
}

// All tests after those of the moduli: 4 5 6 7, and 17 10 17 10 18 11 18 11 of the rows.
fn tests(
    m1: u32,
    m2: u32,
    a: &[i32],
    b: &[i32],
    c: &[i32],
    curve: usize,
    output: usize,
) -> Result<(), Refusal>
    requires { Modulus m1 × Modulus m2 }
    ensures { answered result ≡ verdict
        (size_tests (length a.now) (length b.now) (length c.now) curve output
        ++ both_rows (reduced m1 (signed a.now b.now c.now))
        (reduced m2 (signed a.now b.now c.now))) [] }
{
    let sized = sizes(m1, a.len(), b.len(), c.len(), curve, output);
    let Ok(()) = sized else {
        return sized;
    };
    rows(m1, m2, a, c)
}

// Expand modulo m of the remainders of rows and curve, at the front of output.
fn expand_channel(m: u32, a: &[i32], b: &[i32], c: &[i32], curve: &[i32], output: &mut [u32])
    requires { ChannelInput m a.now b.now c.now curve.now (length output.old) }
    ensures { output.new
        ≡ reduced_expand m (signed a.now b.now c.now) curve.now
        ++ drop (length curve.now) output.old }
{
    let mut x = zeros::<128>();
    let mut y = zeros::<128>();
    let mut z = zeros::<128>();
    let mut u = zeros::<128>();
    join::reduce_list(m, a, &mut x);
    join::reduce_list(m, b, &mut y);
    join::reduce_list(m, c, &mut z);
    join::reduce_list(m, curve, &mut u);
    let rows = a.len();
    let family = Family {
        modulus: m,
        a: &x[..rows],
        b: &y[..rows],
        c: &z[..rows],
    };
    plain::expand(&family, &u, output);
}

// Expand and join, row by row on each channel: output[k] becomes the joined value of the coefficients of x^k modulo m1 and modulo m2. Where the
// coefficient over the whole numbers is in the range of the joined value, output[k] is that coefficient.
// Refused with 3, 19, 4, 5, 6 and 7: the moduli, the lists or their lengths are not in order (the station's program); with 17, 10, 18 and 11: an
// a, or a c from row 2 on, has no inverse modulo m1 or modulo m2, 17 and 18 where the lowest such row leaves zero (the maker of the element).
pub fn expand_join(
    m1: u32,
    m2: u32,
    a: &[i32],
    b: &[i32],
    c: &[i32],
    curve: &[i32],
    output: &mut [i64],
) -> Result<(), Refusal>
    ensures { ExpandJoinCall m1 m2 (signed a.now b.now c.now) curve.now (answered result)
        output.old output.new }
{
    let inverse = join_calls::moduli(m1, m2)?;
    tests(m1, m2, a, b, c, curve.len(), output.len())?;
    let mut x = zeros::<128>();
    let mut y = zeros::<128>();
    expand_channel(m1, a, b, c, curve, &mut x);
    expand_channel(m2, a, b, c, curve, &mut y);
    join::join_lists(m1, m2, inverse, &x, &y, output);
    Ok(())
}
