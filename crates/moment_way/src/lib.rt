// The moments, and Decompose by the moments, on input that is already checked. The tree gives F_n and G_{n-1}, Expand of 0 .. 0 1 over the
// rows with the closing row as one row more; the quotient of their reversals is the series of the moments. Decompose is by F^t H F = D with
// the Hankel matrix H of the moments and the norms D: u = D^-1 F^t H p, a Hankel product, Adjoint, and the norms (the report, Figure 3).
// The inverses are lent beside the rows, and none is searched for. Of n - 1 rows the first n coefficients take part, and of the output the first
// numbers are written, n or 2 n - 1: `moments` and `decompose` are lent lists of these lengths or longer, and what they call (`moments_whole`,
// `decompose_whole`) lists that are just as long.
#![tactic(auto)]

ghost use Rattle.std.specs.Prelude.{◌≡◌, ◌+◌, ◌*◌, ◌-◌, ◌≤◌, ◌<◌, length, take};
ghost use Rattle.definitions.specs.Answers.{cleared};
ghost use Rattle.definitions.specs.Conversion.{expand, decompose};
ghost use Rattle.definitions.specs.Family.{Curve, ones, rows, size};
ghost use Rattle.definitions.specs.Orthogonality.{moments};
ghost use Rattle.definitions.specs.Refusals.{work_length};
ghost use Rattle.tree_model.specs.Extended.{last_unit};
ghost use Rattle.numbers.specs.Lists.{filled};
ghost use Rattle.numbers.specs.RunningProduct.{running_product};
ghost use Rattle.lists.specs.Held.{Holds, Output};
ghost use Rattle.lists.specs.Inverses.{Inverts};
ghost use Rattle.theory.specs.Closing.{closed_by};
ghost use Rattle.moment_way.specs.Decompose.{DivideInput, divided};
ghost use Rattle.moment_way.specs.Input.{PolynomialsInput, Polynomials};
ghost use Rattle.moment_way.specs.Moments.{entry_or};
ghost use Rattle.moment_way.specs.Polynomials.{Extends};

use lists::{Family, clear, copy, row_entry, zeros};
use products::{transposed, used_length};
use reduction::Modulus;
use residue::negative;
use series::quotient;
use std::marker::Model;
use tree::{adjoint_whole, expand_whole};

// A row's three numbers.
#[derive(Clone, Copy)]
pub struct Row {
    pub a: u32,
    pub b: u32,
    pub c: u32,
}

// A family closed by a row of its own, with the inverses of its a: a_inverses[i] is that of a_{i+1}, and the closing row's stands beside.
#[derive(Drop)]
pub struct Inverted<'a> {
    pub family: Family<'a>,
    pub close: Row,
    pub a_inverses: &'a [u32],
    pub close_a_inverse: u32,
}

impl<'a> Model for Inverted<'a> {
    ghost use Rattle.definitions.specs.Family as F;
    ghost use Rattle.moment_way.specs.Input.{ClosedBy};
    ghost use Rattle.theory.specs.Closing.{closed_by};

    ghost Value = { F.Family };

    ghost view = { λ f. closed_by (F.row_of f.close.a f.close.b f.close.c) f.family };

    ghost invariant = { λ f. ClosedBy f.family (F.row_of f.close.a f.close.b f.close.c) f.a_inverses.now f.close_a_inverse };
}

impl<'a> Inverted<'a> {
    // Closed by 1 1 1.
    pub fn by_ones(family: Family<'a>, a_inverses: &'a [u32]) -> Self
        requires { Inverts family.m 0 (rows family) family.a a_inverses.now 1 1 }
        ensures { result ≡ closed_by ones family.entry }
    {
        Inverted {
            family,
            close: Row { a: 1, b: 1, c: 1 },
            a_inverses,
            close_a_inverse: 1,
        }
    }
}

// The entries of a list, and then one more.
fn extend(list: &[u32], last: u32) -> [u32; 128]
    requires { length list.now < 128 }
    ensures { Extends list.now (length list.now) last result }
{
    let count = list.len();
    let mut rows = zeros::<128>();
    copy(list, count, &mut rows);
    rows[count] = last;
    rows
}

// The coefficients of F_r of the r rows: Expand of 0 .. 0 1.
fn last_polynomial(family: &Family, output: &mut [u32], work: &mut [u32])
    requires few { rows family.now ≤ 128 }
    requires room { length output.old ≡ size family.now }
    requires work { work_length ≤ length work.old }
    ensures written { output.new ≡ expand family.now (last_unit (rows family.now)) }
    ensures wiped { work.new ≡ cleared work.old }
{
    let r = family.a.len();
    let mut curve = zeros::<255>();
    curve[r] = 1;
    expand_whole(family, &curve[..r + 1], output, work);
}

// The n + 1 coefficients of F_n and the n of G_{n-1}. The closing row is row n of both, and G begins with row 2.
fn polynomials(inverted: &Inverted, divisor: &mut [u32], numerator: &mut [u32], work: &mut [u32])
    requires { PolynomialsInput inverted.now.m inverted.now.a inverted.now.b inverted.now.c inverted.now.close
        (size inverted.now) divisor.old numerator.old work.old }
    ensures { Polynomials inverted.now (size inverted.now)
        divisor.old divisor.new numerator.old numerator.new work.old work.new }
{
    let m = inverted.family.modulus;
    let n = inverted.family.a.len() + 1;
    let xs = extend(inverted.family.a, inverted.close.a);
    let ys = extend(inverted.family.b, inverted.close.b);
    let zs = extend(inverted.family.c, inverted.close.c);
    let all = Family {
        modulus: m,
        a: &xs[..n],
        b: &ys[..n],
        c: &zs[..n],
    };
    let others = Family {
        modulus: m,
        a: &xs[1..n],
        b: &ys[1..n],
        c: &zs[1..n],
    };
    last_polynomial(&all, &mut divisor[..n + 1], work);
    last_polynomial(&others, &mut numerator[..n], work);
}

// The product of the inverses of the a, that of the closing row too.
// The numbers come apart: this clause, with and without the closing row in the edit closing_row_not_inverted, speaks of the inverses, and the
// view of an `Inverted` is its family alone.
fn leading_inverse(m: u32, a_inverses: &[u32], close_a_inverse: u32) -> u32
    requires { 0 < m }
    ensures { result ≡ running_product m
        (entry_or a_inverses.now (length a_inverses.now) close_a_inverse) (length a_inverses.now + 1) }
{
    let rows = a_inverses.len();
    let modulus = Modulus::new(m);
    let mut result: u32 = 1;
    for i in 0..rows + 1 {
        let factor = row_entry(a_inverses, rows, i, close_a_inverse);
        result = modulus.product(result, factor);
    }
    result
}

// The 2 n - 1 moments of a family of n - 1 rows and its closing row, in a list that is just as long.
fn moments_whole(inverted: &Inverted, output: &mut [u32], work: &mut [u32])
    requires few { size inverted.now ≤ 128 }
    requires room { length output.old ≡ 2 * size inverted.now - 1 }
    requires work { work_length ≤ length work.old }
    ensures written { output.new ≡ moments inverted.now }
    ensures wiped { work.new ≡ cleared work.old }
{
    let rows = inverted.family.a.len();
    let n = rows + 1;
    let top = leading_inverse(
        inverted.family.modulus,
        &inverted.a_inverses[..rows],
        inverted.close_a_inverse,
    );
    let mut divisor = zeros::<255>();
    let mut numerator = zeros::<255>();
    polynomials(inverted, &mut divisor, &mut numerator, work);
    quotient(
        inverted.family.modulus,
        &numerator,
        &divisor,
        n,
        top,
        2 * n - 1,
        output,
    );
}

// The 2 n - 1 moments of a family of n - 1 rows and its closing row. What lies behind these numbers in the output stays.
pub fn moments(inverted: &Inverted, output: &mut [u32], work: &mut [u32])
    requires few { size inverted.now ≤ 128 }
    requires room { 2 * size inverted.now - 1 ≤ length output.old }
    requires work { work_length ≤ length work.old }
    ensures { Output (moments inverted.now) (2 * size inverted.now - 1)
        output.old output.new work.old work.new }
{
    let n = inverted.family.a.len() + 1;
    moments_whole(inverted, &mut output[..2 * n - 1], work);
}

// Each of the n entries times the inverse of its norm, (-1)^i a_{i+1} / (c_2 .. c_{i+1}); c_inverses[i] is the inverse of c_{i+1}.
// The numbers come apart: over an `Inverted` the proof did not close, since a model in a model has no field names in a loop's invariant.
fn divide_by_norms(
    m: u32,
    a: &[u32],
    c_inverses: &[u32],
    close_a: u32,
    close_c_inverse: u32,
    output: &mut [u32],
)
    requires { DivideInput m a.now c_inverses.now (length output.old) output.old }
    ensures { output.new ≡ filled
        (divided m a.now c_inverses.now close_a close_c_inverse (length output.old) output.old) (length output.old) output.old }
{
    let n = output.len();
    let last = n - 1;
    let modulus = Modulus::new(m);
    let mut signed: u32 = 1;
    for i in 0..n {
        let x = row_entry(a, last, i, close_a);
        let y = modulus.product(signed, x);
        output[i] = modulus.product(output[i], y);
        let w = row_entry(c_inverses, last, i + 1, close_c_inverse);
        signed = modulus.product(signed, negative(modulus, w));
    }
}

// Decompose of n coefficients, from n = 2 on, by F^t H F = D: the product with the moments, Adjoint, and the norms. The product is taken in
// one local list: room for 128 terms, from place 128 on for 255 moments, and from place 383 on for 128 coefficients.
fn decompose_tree(
    inverted: &Inverted,
    c_inverses: &[u32],
    close_c_inverse: u32,
    coefficients: &[u32],
    output: &mut [u32],
    work: &mut [u32],
)
    requires inverses { Inverts inverted.now.m 1 (rows inverted.now) inverted.now.c c_inverses.now inverted.now.close.c close_c_inverse }
    requires curve { Curve inverted.now coefficients.now }
    requires many { 2 ≤ length coefficients.now }
    requires few { length coefficients.now ≤ 128 }
    requires room { length output.old ≡ length coefficients.now }
    requires work { work_length ≤ length work.old }
    ensures written { output.new ≡ decompose inverted.now coefficients.now }
    ensures wiped { work.new ≡ cleared work.old }
{
    let m = inverted.family.modulus;
    let n = coefficients.len();
    let mut lists = zeros::<511>();
    moments_whole(inverted, &mut lists[128..127 + 2 * n], work);
    copy(coefficients, n, &mut lists[383..]);
    let used = used_length(&lists, 383, 383, n);
    let half = used - used / 2;
    transposed(
        m,
        &mut lists,
        0,
        n,
        383,
        383 + half,
        half,
        128,
        128 + half,
        n + half - 1,
    );
    adjoint_whole(&inverted.family, &lists[..n], output, work);
    divide_by_norms(
        m,
        inverted.family.a,
        c_inverses,
        inverted.close.a,
        close_c_inverse,
        output,
    );
}

// Decompose on lists that are just as long. With one coefficient there is no tree, and the answer is that of F_0.
fn decompose_whole(
    inverted: &Inverted,
    c_inverses: &[u32],
    close_c_inverse: u32,
    coefficients: &[u32],
    output: &mut [u32],
    work: &mut [u32],
)
    requires inverses { Inverts inverted.now.m 1 (rows inverted.now) inverted.now.c c_inverses.now inverted.now.close.c close_c_inverse }
    requires curve { Curve inverted.now coefficients.now }
    requires few { length coefficients.now ≤ 128 }
    requires room { length output.old ≡ length coefficients.now }
    requires work { work_length ≤ length work.old }
    ensures written { output.new ≡ decompose inverted.now coefficients.now }
    ensures wiped { work.new ≡ cleared work.old }
{
    if coefficients.len() == 1 {
        output[0] = coefficients[0] % inverted.family.modulus;
        clear(work);
        return;
    }
    decompose_tree(
        inverted,
        c_inverses,
        close_c_inverse,
        coefficients,
        output,
        work,
    );
}

// The curve of the first n coefficients in powers of x, n - 1 being the number of rows. What lies behind the first n numbers of the output stays.
// c_inverses[i] is the inverse of c_{i+1} from i = 1 on.
// The two come apart: they travel through this function, decompose_whole and decompose_tree alone, to divide_by_norms, whose numbers come
// apart as it says.
pub fn decompose(
    inverted: &Inverted,
    c_inverses: &[u32],
    close_c_inverse: u32,
    coefficients: &[u32],
    output: &mut [u32],
    work: &mut [u32],
)
    requires inverses { Inverts inverted.now.m 1 (rows inverted.now) inverted.now.c c_inverses.now inverted.now.close.c close_c_inverse }
    requires curve { Holds inverted.now.m (size inverted.now) coefficients.now }
    requires few { size inverted.now ≤ 128 }
    requires room { size inverted.now ≤ length output.old }
    requires work { work_length ≤ length work.old }
    ensures { Output (decompose inverted.now (take (size inverted.now) coefficients.now)) (size inverted.now)
        output.old output.new work.old work.new }
{
    let n = inverted.family.a.len() + 1;
    let curve = &coefficients[..n];
    decompose_whole(
        inverted,
        c_inverses,
        close_c_inverse,
        curve,
        &mut output[..n],
        work,
    );
}
