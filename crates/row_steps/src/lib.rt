// Loops over lists of residues: one step of each plain way. Lists are lent whole, with a count of the entries that take part;
// the entries past the count stay. Each stored coefficient costs one remainder, by the reciprocal of m.
// They are local arrays of 128 (fixed memory), lent whole so that the compiler knows their bound and leaves comparisons out of the rows.
// Of eight parameters, in expand_row, the numbers of a row and of the step come from different lists, and no type holds them.
#![tactic(auto)]

ghost use Rattle.std.specs.Prelude.{◌≡◌, ◌<◌, length};
ghost use Rattle.numbers.specs.Lists.{filled};
ghost use Rattle.plain_model.specs.PlainBasis.{basis_entry};
ghost use Rattle.plain_model.specs.PlainModels.{expand_entry, adjoint_entry};
ghost use Rattle.row_steps.specs.DecomposeRow.{DecomposeRowInput};
ghost use Rattle.row_steps.specs.Row.{RowInput, Stepped};

use lists::entry;
use reduction::Modulus;
use residue::combine;

// One row of Expand downwards: the first count entries of current become x + (a X + b) current + c older, and older what
// current was.
pub fn expand_row(
    m: u32,
    x: u32,
    a: u32,
    b: u32,
    c: u32,
    current: &mut [u32],
    older: &mut [u32],
    count: usize,
)
    requires { RowInput m x a b c current.old older.old count }
    ensures { Stepped (expand_entry m x a b c current.old older.old) count
        current.old current.new older.old older.new }
{
    let modulus = Modulus::new(m);
    let mut constant = x;
    let mut previous: u32 = 0;
    for i in 0..count {
        let here = current[i];
        let old = older[i];
        let v = combine(modulus, constant, a, previous, b, here, c, old);
        current[i] = v;
        older[i] = here;
        constant = 0;
        previous = here;
    }
}

// One row of Adjoint upwards: entry t of current, below count, becomes a current[t + 1] + b current[t] + c older[t], and that
// of older what current's was.
pub fn adjoint_row(
    m: u32,
    a: u32,
    b: u32,
    c: u32,
    current: &mut [u32],
    older: &mut [u32],
    count: usize,
)
    requires { RowInput m 0 a b c current.old older.old count × (count < length current.old) }
    ensures { Stepped (adjoint_entry m a b c current.old older.old) count
        current.old current.new older.old older.new }
{
    let modulus = Modulus::new(m);
    for i in 0..count {
        let here = current[i];
        let next = current[i + 1];
        let old = older[i];
        let v = combine(modulus, 0, a, next, b, here, c, old);
        current[i] = v;
        older[i] = here;
    }
}

// One power of Decompose: the first count entries of current become those of p + x current, where multiplication by x in the
// basis is x F_i = rise[i] F_{i+1} + stay[i] F_i + fall[i] F_{i-1}.
pub fn decompose_row(
    m: u32,
    p: u32,
    rise: &[u32],
    stay: &[u32],
    fall: &[u32],
    current: &mut [u32],
    count: usize,
)
    requires { DecomposeRowInput m p rise.now stay.now fall.now current.old count }
    ensures { current.new
        ≡ filled (basis_entry m p rise.now stay.now fall.now current.old)
        count current.old }
{
    let modulus = Modulus::new(m);
    let mut constant = p;
    let mut lead: u32 = 0;
    let mut previous: u32 = 0;
    for i in 0..count {
        let here = current[i];
        let next = entry(current, i + 1);
        let above = entry(fall, i + 1);
        let v = combine(
            modulus, constant, lead, previous, stay[i], here, above, next,
        );
        current[i] = v;
        constant = 0;
        lead = rise[i];
        previous = here;
    }
}
