// The prepared family: a record by value of a family's rows, their inverses and its norms, and its changes. Each change makes every test
// itself, the whole record first, ends on every input, and either hands out the record of the changed family or refuses with the paper's
// number and hands back the record that it was handed: none has a 'requires', and each has one 'ensures' that settles answer and record on
// every input. What a record holds and what it means that it is right stands in definitions, specs/Prepared.antt.
// Each check is taken apart by 'let .. else' before the next: the form that the scope paper names.
#![tactic(auto)]

ghost use Rattle.std.specs.Prelude.{◌≡◌, [], ◌∷◌};
ghost use Rattle.definitions.specs.Answers.{answered};
ghost use Rattle.definitions.specs.Family.{row_of, ones};
ghost use Rattle.definitions.specs.Prepared.{prepared, record_test, append_tests, drop_tests, replace_tests};
ghost use Rattle.definitions.specs.Prepared.{EmptyCall, AppendCall, DropCall, ReplaceCall};
ghost use Rattle.definitions.specs.Refusals.{verdict};
ghost use Rattle.lists.specs.Lent.{lent};
ghost use Rattle.prepared_model.specs.Preparing.{Preparable};
ghost use Rattle.prepared.specs.Held.{held};

use definitions::{FIRST_C, Refusal};

// The record: modulus, row count, rows, the inverses beside them (0 for c_1), and the norms. Unused places are zero.
#[repr(C)]
#[derive(Clone, Copy)]
pub struct Prepared {
    pub modulus: u32,
    pub rows: u32,
    pub a: [u32; 127],
    pub b: [u32; 127],
    pub c: [u32; 127],
    pub a_inverses: [u32; 127],
    pub c_inverses: [u32; 127],
    pub norms: [u32; 128],
}

// The answer of a change, and the record after it.
// No Result: a refused change hands out a record too (EmptyCall, AppendCall, DropCall, ReplaceCall), all zeros or the one handed in.
#[derive(Drop)]
pub struct Change {
    pub answer: Result<(), Refusal>,
    pub family: Prepared,
}

// The record of the family of the first rows of three lists with zeros behind.
fn prepare(m: u32, rows: u32, a: [u32; 127], b: [u32; 127], c: [u32; 127]) -> Prepared
    requires { Preparable m rows a b c }
    ensures { held result ≡ prepared (lent m rows a b c ones) }
{
    let count = rows as usize;
    let a_inverses = preparing::inverses_of(m, &a, 0, count);
    let c_inverses = preparing::inverses_of(m, &c, FIRST_C, count);
    let norms = preparing::norms_of(m, &a_inverses, &c, count);
    Prepared {
        modulus: m,
        rows: rows,
        a: a,
        b: b,
        c: c,
        a_inverses: a_inverses,
        c_inverses: c_inverses,
        norms: norms,
    }
}

// 14, 5, 9, 17, 10, 18 and 11.
// A row's numbers come apart here and below, as the changes are handed them that README and docs/ name.
#[inline(never)]
fn append_verdict(p: &Prepared, a: u32, b: u32, c: u32) -> Result<(), Refusal>
    ensures { answered result ≡ verdict (append_tests (held p.now) (row_of a b c)) [] }
{
    let right = p.right();
    let Ok(()) = right else {
        return right;
    };
    if Prepared::MOST_ROWS <= p.rows {
        return Err(Refusal::TooManyRows);
    }
    checks::new_row(p.modulus, p.rows as usize, a, b, c)
}

// 14 and 15.
fn drop_verdict(p: &Prepared) -> Result<(), Refusal>
    ensures { answered result ≡ verdict (drop_tests (held p.now)) [] }
{
    let right = p.right();
    let Ok(()) = right else {
        return right;
    };
    if p.rows == 0 {
        return Err(Refusal::NoRows);
    }
    Ok(())
}

// 14, 16, 9, 17, 10, 18 and 11.
#[inline(never)]
fn replace_verdict(p: &Prepared, row: u32, a: u32, b: u32, c: u32) -> Result<(), Refusal>
    ensures { answered result ≡ verdict (replace_tests (held p.now) row (row_of a b c)) [] }
{
    let right = p.right();
    let Ok(()) = right else {
        return right;
    };
    if row == 0 {
        return Err(Refusal::NoSuchRow);
    }
    if p.rows < row {
        return Err(Refusal::NoSuchRow);
    }
    checks::new_row(p.modulus, (row - 1) as usize, a, b, c)
}

impl Prepared {
    // The largest row count: an append is refused with 5 from there on.
    pub const MOST_ROWS: u32 = 127;

    // 14: whether the record is right.
    pub fn right(&self) -> Result<(), Refusal>
        ensures { answered result ≡ verdict (record_test (held self.now) ∷ []) [] }
    {
        record_check::record(
            self.modulus,
            self.rows,
            &self.a,
            &self.b,
            &self.c,
            &self.a_inverses,
            &self.c_inverses,
            &self.norms,
        )
    }

    // The record of the family without rows. Refused with 3: m is out of its range; its record is then all zeros.
    pub fn empty(m: u32) -> Change
        ensures { EmptyCall m (answered result.answer) (held result.family) }
    {
        let none = lists::zeros::<127>();
        let tested = checks::modulus(m);
        let Ok(()) = tested else {
            let norms = lists::zeros();
            return Change {
                answer: tested,
                family: Prepared {
                    modulus: 0,
                    rows: 0,
                    a: none,
                    b: none,
                    c: none,
                    a_inverses: none,
                    c_inverses: none,
                    norms: norms,
                },
            };
        };
        Change {
            answer: Ok(()),
            family: prepare(m, 0, none, none, none),
        }
    }

    // The record with one row more at its end. Refused with 14: the record is not right; with 5: it has all the rows that it can have; with
    // 9, 17, 10, 18 and 11: a number of the row is not below m, or its a, or its c if it is not row 1, is zero or has no inverse.
    pub fn append(self, a: u32, b: u32, c: u32) -> Change
        ensures { AppendCall (held self) (row_of a b c) (answered result.answer) (held result.family) }
    {
        let tested = append_verdict(&self, a, b, c);
        let Ok(()) = tested else {
            return Change {
                answer: tested,
                family: self,
            };
        };
        let place = self.rows as usize;
        let mut x = self.a;
        let mut y = self.b;
        let mut z = self.c;
        x[place] = a;
        y[place] = b;
        z[place] = c;
        Change {
            answer: Ok(()),
            family: prepare(self.modulus, self.rows + 1, x, y, z),
        }
    }

    // The record without its last row. Refused with 14: the record is not right; with 15: it has no rows.
    pub fn drop_last(self) -> Change
        ensures { DropCall (held self) (answered result.answer) (held result.family) }
    {
        let tested = drop_verdict(&self);
        let Ok(()) = tested else {
            return Change {
                answer: tested,
                family: self,
            };
        };
        let rows = self.rows - 1;
        let place = rows as usize;
        let mut x = self.a;
        let mut y = self.b;
        let mut z = self.c;
        x[place] = 0;
        y[place] = 0;
        z[place] = 0;
        Change {
            answer: Ok(()),
            family: prepare(self.modulus, rows, x, y, z),
        }
    }

    // The record with another row in the place of one, counted from 1. Refused with 14: the record is not right; with 16: there is no such
    // row; with 9, 17, 10, 18 and 11 as append is.
    pub fn replace(self, row: u32, a: u32, b: u32, c: u32) -> Change
        ensures { ReplaceCall (held self) row (row_of a b c) (answered result.answer) (held result.family) }
    {
        let tested = replace_verdict(&self, row, a, b, c);
        let Ok(()) = tested else {
            return Change {
                answer: tested,
                family: self,
            };
        };
        let place = (row - 1) as usize;
        let mut x = self.a;
        let mut y = self.b;
        let mut z = self.c;
        x[place] = a;
        y[place] = b;
        z[place] = c;
        Change {
            answer: Ok(()),
            family: prepare(self.modulus, self.rows, x, y, z),
        }
    }
}
