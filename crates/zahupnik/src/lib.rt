// The public calls for C, as include/zahupnik.h declares them: numbers, lent lists and records by value, and each returns 0 or the
// refusal number, a change with the record after it. None has a 'requires', and each has one 'ensures' that settles the number and what is
// lent on every input.
// What C asks: a function for each call, a list as a pointer and a length, a refusal and an operation as a number, m, a, b and c apart.
#![tactic(auto)]

ghost use Rattle.std.specs.Prelude.{◌≡◌, [], ◌∷◌};
ghost use Rattle.definitions.specs.Answers.{answered, InverseCall, PlainCall, TreeCall, NormsCall, MomentsCall};
ghost use Rattle.definitions.specs.Conversion.{expand, adjoint, decompose};
ghost use Rattle.definitions.specs.Family.{family, row_of};
ghost use Rattle.definitions.specs.Prepared.{EmptyCall, AppendCall, DropCall, ReplaceCall};
ghost use Rattle.definitions.specs.PreparedCalls.{PreparedPlainCall, PreparedTreeCall, PreparedNormsCall, PreparedMomentsCall};
ghost use Rattle.joining.specs.Calls.{JoinCall, ExpandJoinCall};
ghost use Rattle.joining.specs.Expanding.{signed};
ghost use Rattle.prepared.specs.Held.{held};
ghost use Rattle.storing.specs.Calls.{OrderCall};
ghost use Rattle.storing.specs.declared.Direction.{Direction};
ghost use Rattle.zahupnik.specs.Returned.{returned, number, TextReturned, choice, job_for, JobReturned};

use definitions::{NotInverted, Operation, Refusal};
use prepared::{Change, Prepared};

// The answer of a change as a number, and the record after it.
#[repr(C)]
#[derive(Drop)]
pub struct NumberedChange {
    pub answer: u32,
    pub family: Prepared,
}

// 0 for the finished kind, and a refusal's number.
// A function, since From, u32 and Result are all of other crates.
fn number(answer: Result<(), Refusal>) -> u32
    ensures { result ≡ number (answered answer) }
{
    match answer {
        Ok(()) => 0,
        Err(refusal) => u32::from(refusal),
    }
}

// The version that include/zahupnik.h states: its major number times 10000, its minor times 100 and its patch, added up.
#[unsafe(no_mangle)]
pub extern "C" fn zahupnik_version() -> u32
    ensures { result ≡ 10000 }
{
    10000
}

// Inverse and the greatest common factor, written to the lent numbers. Refused as plain_calls::invert is, with 13 after the factor is written.
#[unsafe(no_mangle)]
pub extern "C" fn zahupnik_invert(m: u32, x: u32, inverse: &mut u32, factor: &mut u32) -> u32
    ensures { InverseCall m x (returned result) (inverse.old ∷ []) (inverse.new ∷ [])
        (factor.old ∷ []) (factor.new ∷ []) }
{
    match plain_calls::invert(m, x) {
        Ok(y) => {
            *inverse = y;
            *factor = 1;
            0
        }
        Err(NotInverted::Shares { factor: shared }) => {
            *factor = shared;
            13
        }
        Err(NotInverted::Refused(refusal)) => u32::from(refusal),
    }
}

// Expand by the plain way. Refused as plain_calls::plain_expand is.
#[unsafe(no_mangle)]
pub extern "C" fn zahupnik_plain_expand(
    m: u32,
    a: &[u32],
    b: &[u32],
    c: &[u32],
    curve: &[u32],
    output: &mut [u32],
) -> u32
    ensures { PlainCall expand (family m a.now b.now c.now) curve.now (returned result)
        output.old output.new }
{
    number(plain_calls::plain_expand(m, a, b, c, curve, output))
}

// Adjoint by the plain way. Refused as plain_calls::plain_adjoint is.
#[unsafe(no_mangle)]
pub extern "C" fn zahupnik_plain_adjoint(
    m: u32,
    a: &[u32],
    b: &[u32],
    c: &[u32],
    curve: &[u32],
    output: &mut [u32],
) -> u32
    ensures { PlainCall adjoint (family m a.now b.now c.now) curve.now (returned result)
        output.old output.new }
{
    number(plain_calls::plain_adjoint(m, a, b, c, curve, output))
}

// Decompose by the plain way. Refused as plain_calls::plain_decompose is.
#[unsafe(no_mangle)]
pub extern "C" fn zahupnik_plain_decompose(
    m: u32,
    a: &[u32],
    b: &[u32],
    c: &[u32],
    coefficients: &[u32],
    output: &mut [u32],
) -> u32
    ensures { PlainCall decompose (family m a.now b.now c.now) coefficients.now (returned result)
        output.old output.new }
{
    number(plain_calls::plain_decompose(m, a, b, c, coefficients, output))
}

// Norms. Refused as plain_calls::norms is.
#[unsafe(no_mangle)]
pub extern "C" fn zahupnik_norms(m: u32, a: &[u32], b: &[u32], c: &[u32], output: &mut [u32]) -> u32
    ensures { NormsCall (family m a.now b.now c.now) (returned result)
        output.old output.new }
{
    number(plain_calls::norms(m, a, b, c, output))
}

// Expand by the tree way, in the working list. Refused as tree_calls::tree_expand is.
#[unsafe(no_mangle)]
pub extern "C" fn zahupnik_tree_expand(
    m: u32,
    a: &[u32],
    b: &[u32],
    c: &[u32],
    curve: &[u32],
    output: &mut [u32],
    work: &mut [u32],
) -> u32
    ensures { TreeCall expand (family m a.now b.now c.now) curve.now (returned result)
        output.old output.new work.old work.new }
{
    number(tree_calls::tree_expand(m, a, b, c, curve, output, work))
}

// Adjoint by the tree way, in the working list. Refused as tree_calls::tree_adjoint is.
#[unsafe(no_mangle)]
pub extern "C" fn zahupnik_tree_adjoint(
    m: u32,
    a: &[u32],
    b: &[u32],
    c: &[u32],
    curve: &[u32],
    output: &mut [u32],
    work: &mut [u32],
) -> u32
    ensures { TreeCall adjoint (family m a.now b.now c.now) curve.now (returned result)
        output.old output.new work.old work.new }
{
    number(tree_calls::tree_adjoint(m, a, b, c, curve, output, work))
}

// Decompose by the tree way, in the working list. Refused as tree_calls::tree_decompose is.
#[unsafe(no_mangle)]
pub extern "C" fn zahupnik_tree_decompose(
    m: u32,
    a: &[u32],
    b: &[u32],
    c: &[u32],
    coefficients: &[u32],
    output: &mut [u32],
    work: &mut [u32],
) -> u32
    ensures { TreeCall decompose (family m a.now b.now c.now) coefficients.now (returned result)
        output.old output.new work.old work.new }
{
    number(tree_calls::tree_decompose(m, a, b, c, coefficients, output, work))
}

// Moments, in the working list. Refused as tree_calls::moments is.
#[unsafe(no_mangle)]
pub extern "C" fn zahupnik_moments(
    m: u32,
    a: &[u32],
    b: &[u32],
    c: &[u32],
    output: &mut [u32],
    work: &mut [u32],
) -> u32
    ensures { MomentsCall (family m a.now b.now c.now) (returned result)
        output.old output.new work.old work.new }
{
    number(tree_calls::moments(m, a, b, c, output, work))
}

// The text call, with the length of the answer text written to the lent number. Refused as job::convert_text is.
#[unsafe(no_mangle)]
pub extern "C" fn zahupnik_convert_text(
    text: &[u8],
    output: &mut [u8],
    work: &mut [u32],
    count: &mut u32,
) -> u32
    ensures { TextReturned text.now result
        output.old output.new work.old work.new count.old count.new }
{
    match job::convert_text(text, output, work) {
        Ok(bytes) => {
            *count = bytes;
            0
        }
        Err(refusal) => u32::from(refusal),
    }
}

// The operation that a number names, if it names one: 0 to 4, in the scope paper's order.
// A function, since TryFrom and Operation are both of other crates, and C's numbers belong to this one.
fn choose(k: u32) -> Option<Operation>
    ensures { result ≡ choice k }
{
    match k {
        0 => Some(Operation::Expand),
        1 => Some(Operation::Adjoint),
        2 => Some(Operation::Decompose),
        3 => Some(Operation::Moments),
        4 => Some(Operation::Norms),
        _ => None,
    }
}

// Writes a job text, with its length written to the lent number. Refused with 2 if the number names no operation (the station's
// program), and otherwise as job::write_job is.
#[unsafe(no_mangle)]
pub extern "C" fn zahupnik_write_job(
    m: u32,
    a: &[u32],
    b: &[u32],
    c: &[u32],
    operation: u32,
    curve: &[u32],
    output: &mut [u8],
    count: &mut u32,
) -> u32
    ensures { JobReturned (job_for m a.now b.now c.now curve.now) operation result
        output.old output.new count.old count.new }
{
    let Some(named) = choose(operation) else {
        return u32::from(Refusal::Malformed);
    };
    match job::write_job(m, a, b, c, named, curve, output) {
        Ok(bytes) => {
            *count = bytes;
            0
        }
        Err(refusal) => u32::from(refusal),
    }
}

// A change, with the number of its answer.
fn numbered(change: Change) -> NumberedChange
    ensures { (result.answer ≡ number (answered change.answer)) × (held result.family ≡ held change.family) }
{
    let answer = number(change.answer);
    let family = change.family;
    NumberedChange {
        answer: answer,
        family: family,
    }
}

// The record of the family without rows. Refused as Prepared::empty is.
#[unsafe(no_mangle)]
pub extern "C" fn zahupnik_prepared_empty(m: u32) -> NumberedChange
    ensures { EmptyCall m (returned result.answer) (held result.family) }
{
    numbered(Prepared::empty(m))
}

// The record with one row more. Refused as Prepared::append is.
#[unsafe(no_mangle)]
pub extern "C" fn zahupnik_prepared_append(
    family: Prepared,
    a: u32,
    b: u32,
    c: u32,
) -> NumberedChange
    ensures { AppendCall (held family) (row_of a b c) (returned result.answer) (held result.family) }
{
    numbered(family.append(a, b, c))
}

// The record without its last row. Refused as Prepared::drop_last is.
#[unsafe(no_mangle)]
pub extern "C" fn zahupnik_prepared_drop_last(family: Prepared) -> NumberedChange
    ensures { DropCall (held family) (returned result.answer) (held result.family) }
{
    numbered(family.drop_last())
}

// The record with another row in the place of one. Refused as Prepared::replace is.
#[unsafe(no_mangle)]
pub extern "C" fn zahupnik_prepared_replace(
    family: Prepared,
    row: u32,
    a: u32,
    b: u32,
    c: u32,
) -> NumberedChange
    ensures { ReplaceCall (held family) row (row_of a b c) (returned result.answer) (held result.family) }
{
    numbered(family.replace(row, a, b, c))
}

// Expand on a record by the plain way. Refused as prepared_plain::plain_expand is.
#[unsafe(no_mangle)]
pub extern "C" fn zahupnik_prepared_plain_expand(
    family: Prepared,
    curve: &[u32],
    output: &mut [u32],
) -> u32
    ensures { PreparedPlainCall expand (held family) curve.now (returned result)
        output.old output.new }
{
    number(prepared_plain::plain_expand(family, curve, output))
}

// Adjoint on a record by the plain way. Refused as prepared_plain::plain_adjoint is.
#[unsafe(no_mangle)]
pub extern "C" fn zahupnik_prepared_plain_adjoint(
    family: Prepared,
    curve: &[u32],
    output: &mut [u32],
) -> u32
    ensures { PreparedPlainCall adjoint (held family) curve.now (returned result)
        output.old output.new }
{
    number(prepared_plain::plain_adjoint(family, curve, output))
}

// Decompose on a record by the plain way. Refused as prepared_plain::plain_decompose is.
#[unsafe(no_mangle)]
pub extern "C" fn zahupnik_prepared_plain_decompose(
    family: Prepared,
    coefficients: &[u32],
    output: &mut [u32],
) -> u32
    ensures { PreparedPlainCall decompose (held family) coefficients.now (returned result)
        output.old output.new }
{
    number(prepared_plain::plain_decompose(family, coefficients, output))
}

// Norms of a record. Refused as prepared_plain::norms is.
#[unsafe(no_mangle)]
pub extern "C" fn zahupnik_prepared_norms(family: Prepared, output: &mut [u32]) -> u32
    ensures { PreparedNormsCall (held family) (returned result) output.old output.new }
{
    number(prepared_plain::norms(family, output))
}

// Expand on a record by the tree way, in the working list. Refused as prepared_tree::tree_expand is.
#[unsafe(no_mangle)]
pub extern "C" fn zahupnik_prepared_tree_expand(
    family: Prepared,
    curve: &[u32],
    output: &mut [u32],
    work: &mut [u32],
) -> u32
    ensures { PreparedTreeCall expand (held family) curve.now (returned result)
        output.old output.new work.old work.new }
{
    number(prepared_tree::tree_expand(family, curve, output, work))
}

// Adjoint on a record by the tree way, in the working list. Refused as prepared_tree::tree_adjoint is.
#[unsafe(no_mangle)]
pub extern "C" fn zahupnik_prepared_tree_adjoint(
    family: Prepared,
    curve: &[u32],
    output: &mut [u32],
    work: &mut [u32],
) -> u32
    ensures { PreparedTreeCall adjoint (held family) curve.now (returned result)
        output.old output.new work.old work.new }
{
    number(prepared_tree::tree_adjoint(family, curve, output, work))
}

// Decompose on a record by the tree way, in the working list. Refused as prepared_tree::tree_decompose is.
#[unsafe(no_mangle)]
pub extern "C" fn zahupnik_prepared_tree_decompose(
    family: Prepared,
    coefficients: &[u32],
    output: &mut [u32],
    work: &mut [u32],
) -> u32
    ensures { PreparedTreeCall decompose (held family) coefficients.now (returned result)
        output.old output.new work.old work.new }
{
    number(prepared_tree::tree_decompose(family, coefficients, output, work))
}

// Moments of a record, in the working list. Refused as prepared_tree::moments is.
#[unsafe(no_mangle)]
pub extern "C" fn zahupnik_prepared_moments(
    family: Prepared,
    output: &mut [u32],
    work: &mut [u32],
) -> u32
    ensures { PreparedMomentsCall (held family) (returned result)
        output.old output.new work.old work.new }
{
    number(prepared_tree::moments(family, output, work))
}

// Join. Refused as join_calls::join is.
#[unsafe(no_mangle)]
pub extern "C" fn zahupnik_join(
    m1: u32,
    m2: u32,
    first: &[u32],
    second: &[u32],
    output: &mut [i64],
) -> u32
    ensures { JoinCall m1 m2 first.now second.now (returned result) output.old output.new }
{
    number(join_calls::join(m1, m2, first, second, output))
}

// Expand and join. Refused as expand_join::expand_join is.
#[unsafe(no_mangle)]
pub extern "C" fn zahupnik_expand_join(
    m1: u32,
    m2: u32,
    a: &[i32],
    b: &[i32],
    c: &[i32],
    curve: &[i32],
    output: &mut [i64],
) -> u32
    ensures { ExpandJoinCall m1 m2 (signed a.now b.now c.now) curve.now (returned result)
        output.old output.new }
{
    number(expand_join::expand_join(m1, m2, a, b, c, curve, output))
}

// Even first. Refused as order_calls::even_first is.
#[unsafe(no_mangle)]
pub extern "C" fn zahupnik_even_first(list: &[u32], output: &mut [u32]) -> u32
    ensures { OrderCall Direction.EvenFirst list.now (returned result) output.old output.new }
{
    number(order_calls::even_first(list, output))
}

// Even back. Refused as order_calls::even_back is.
#[unsafe(no_mangle)]
pub extern "C" fn zahupnik_even_back(list: &[u32], output: &mut [u32]) -> u32
    ensures { OrderCall Direction.EvenBack list.now (returned result) output.old output.new }
{
    number(order_calls::even_back(list, output))
}
