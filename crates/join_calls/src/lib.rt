// The public call that joins two lists of remainders, and the tests of two moduli, which the other call on two channels makes too. It makes
// every test itself, ends on every input, and either joins or refuses with the number of the change requests and touches nothing: it has no
// 'requires', and one 'ensures' that settles answer and output on every input.
// The checks of `remainders` are taken apart by 'let .. else', the form that the scope paper names; `moduli` answers a number and hands on by `?`.
#![tactic(auto)]

ghost use Rattle.std.specs.Prelude.{[], ◌≡◌};
ghost use Rattle.definitions.specs.Answers.{answered};
ghost use Rattle.definitions.specs.Refusals.{verdict};
ghost use Rattle.joining.specs.Calls.{list_tests, JoinCall};
ghost use Rattle.join_calls.specs.Pairs.{PairAnswer};

use definitions::Refusal;

// 3, 3 and 19: one inverse tells whether they share a factor, and is what joining needs: that of the first modulo the second.
#[tactic(auto, unfolding(definitions::specs::Refusals::verdict, joining::specs::Calls::moduli_tests))]
pub fn moduli(m1: u32, m2: u32) -> Result<u32, Refusal>
    ensures { PairAnswer m1 m2 result }
{
    checks::modulus(m1)?;
    checks::modulus(m2)?;
    match residue::invert(m2, m1) {
        Ok(k) => Ok(k),
        Err(_) => Err(Refusal::ModuliShareFactor),
    }
}

// 20, 7, and 12 of either list.
#[tactic(auto, unfolding(definitions::specs::Refusals::verdict, joining::specs::Calls::list_tests, joining::specs::Calls::remainders_test, definitions::specs::Refusals::differ))]
fn remainders(m1: u32, m2: u32, first: &[u32], second: &[u32], output: usize) -> Result<(), Refusal>
    ensures { answered result ≡ verdict (list_tests m1 m2 first.now second.now output) [] }
{
    if second.len() != first.len() {
        return Err(Refusal::RemaindersDiffer);
    }
    let place = checks::output_length(first.len(), output);
    let Ok(()) = place else {
        return place;
    };
    let entries = checks::curve_entries(m1, first);
    let Ok(()) = entries else {
        return entries;
    };
    checks::curve_entries(m2, second)
}

// Join: output[i] becomes the joined value of first[i] modulo m1 and second[i] modulo m2.
// Refused with 3: m1 or m2 is out of its range; with 19: they share a factor; with 20: the lists differ in length; with 7: the output is not as
// long (all of these the station's program); with 12: a number of the first list is not below m1, or one of the second not below m2 (the sender
// of the remainders).
pub fn join(
    m1: u32,
    m2: u32,
    first: &[u32],
    second: &[u32],
    output: &mut [i64],
) -> Result<(), Refusal>
    ensures { JoinCall m1 m2 first.now second.now (answered result) output.old output.new }
{
    let inverse = moduli(m1, m2)?;
    remainders(m1, m2, first, second, output.len())?;
    join::join_lists(m1, m2, inverse, first, second, output);
    Ok(())
}
