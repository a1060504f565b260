// The public calls that put a list in another order: even powers first, and the way back. Each makes every test itself, ends on every input,
// and either writes the list or refuses with the number that the change requests give and touches nothing: it has no 'requires', and one 'ensures'
// that settles answer and output on every input.
#![tactic(auto)]

ghost use Rattle.std.specs.Prelude.{[], ◌≡◌, ◌<◌, ◌≤◌, length};
ghost use Rattle.definitions.specs.Answers.{answered};
ghost use Rattle.definitions.specs.Refusals.{verdict};
ghost use Rattle.storing.specs.Calls.{order_tests, OrderCall};
ghost use Rattle.storing.specs.Order.{arranged};
ghost use Rattle.storing.specs.declared.Direction.{Direction};
ghost use Rattle.parity.specs.Orders.{source};

use definitions::Refusal;
use storing::Direction;

// Of n entries, the index of the one that comes to place k.
// The match is the one table of both orders: a list's direction is asked for at run time.
fn source(direction: Direction, n: usize, k: usize) -> usize
    requires { (k < n) × (n ≤ 128) }
    ensures { (result ≡ source direction n k) × (result < n) }
{
    let half = (n + 1) / 2;
    match direction {
        Direction::EvenFirst => { if k < half { 2 * k } else { 2 * (k - half) + 1 } }
        Direction::EvenBack => { if k % 2 == 0 { k / 2 } else { half + k / 2 } }
    }
}

// The list in its order.
fn write_arranged(direction: Direction, list: &[u32], output: &mut [u32])
    requires { (length list.now ≤ 128) × (length output.old ≡ length list.now) }
    ensures { output.new ≡ arranged direction list.now }
{
    let n = list.len();
    for k in 0..n {
        output[k] = list[source(direction, n, k)];
    }
}

// 5 and 7, of a list of n numbers.
// Of one list: verdicts has the lengths of a job.
fn lengths(n: usize, output: usize) -> Result<(), Refusal>
    ensures { answered result ≡ verdict (order_tests n output) [] }
{
    let is_too_long = 128 < n;
    if is_too_long {
        return Err(Refusal::TooManyRows);
    }
    checks::output_length(n, output)
}

// The output becomes the list in the order of a direction.
pub fn arrange(direction: Direction, list: &[u32], output: &mut [u32]) -> Result<(), Refusal>
    ensures { OrderCall direction list.now (answered result) output.old output.new }
{
    lengths(list.len(), output.len())?;
    write_arranged(direction, list, output);
    Ok(())
}

// Even first: the output becomes the list's entries at even indices rising, then those at odd indices rising.
// Refused with 5: the list has more than 128 numbers; with 7: the output is not as long as the list (both caused by the
// writer of the station's program).
pub fn even_first(list: &[u32], output: &mut [u32]) -> Result<(), Refusal>
    ensures { OrderCall Direction.EvenFirst list.now (answered result) output.old output.new }
{
    arrange(Direction::EvenFirst, list, output)
}

// Even back: the output becomes the list that even_first turns into this one. Refused as even_first is.
pub fn even_back(list: &[u32], output: &mut [u32]) -> Result<(), Refusal>
    ensures { OrderCall Direction.EvenBack list.now (answered result) output.old output.new }
{
    arrange(Direction::EvenBack, list, output)
}
