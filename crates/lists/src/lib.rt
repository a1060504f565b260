// Local lists and lent ones, entry by entry: what the ways of conversion share. Lists are lent whole, with a count of the entries that take
// part; the entries past the count stay.
// The count stands beside since local lists have a fixed length: there is no heap.
#![tactic(auto)]

ghost use Rattle.std.specs.Prelude.{◌≡◌, ◌+◌, ◌≤◌, length, get_or, take, replicate};
ghost use Rattle.definitions.specs.Answers.{cleared};
ghost use Rattle.numbers.specs.Lists.{filled};
ghost use Rattle.numbers.specs.Regions.{written};

use std::marker::Model;

// The rows of a family, lent: three lists of one length, of residues. What closes them is 1 1 1.
#[derive(Drop)]
pub struct Family<'a> {
    pub modulus: u32,
    pub a: &'a [u32],
    pub b: &'a [u32],
    pub c: &'a [u32],
}

impl<'a> Model for Family<'a> {
    ghost use Rattle.definitions.specs.Family as F;
    ghost use Rattle.lists.specs.Lending.{Lending};

    ghost Value = { F.Family };

    ghost view = { λ f. F.family f.modulus f.a.now f.b.now f.c.now };

    ghost invariant = { λ f. Lending (F.family f.modulus f.a.now f.b.now f.c.now) };
}

// A local list, all zeros.
// One function for every length.
pub fn zeros<const N: usize>() -> [u32; N]
    ensures { result ≡ replicate N 0 }
{
    [0u32; N]
}

// The entry at i, and zero past the end.
pub fn entry(list: &[u32], i: usize) -> u32
    ensures { result ≡ get_or list.now i 0 }
{
    if i < list.len() { list[i] } else { 0 }
}

// The entry at i of the first rows entries, and that of the closing row from there on.
pub fn row_entry(list: &[u32], rows: usize, i: usize, close: u32) -> u32
    requires { rows ≤ length list.now }
    ensures { result ≡ get_or (take rows list.now) i close }
{
    if i < rows { list[i] } else { close }
}

// The first count entries of from take the place of those of to.
#[tactic(auto, using(crate::proofs::Copies::copied))]
pub fn copy(from: &[u32], count: usize, to: &mut [u32])
    requires { (count ≤ length from.now) × (count ≤ length to.old) }
    ensures { to.new ≡ filled (λ i. get_or from.now i 0) count to.old }
{
    to[..count].copy_from_slice(&from[..count]);
}

// The values take the place of the numbers from place at on.
#[tactic(auto, unfolding(numbers::specs::Regions::written))]
pub fn store<const N: usize>(w: &mut [u32], at: usize, values: [u32; N])
    requires { at + N ≤ length w.old }
    ensures { w.new ≡ written w.old at values.entry }
{
    w[at..at + N].copy_from_slice(&values);
}

// Leaves zeros in the first 16,384 numbers.
#[tactic(auto, using(crate::proofs::Fills::fillings))]
pub fn clear(work: &mut [u32])
    requires { 16384 ≤ length work.old }
    ensures { work.new ≡ cleared work.old }
{
    for i in 0..16384 {
        work[i] = 0;
    }
}
