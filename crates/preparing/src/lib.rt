// What a record stores beside the rows, worked out from them: the inverses, with zeros behind, and the norms.
// The count stands beside a list since a record holds arrays of 127 and 128 numbers: there is no heap.
#![tactic(auto)]

ghost use Rattle.std.specs.Prelude.{◌≡◌, List, ℕ, ◌<◌, ◌≤◌, length};
ghost use Rattle.definitions.specs.Family.{most_rows, ones};
ghost use Rattle.definitions.specs.Number.{table};
ghost use Rattle.definitions.specs.Orthogonality as Orthogonality;
ghost use Rattle.definitions.specs.Prepared.{most_norms, padded};
ghost use Rattle.inverses.specs.Range.{inverse_from};
ghost use Rattle.lists.specs.Inverses.{Inverts};
ghost use Rattle.lists.specs.Lent.{lent};

use lists::zeros;

// The inverses of the first count entries, with 0 at the places below first.
pub fn inverses_of(m: u32, list: &[u32], first: usize, count: usize) -> [u32; 127]
    requires { (count ≤ most_rows) × (count ≤ length list.now) }
    ensures { result ≡ padded most_rows (table count (inverse_from m first list.now)) }
{
    let mut result = zeros::<127>();
    inverses::of_list(m, list, first, count, &mut result);
    result
}

// The norms of the family of the first count rows, from the inverses of its a.
pub fn norms_of(m: u32, a_inverses: &[u32], c: &[u32], count: usize) -> [u32; 128]
    requires { (0 < m) × (count ≤ most_rows) × (count ≤ length a_inverses.now) × (count ≤ length c.now) }
    ensures { (a b : List ℕ) → Inverts m 0 count a a_inverses.now 1 1
        → result ≡ padded most_norms (Orthogonality.norms (lent m count a b c.now ones)) }
{
    let mut result = zeros::<128>();
    plain::norms(m, a_inverses, c, 1, 1, count + 1, &mut result);
    result
}
