// A law over what the program `store` does with its input: it makes the program's calls, one after the other, on a text that is cut into pieces
// of the sizes that it is lent, with one output for all that is printed. The program makes these calls on what its reads bring, and writes what
// they put: that it does, and what a read brings and a write prints, no contract says. Of any pieces, as a fact: any-cut in specs/Printing.antt.
#![tactic(auto)]

ghost use Rattle.std.specs.Prelude.{◌≡◌, ◌+◌, ◌*◌, ◌<◌, ◌≤◌, length, get_or, take};
ghost use Rattle.storing.specs.Printing.{printed_input};
ghost use Rattle.store_lines.specs.Printed.{printed_room};

// So many bytes after a place, or the end.
fn end_after(size: u32, at: usize, all: usize) -> usize
    requires { at ≤ all }
    ensures { (at ≤ result) × (result ≤ all) × (at + size ≤ all → result ≡ at + size) × (all ≤ at + size → result ≡ all) }
{
    let wanted = size as usize;
    if all - at < wanted { all } else { at + wanted }
}

// Where piece k ends, which begins at a place: after as many bytes as the sizes say, or with the text. The piece after the last size is the rest.
fn piece_end(sizes: &[u32], k: usize, at: usize, all: usize) -> usize
    requires { at ≤ all }
    ensures { (at ≤ result) × (result ≤ all) × (length sizes.now ≤ k → result ≡ all)
        × (k < length sizes.now → at + get_or sizes.now k 0 ≤ all → result ≡ at + get_or sizes.now k 0) }
{
    if sizes.len() <= k {
        return all;
    }
    end_after(sizes[k], at, all)
}

// What is printed for a text, whatever the sizes of its pieces: for each of its lines in turn, the one that its end leaves open too.
fn answer_text(
    text: &[u8],
    sizes: &[u32],
    before: &mut [u8],
    line: &mut [u8],
    out: &mut [u8],
) -> usize
    requires { (length before.old ≡ 8193) × (length line.old ≡ 8193) × (11 * length text.now + printed_room ≤ length out.old) }
    ensures { take result out.new ≡ printed_input text.now }
{
    let mut kept: usize = 0;
    let mut n: usize = 0;
    let mut at: usize = 0;
    // a while: after a for over 0..=sizes.len() the last turn is a branch of its own, in which the proof was not found
    let mut k: usize = 0;
    while k <= sizes.len() {
        let end = piece_end(sizes, k, at, text.len());
        let progress = store_lines::answer_piece(&text[at..end], before, kept, line, out, n);
        n = progress.printed;
        kept = progress.kept;
        store_lines::copy_bytes(line, kept, before);
        at = end;
        k += 1;
    }
    let none_is_open = kept == 0;
    if none_is_open {
        return n;
    }
    store_lines::put_printed(&before[..kept], out, n)
}
