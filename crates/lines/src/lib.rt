// Takes the lines of a text that comes in pieces of any length. What is open of a line is kept in a lent list, as far as it has room; the
// rest of a line is passed over. So a line may lie across any number of pieces, and a list that has room for one byte more
// than the longest line that is wanted tells by its count that a line was too long.
#![tactic(auto)]

ghost use Rattle.std.specs.Prelude.{◌≤◌, length};
ghost use Rattle.lines.specs.Taking.{Kept, TakenLine};

// What was taken: the first `count` of the lent list are kept of a line that ends before the place `next` of the piece, or of one that the end of
// the piece leaves open.
#[derive(Drop)]
pub enum Taken {
    Ended { count: usize, next: usize },
    Open { count: usize },
}

// Puts a byte after the first `count` of a line, or passes it over where there is no room. The answer is the new count.
fn keep_byte(line: &mut [u8], count: usize, byte: u8) -> usize
    requires { count ≤ length line.old }
    ensures { Kept line.old count byte line.new result }
{
    if line.len() <= count {
        return count;
    }
    line[count] = byte;
    count + 1
}

// Goes on with an open line, of which `count` bytes are kept, from a place of a piece to its byte 10, or to the end of the piece.
pub fn take_line(piece: &[u8], from: usize, line: &mut [u8], count: usize) -> Taken
    requires { (count ≤ length line.old) × (from ≤ length piece.now) }
    ensures { TakenLine piece.now from line.old count line.new result }
{
    let mut n = count;
    for i in from..piece.len() {
        let byte = piece[i];
        n = keep_byte(line, n, byte);
        let is_end = byte == b'\n';
        if is_end {
            return Taken::Ended {
                count: n,
                next: i + 1,
            };
        }
    }
    Taken::Open { count: n }
}
