// What the program `store` prints: for a line the list that it brings, in the order that it asks for, or a refusal; and for the lines that end
// in a piece of its input.
#![tactic(auto)]

ghost use Rattle.std.specs.Prelude.{[], ◌≡◌, ◌+◌, ◌*◌, ◌≤◌, length, take};
ghost use Rattle.definitions.specs.Text.{numbers, line};
ghost use Rattle.storing.specs.Order.{arranged};
ghost use Rattle.storing.specs.Printing.{printed_line};
ghost use Rattle.writer.specs.Putting.{Put};
ghost use Rattle.store_lines.specs.Requests.{Counted, Requested};
ghost use Rattle.store_lines.specs.Printed.{printed_room};
ghost use Rattle.store_lines.specs.Answering.{PieceAnswered};

use lines::Taken;
use storing::Direction;

// What a line asks for, and how many numbers it has.
#[derive(Clone, Copy)]
struct Request {
    direction: Direction,
    count: usize,
}

// How many numbers a line with a key has, which are put at the front of a lent list as far as it has room. A text that goes on after the line is
// no such line.
fn count_numbers(text: &[u8], key: &[u8], list: &mut [u32]) -> Option<usize>
    ensures { Counted text.now key.now list.new result }
{
    let numbers = reader::numbers_line(text, 0, key, list)?;
    if numbers.next != text.len() {
        return None;
    }
    Some(numbers.value)
}

// What a line asks for, its numbers at the front of a lent list as far as it has room; none, if it is malformed.
fn read_request(text: &[u8], list: &mut [u32]) -> Option<Request>
    ensures { Requested text.now list.new result }
{
    if let Some(count) = count_numbers(text, b"put=", list) {
        return Some(Request {
            direction: Direction::EvenFirst,
            count,
        });
    }
    let count = count_numbers(text, b"back=", list)?;
    Some(Request {
        direction: Direction::EvenBack,
        count,
    })
}

// The line of a list in its order, from a place of an output on; `ordered` is lent to hold it. The answer is the place after it.
fn put_arranged(
    direction: Direction,
    list: &[u32],
    ordered: &mut [u32],
    out: &mut [u8],
    at: usize,
) -> usize
    requires { (length list.now ≤ 128) × (length ordered.old ≡ length list.now) × (at + printed_room ≤ length out.old) }
    ensures { Put
        out.old at
        (line [] (numbers (arranged direction list.now)) []) printed_room
        out.new result }
{
    // never refused: the list is short enough, and the room is as long
    let _ = order_calls::arrange(direction, list, ordered);
    writer::put_line(out, at, b"", ordered)
}

// What is printed for a line, from a place of an output on. The answer is the place after it.
pub fn put_printed(text: &[u8], out: &mut [u8], at: usize) -> usize
    requires { at + printed_room ≤ length out.old }
    ensures { Put
        out.old at
        (printed_line text.now) printed_room
        out.new result }
{
    let is_too_long = 8192 < text.len();
    if is_too_long {
        return writer::put_number_line(out, at, b"refused=", 1);
    }
    let mut list = lists::zeros::<128>();
    let Some(Request { direction, count }) = read_request(text, &mut list) else {
        return writer::put_number_line(out, at, b"refused=", 2);
    };
    if 128 < count {
        return writer::put_number_line(out, at, b"refused=", 5);
    }
    let mut ordered = lists::zeros::<128>();
    put_arranged(direction, &list[..count], &mut ordered[..count], out, at)
}

// How many bytes of an output hold what was printed, and how many are kept of the line that is open. The lists stay with the caller, as fixed
// memory that is lent again for the next piece: a list and its count in one value would be taken apart at each call.
#[derive(Drop)]
pub struct Progress {
    pub printed: usize,
    pub kept: usize,
}

// Puts what is printed for the lines that end in a piece after the first `from` bytes of an output. The piece goes on with a line, of which the
// first `count` of the lent list are kept, and what is kept of the line that it leaves open takes their place.
fn answer_lines(
    piece: &[u8],
    line: &mut [u8],
    count: usize,
    out: &mut [u8],
    from: usize,
) -> Progress
    requires { (length line.old ≡ 8193) × (count ≤ 8193) × (from + 11 * (count + length piece.now) + printed_room ≤ length out.old) }
    ensures { PieceAnswered piece.now line.old count out.old from
        line.new result.kept out.new result.printed }
{
    let mut kept = count;
    let mut n = from;
    let mut at: usize = 0;
    // a while: a line says by how much its place goes on
    while at < piece.len() {
        match lines::take_line(piece, at, line, kept) {
            Taken::Ended { count: taken, next } => {
                n = put_printed(&line[..taken], out, n);
                kept = 0;
                at = next;
            }
            Taken::Open { count: left } => {
                return Progress {
                    printed: n,
                    kept: left,
                };
            }
        }
    }
    Progress { printed: n, kept }
}

// The first `count` bytes of a list take the place of those of another. `copy` of lists is the same call of std, with a clause over the
// numbers' `filled`: one function for both would need a clause over neither.
pub fn copy_bytes(from: &[u8], count: usize, to: &mut [u8])
    requires { (count ≤ length from.now) × (count ≤ length to.old) }
    ensures { take count to.new ≡ take count from.now }
{
    to[..count].copy_from_slice(&from[..count]);
}

// As answer_lines, for a piece that goes on with a line of which the first `count` of a list are kept, which stays as it is: what is kept of the
// line that the piece leaves open is put at the front of another list.
pub fn answer_piece(
    piece: &[u8],
    before: &[u8],
    count: usize,
    line: &mut [u8],
    out: &mut [u8],
    from: usize,
) -> Progress
    requires { (length before.now ≡ 8193) × (length line.old ≡ 8193) × (count ≤ 8193)
        × (from + 11 * (count + length piece.now) + printed_room ≤ length out.old) }
    ensures { PieceAnswered piece.now before.now count out.old from
        line.new result.kept out.new result.printed }
{
    copy_bytes(before, count, line);
    answer_lines(piece, line, count, out, from)
}
