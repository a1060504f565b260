// Reads numbers and lines, of numbers, of one number and of an operation (the scope paper, 'The job text'), at any place of a text.
// A line's numbers are put into a lent list while its form is checked, as far as the list has room; those past it are still counted,
// so the caller can refuse by their number. Every contract says what the reading of definitions answers.
#![tactic(auto)]

ghost use Rattle.std.specs.Prelude.{◌≡◌, ◌≤◌, length, drop, set};
ghost use Rattle.definitions.specs.Text.{operation_key};
ghost use Rattle.definitions.specs.Reading.{read_key, read_digits, read_number, read_numbers, read_operation, ended, read_line};
ghost use Rattle.reader.specs.Places.{placed, opens};
ghost use Rattle.reader.specs.Storing.{Listed};
ghost use Rattle.reader.specs.Lines.{Numbered, Chosen};

use definitions::Operation;

// What was read, and the place after it.
#[derive(Clone, Copy, Debug, PartialEq, Eq)]
pub struct Read<T> {
    pub value: T,
    pub next: usize,
}

// Whether the bytes from a place on begin with a key.
pub fn has_key(text: &[u8], at: usize, key: &[u8]) -> bool
    requires { at ≤ length text.now }
    ensures { result ≡ opens (read_key key.now (drop at text.now)) }
{
    text[at..].starts_with(key)
}

// The digits from a place on, which go on a number that is `first` so far.
fn read_digits(text: &[u8], at: usize, first: u32) -> Option<Read<u32>>
    requires { at ≤ length text.now }
    ensures { result ≡ placed (length text.now) (read_digits first (drop at text.now)) }
{
    let mut value = first;
    for i in at..text.len() {
        let b = text[i];
        match b {
            b'0'..=b'9' => {
                value = value.checked_mul(10)?.checked_add(u32::from(b - b'0'))?;
            }
            _ => return Some(Read { value, next: i }),
        }
    }
    Some(Read {
        value,
        next: text.len(),
    })
}

// The number at a place.
pub fn read_number(text: &[u8], at: usize) -> Option<Read<u32>>
    ensures { result ≡ placed (length text.now) (read_number (drop at text.now)) }
{
    let b = *text.get(at)?;
    match b {
        b'0' => Some(Read {
            value: 0,
            next: at + 1,
        }),
        b'1'..=b'9' => read_digits(text, at + 1, u32::from(b - b'0')),
        _ => None,
    }
}

// Puts a number at a place of a list that has that place.
fn store(out: &mut [u32], k: usize, x: u32)
    ensures { out.new ≡ set out.old k x }
{
    if k < out.len() {
        out[k] = x;
    }
}

// How many numbers stand from a place to the end of the line.
fn load_numbers(text: &[u8], at: usize, out: &mut [u32]) -> Option<Read<usize>>
    ensures { Listed
        text.now (ended (read_numbers (drop at text.now)))
        out.old out.new result }
{
    if *text.get(at)? == b'\n' {
        return Some(Read {
            value: 0,
            next: at + 1,
        });
    }
    let mut i = at;
    let mut count: usize = 0;
    // a while: a number says by how much its place goes on
    while i < text.len() {
        let number = read_number(text, i)?;
        let b = *text.get(number.next)?;
        store(out, count, number.value);
        count += 1;
        i = number.next + 1;
        match b {
            b' ' => {}
            b'\n' => {
                return Some(Read {
                    value: count,
                    next: i,
                });
            }
            _ => return None,
        }
    }
    None
}

// How many numbers the line with a key has. They are put at the front of `out` as far as it has room.
pub fn numbers_line(text: &[u8], at: usize, key: &[u8], out: &mut [u32]) -> Option<Read<usize>>
    requires { at ≤ length text.now }
    ensures { Listed
        text.now (read_line key.now read_numbers (drop at text.now))
        out.old out.new result }
{
    if !has_key(text, at, key) {
        return None;
    }
    load_numbers(text, at + key.len(), out)
}

// The number of the line with a key and one number.
pub fn number_line(text: &[u8], at: usize, key: &[u8]) -> Option<Read<u32>>
    requires { at ≤ length text.now }
    ensures { Numbered text.now (read_line key.now read_number (drop at text.now)) result }
{
    if !has_key(text, at, key) {
        return None;
    }
    let number = read_number(text, at + key.len())?;
    if !has_key(text, number.next, b"\n") {
        return None;
    }
    Some(Read {
        value: number.value,
        next: number.next + 1,
    })
}

// The line of an operation.
pub fn operation_line(text: &[u8], at: usize) -> Option<Read<Operation>>
    requires { at ≤ length text.now }
    ensures { Chosen text.now (read_line operation_key read_operation (drop at text.now)) result }
{
    if has_key(text, at, b"op=expand\n") {
        return Some(Read {
            value: Operation::Expand,
            next: at + 10,
        });
    }
    if has_key(text, at, b"op=adjoint\n") {
        return Some(Read {
            value: Operation::Adjoint,
            next: at + 11,
        });
    }
    if has_key(text, at, b"op=decompose\n") {
        return Some(Read {
            value: Operation::Decompose,
            next: at + 13,
        });
    }
    if has_key(text, at, b"op=moments\n") {
        return Some(Read {
            value: Operation::Moments,
            next: at + 11,
        });
    }
    if has_key(text, at, b"op=norms\n") {
        return Some(Read {
            value: Operation::Norms,
            next: at + 9,
        });
    }
    None
}
