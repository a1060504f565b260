// The scope paper's figures through the public calls, one line each: the figure, the answer, and what the output then holds. Each
// output is lent full of fours, so that a refusal is seen to leave it.
#![tactic(auto)]

ghost use Rattle.std.specs.Prelude.{◌≤◌, length};

use definitions::{NotInverted, Refusal};
use std::io;

fn list_of<const N: usize>(x: u32) -> [u32; N] {
    [x; N]
}

fn show(
    rt: &impl Print,
    label: &str,
    answer: Result<(), Refusal>,
    output: &[u32],
) -> io::Result<()> {
    match answer {
        Ok(()) => print!(rt; "{label} finished:")?,
        Err(refusal) => print!(rt; "{label} refused {}:", u32::from(refusal))?,
    }
    for x in output {
        print!(rt; " {x}")?;
    }
    println!(rt)
}

fn show_inverse(rt: &impl Print, label: &str, answer: Result<u32, NotInverted>) -> io::Result<()> {
    match answer {
        Ok(y) => println!(rt; "{label} value: {y}, factor 1"),
        Err(NotInverted::Shares { factor }) => println!(rt; "{label} refused 13, factor {factor}"),
        Err(NotInverted::Refused(refusal)) => println!(rt;
            "{label} refused {}",
            u32::from(refusal)
        ),
    }
}

// A call, shown with what its output then holds.
fn figure<F: FnOnce(&mut [u32]) -> Result<(), Refusal>>(
    rt: &impl Print,
    label: &str,
    output: &mut [u32],
    call: F,
) -> io::Result<()>
    requires { F.IsAlwaysCallable call }
{
    let answer = call(output);
    show(rt, label, answer, output)
}

// R: m = 7, a = 1 2, b = 0 3, c = 1 5.
fn on_r(rt: &impl Print) -> io::Result<()> {
    figure(rt, "P1", &mut [4; 3], |output| {
        plain_calls::plain_expand(7, &[1, 2], &[0, 3], &[1, 5], &[3, 0, 1], output)
    })?;
    figure(rt, "P2", &mut [4; 3], |output| {
        plain_calls::plain_adjoint(7, &[1, 2], &[0, 3], &[1, 5], &[1, 3, 2], output)
    })?;
    figure(rt, "P3", &mut [4; 3], |output| {
        plain_calls::plain_decompose(7, &[1, 2], &[0, 3], &[1, 5], &[1, 3, 2], output)
    })?;
    figure(rt, "P5", &mut [4; 3], |output| {
        plain_calls::norms(7, &[1, 2], &[0, 3], &[1, 5], output)
    })
}

// Families of one row or none.
fn on_small_families(rt: &impl Print) -> io::Result<()> {
    figure(rt, "P6", &mut [4; 1], |output| {
        plain_calls::plain_expand(2, &[], &[], &[], &[1], output)
    })?;
    figure(rt, "P7", &mut [4; 2], |output| {
        plain_calls::plain_expand(2, &[1], &[1], &[1], &[1, 1], output)
    })?;
    figure(rt, "P10", &mut [4; 2], |output| {
        plain_calls::plain_expand(15, &[3], &[0], &[5], &[1, 1], output)
    })?;
    figure(rt, "P10 with a = 0", &mut [4; 2], |output| {
        plain_calls::plain_expand(15, &[0], &[0], &[5], &[1, 1], output)
    })?;
    figure(
        rt,
        "P11",
        &mut [4; 1],
        |output| plain_calls::norms(7, &[], &[], &[], output),
    )?;
    figure(
        rt,
        "P12",
        &mut [4; 2],
        |output| plain_calls::norms(15, &[2], &[1], &[4], output),
    )
}

fn on_inverses(rt: &impl Print) -> io::Result<()> {
    show_inverse(rt, "P8", plain_calls::invert(15, 4))?;
    show_inverse(rt, "P9", plain_calls::invert(15, 6))?;
    show_inverse(rt, "0, m = 15", plain_calls::invert(15, 0))?;
    show_inverse(rt, "15, m = 15", plain_calls::invert(15, 15))
}

// The limits of the modulus, of the number of rows and of an entry.
fn modulus(rt: &impl Print, m: u32, entry: u32) -> io::Result<()> {
    print!(rt; "m = {m}")?;
    figure(
        rt,
        "",
        &mut [4; 1],
        |output| plain_calls::plain_expand(m, &[], &[], &[], &[entry], output),
    )
}

fn entry(rt: &impl Print, x: u32) -> io::Result<()> {
    print!(rt; "entry {x}, m = 7")?;
    figure(
        rt,
        "",
        &mut [4; 1],
        |output| plain_calls::plain_decompose(7, &[], &[], &[], &[x], output),
    )
}

fn on_limits(rt: &impl Print) -> io::Result<()> {
    modulus(rt, 1, 0)?;
    modulus(rt, 2147483647, 2147483646)?;
    modulus(rt, 2147483648, 0)?;
    entry(rt, 6)?;
    entry(rt, 7)
}

fn rows_of_ones(rt: &impl Print, rows: &[u32], output: &mut [u32]) -> io::Result<()> {
    print!(rt; "{} rows", rows.len())?;
    figure(
        rt,
        "",
        output,
        |output| plain_calls::norms(7, rows, rows, rows, output),
    )
}

// The row factor of last autumn: zero, m itself, or one that shares a factor with m, in a and in c.
fn row_factor(rt: &impl Print, label: &str, a: &[u32], c: &[u32]) -> io::Result<()> {
    figure(rt, label, &mut [4; 3], |output| {
        plain_calls::plain_decompose(15, a, &[0, 3], c, &[1, 2, 3], output)
    })
}

fn on_row_factors(rt: &impl Print) -> io::Result<()> {
    row_factor(rt, "a = 0 2", &[0, 2], &[1, 4])?;
    row_factor(rt, "a = 1 6", &[1, 6], &[1, 4])?;
    row_factor(rt, "a = 6 0", &[6, 0], &[1, 4])?;
    row_factor(rt, "a = 1 15", &[1, 15], &[1, 4])?;
    row_factor(rt, "c = 0 4", &[1, 2], &[0, 4])?;
    row_factor(rt, "c = 1 10", &[1, 2], &[1, 10])?;
    row_factor(rt, "c = 1 0", &[1, 2], &[1, 0])?;
    row_factor(rt, "c = 15 4", &[1, 2], &[15, 4])
}

// A call that is lent a working list of nines, of which a second line shows the first number, the last that an accepted call clears, and
// the one after that; of a shorter list the last two.
fn figure_in<F: FnOnce(&mut [u32], &mut [u32]) -> Result<(), Refusal>>(
    rt: &impl Print,
    label: &str,
    output: &mut [u32],
    work: &mut [u32],
    call: F,
) -> io::Result<()>
    requires callable { F.IsAlwaysCallable call }
    requires long { 2 ≤ length work.old }
{
    let answer = call(output, work);
    show(rt, label, answer, output)?;
    let beyond = work.len().min(16385) - 1;
    println!(rt;
        "  working list: {} {} {}",
        work[0],
        work[beyond - 1],
        work[beyond]
    )
}

fn by_tree<F: FnOnce(&mut [u32], &mut [u32]) -> Result<(), Refusal>>(
    rt: &impl Print,
    label: &str,
    output: &mut [u32],
    call: F,
) -> io::Result<()>
    requires { F.IsAlwaysCallable call }
{
    let mut work: [u32; 16389] = list_of(9);
    figure_in(rt, label, output, &mut work, call)
}

fn by_the_tree(rt: &impl Print) -> io::Result<()> {
    by_tree(rt, "P1 by the tree", &mut [4; 3], |output, work| {
        tree_calls::tree_expand(7, &[1, 2], &[0, 3], &[1, 5], &[3, 0, 1], output, work)
    })?;
    by_tree(rt, "P2 by the tree", &mut [4; 3], |output, work| {
        tree_calls::tree_adjoint(7, &[1, 2], &[0, 3], &[1, 5], &[1, 3, 2], output, work)
    })?;
    by_tree(rt, "P6 by the tree", &mut [4; 1], |output, work| {
        tree_calls::tree_expand(2, &[], &[], &[], &[1], output, work)
    })?;
    by_tree(rt, "P7 by the tree", &mut [4; 2], |output, work| {
        tree_calls::tree_expand(2, &[1], &[1], &[1], &[1, 1], output, work)
    })?;
    by_tree(rt, "P10 by the tree", &mut [4; 2], |output, work| {
        tree_calls::tree_expand(15, &[3], &[0], &[5], &[1, 1], output, work)
    })
}

fn by_the_moments(rt: &impl Print) -> io::Result<()> {
    by_tree(rt, "P3 by the tree", &mut [4; 3], |output, work| {
        tree_calls::tree_decompose(7, &[1, 2], &[0, 3], &[1, 5], &[1, 3, 2], output, work)
    })?;
    by_tree(rt, "P4", &mut [4; 5], |output, work| {
        tree_calls::moments(7, &[1, 2], &[0, 3], &[1, 5], output, work)
    })?;
    by_tree(rt, "moments of P11", &mut [4; 1], |output, work| {
        tree_calls::moments(7, &[], &[], &[], output, work)
    })?;
    by_tree(rt, "moments of P12", &mut [4; 3], |output, work| {
        tree_calls::moments(15, &[2], &[1], &[4], output, work)
    })?;
    by_tree(rt, "moments of P10", &mut [4; 3], |output, work| {
        tree_calls::moments(15, &[3], &[0], &[5], output, work)
    })
}

// P1 in a working list that is one number too short.
fn in_a_short_list(rt: &impl Print) -> io::Result<()> {
    let mut work: [u32; 16383] = list_of(9);
    figure_in(
        rt,
        "P1 in a short list",
        &mut [4; 3],
        &mut work,
        |output, work| {
            tree_calls::tree_expand(7, &[1, 2], &[0, 3], &[1, 5], &[3, 0, 1], output, work)
        },
    )
}

fn main(rt: HostRuntime) -> io::Result<()> {
    on_r(&rt)?;
    on_small_families(&rt)?;
    on_inverses(&rt)?;
    on_limits(&rt)?;
    let most_rows: [u32; 127] = list_of(1);
    let mut fours: [u32; 128] = list_of(4);
    rows_of_ones(&rt, &most_rows, &mut fours)?;
    let too_many_rows: [u32; 128] = list_of(1);
    rows_of_ones(&rt, &too_many_rows, &mut [4; 3])?;
    on_row_factors(&rt)?;
    by_the_tree(&rt)?;
    by_the_moments(&rt)?;
    in_a_short_list(&rt)
}
