// Codes for the older player: 01's example, a tree with its answer in register 2, trees that need 1 and 13 registers, chains of 8,191
// nodes to both sides, and lists that are refused. Before each case every number of the buffer is 61000, so that what is written past
// the last shows.
#![tactic(auto)]

use code_cases::{BEFORE, Shape};
use std::io;

fn show(rt: &impl Print, label: &[u8], tree: &[u16], out: &mut [u16]) -> io::Result<()> {
    code_cases::show(rt, older_coder::encode, label, tree, out)
}

fn case(rt: &impl Print, label: &[u8], tree: &[u16]) -> io::Result<()> {
    code_cases::case(rt, older_coder::encode, label, tree)
}

// A case, after a line of the numbers that are written.
fn with_numbers(rt: &impl Print, label: &[u8], tree: &[u16]) -> io::Result<()> {
    let mut out = [BEFORE; 32770];
    let answer = older_coder::encode(tree, &mut out);
    code_cases::print_numbers(rt, b"numbers:", &out)?;
    code_cases::report(rt, label, answer, &out)
}

// 01's example, in whose code the answer is in register 1; and (1 - (2 U 3)) - ((4 U 5) U (6 U 7)), where it is in register 2: the
// right operand waits in 0 and 2 U 3 in 1 when 1 is loaded.
fn small(rt: &impl Print) -> io::Result<()> {
    with_numbers(rt, b"example", &code_cases::EXAMPLE)?;
    with_numbers(
        rt,
        b"an answer in register 2",
        &[
            1,
            2,
            3,
            tree::UNION,
            tree::DIFFERENCE,
            4,
            5,
            tree::UNION,
            6,
            7,
            tree::UNION,
            tree::UNION,
            tree::DIFFERENCE,
        ],
    )?;
    case(rt, b"a leaf", &[60000])?;
    case(
        rt,
        b"two intersections",
        &[1, 2, 3, tree::INTERSECTION, tree::INTERSECTION],
    )
}

// The longest code in the shortest buffer.
fn filled(rt: &impl Print) -> io::Result<()> {
    let mut tree = [0u16; 8191];
    code_cases::fill(Shape::Complete, &mut tree);
    show(
        rt,
        b"complete in 32,768 numbers",
        &tree,
        &mut [BEFORE; 32768],
    )
}

// 20 alone, and 20 before 12. A buffer of 32,764 numbers is 01's.
fn buffers(rt: &impl Print) -> io::Result<()> {
    show(rt, b"32,764 numbers", &[7], &mut [BEFORE; 32764])?;
    show(rt, b"32,767 numbers", &[7], &mut [BEFORE; 32767])?;
    show(rt, b"32,768 numbers", &[7], &mut [BEFORE; 32768])?;
    show(rt, b"32,767 numbers and no tree", &[], &mut [BEFORE; 32767])
}

fn main(rt: HostRuntime) -> io::Result<()> {
    small(&rt)?;
    code_cases::large_trees(&rt, older_coder::encode)?;
    filled(&rt)?;
    buffers(&rt)?;
    code_cases::no_trees(&rt, older_coder::encode)?;
    case(&rt, b"operator 65004", &[7, 8, 65004])?;
    code_cases::too_long(&rt, older_coder::encode)
}
