// Codes 01's example, trees that need 1 and 13 registers, chains of 8,191 nodes to both sides, and lists that are refused.
// Before each case every number of the buffer is 61000.
#![tactic(auto)]

use code_cases::BEFORE;
use std::io;

fn case(rt: &impl Print, label: &[u8], tree: &[u16]) -> io::Result<()> {
    code_cases::case(rt, coder::encode, label, tree)
}

fn show(rt: &impl Print, label: &[u8], tree: &[u16], out: &mut [u16]) -> io::Result<()> {
    code_cases::show(rt, coder::encode, label, tree, out)
}

// The run of the node at a position, as first+count.
fn print_run(rt: &impl Print, tree: &[u16], position: usize) -> io::Result<()> {
    let run = coder::run_of(tree, position);
    code_cases::field(rt, b" ", run.first as u64)?;
    code_cases::field(rt, b"+", run.count as u64)
}

// The runs of the nodes, and of a position past the last.
fn print_runs(rt: &impl Print, tree: &[u16]) -> io::Result<()> {
    for i in 0..tree.len() {
        print_run(rt, tree, i)?;
    }
    print_run(rt, tree, tree.len())?;
    rt.write_all(b"\n")
}

// 01's example.
fn example(rt: &impl Print) -> io::Result<()> {
    let tree = code_cases::EXAMPLE;
    let mut out = [BEFORE; 32764];
    let _ = coder::encode(&tree, &mut out);
    code_cases::print_numbers(rt, b"numbers:", &out)?;
    rt.write_all(b"runs:")?;
    print_runs(rt, &tree)?;
    case(rt, b"example", &tree)
}

// Request 6's operator: 1 in both with 2 in both with 3.
fn intersections(rt: &impl Print) -> io::Result<()> {
    case(
        rt,
        b"two intersections",
        &[1, 2, 3, tree::INTERSECTION, tree::INTERSECTION],
    )?;
    case(rt, b"operator 65004", &[7, 8, 65004])
}

// 20 alone, and 20 before 12.
fn buffers(rt: &impl Print) -> io::Result<()> {
    show(rt, b"32,763 numbers", &[7], &mut [BEFORE; 32763])?;
    show(rt, b"32,764 numbers", &[7], &mut [BEFORE; 32764])?;
    show(rt, b"32,763 numbers and no tree", &[], &mut [BEFORE; 32763])
}

fn main(rt: HostRuntime) -> io::Result<()> {
    example(&rt)?;
    intersections(&rt)?;
    case(&rt, b"a leaf", &[60000])?;
    code_cases::large_trees(&rt, coder::encode)?;
    buffers(&rt)?;
    code_cases::no_trees(&rt, coder::encode)?;
    code_cases::too_long(&rt, coder::encode)
}
