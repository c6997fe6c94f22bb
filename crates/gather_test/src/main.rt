// Gathers 01's samples (vii) to (x), trees for other ways of building one, trees that are gathered already, trees at the limits,
// and what is refused with each number, the first fault first. Before each case every number of the buffer is 61000, no group's and no operator's. A line has the
// case; the number answered, the new tree's length and its holder's position; whether the buffer behind the tree is as before; and the
// tree's first entries.
#![tactic(auto)]

use std::io;
use tree::{DIFFERENCE, INTERSECTION, UNION};

const BEFORE: u16 = 61000;

// Whether the numbers from index `from` on are as before.
fn unchanged(out: &[u16], from: usize) -> bool {
    out.iter().skip(from).all(|x| *x == BEFORE)
}

// Goes on from index 1 to the end with group 2 and a union in turn.
fn chain(list: &mut [u16]) {
    let mut next = 2;
    for x in list.iter_mut().skip(1) {
        *x = next;
        next = if next == 2 { UNION } else { 2 };
    }
}

fn print_entry(rt: &impl Print, x: u16) -> io::Result<()> {
    match x {
        UNION => rt.write_all(b" U"),
        DIFFERENCE => rt.write_all(b" D"),
        INTERSECTION => rt.write_all(b" I"),
        _ => print!(rt; " {x}"),
    }
}

// The first entries of a tree of this length, at most seven.
fn print_front(rt: &impl Print, out: &[u16], nodes: usize) -> io::Result<()> {
    for x in out.iter().take(nodes.min(7)) {
        print_entry(rt, *x)?;
    }
    Ok(())
}

// The number, the tree's length and the holder's position.
fn print_numbers(rt: &impl Print, number: u16, nodes: usize, holder: usize) -> io::Result<()> {
    print!(rt; ": {number} {nodes} {holder}")
}

// The rest of a line: the buffer with a tree of this length.
fn print_buffer(rt: &impl Print, out: &[u16], nodes: usize) -> io::Result<()> {
    if unchanged(out, nodes) {
        rt.write_all(b", unchanged behind:")?;
    } else {
        rt.write_all(b", CHANGED behind:")?;
    }
    print_front(rt, out, nodes)?;
    rt.write_all(b"\n")
}

// Gathers one case with this buffer and prints its line.
fn show_in(
    rt: &impl Print,
    label: &[u8],
    tree: &[u16],
    marks: &[u16],
    out: &mut [u16],
) -> io::Result<()> {
    rt.write_all(label)?;
    match gather::gather(tree, marks, out) {
        Ok(gathered) => {
            print_numbers(rt, 0, gathered.nodes, gathered.holder)?;
            print_buffer(rt, out, gathered.nodes)
        }
        Err(refusal) => {
            print_numbers(rt, u16::from(refusal), 0, 0)?;
            print_buffer(rt, out, 0)
        }
    }
}

// The same with a buffer of 8,191 numbers.
fn show(rt: &impl Print, label: &[u8], tree: &[u16], marks: &[u16]) -> io::Result<()> {
    show_in(rt, label, tree, marks, &mut [BEFORE; 8191])
}

// The same with a buffer of 8,190 numbers.
fn show_short(rt: &impl Print, label: &[u8], tree: &[u16], marks: &[u16]) -> io::Result<()> {
    show_in(rt, label, tree, marks, &mut [BEFORE; 8190])
}

// 01's samples.
fn samples(rt: &impl Print) -> io::Result<()> {
    show(rt, b"(vii)", &[1, 3, 65002, 2, 4, 65002, 65001], &[1, 2])?;
    show(rt, b"(viii)", &[1, 3, 65002, 2, 3, 65002, 65001], &[1, 2])?;
    show(rt, b"(ix)", &[1, 2, 65002, 2, 1, 65002, 65001], &[1])?;
    show(rt, b"(x)", &[1, 1, 2, 65002, 65002], &[1])
}

// Columns that are all constant, columns that fall, and a tree that is gathered already.
fn others(rt: &impl Print) -> io::Result<()> {
    show(
        rt,
        b"constant columns",
        &[2, 1, 65002, 2, 65001, 1, 1, 65002, 65002],
        &[1],
    )?;
    show(
        rt,
        b"the complement held",
        &[2, 1, 65002, 2, 1, 65002, 65001],
        &[1],
    )?;
    show(rt, b"gathered already", &[3, 1, 2, 65001, 65002], &[2, 1])
}

// Trees of four groups whose gathered tree has each group once: the holder stands in the second part, and in the first.
fn each_once(rt: &impl Print) -> io::Result<()> {
    show(
        rt,
        b"4 - (3 - holder)",
        &[4, 3, 1, 65002, 2, 65002, 65002],
        &[1, 2],
    )?;
    show(
        rt,
        b"(holder U 4) - 3",
        &[1, 4, 65001, 2, 65001, 3, 65002],
        &[1, 2],
    )
}

// Trees with an intersection: gathered already, rebuilt without one, and refused.
fn intersections(rt: &impl Print) -> io::Result<()> {
    show(rt, b"gathered by I", &[3, 1, 2, 65001, 65003], &[1, 2])?;
    show(
        rt,
        b"I on either side",
        &[1, 3, 65003, 3, 2, 65003, 65001],
        &[1, 2],
    )?;
    show(
        rt,
        b"19 I with two groups",
        &[1, 3, 65003, 2, 4, 65003, 65001],
        &[1, 2],
    )
}

// 11 alone, and before 12.
fn short_buffers(rt: &impl Print) -> io::Result<()> {
    show_short(rt, b"11 a buffer of 8190", &[1, 2, 65002], &[1])?;
    show_short(rt, b"11 and no tree", &[1, 2], &[1])
}

// 12 alone, and before 17 and 18.
fn no_trees(rt: &impl Print) -> io::Result<()> {
    show(rt, b"12 no entry", &[], &[1])?;
    show(rt, b"12 nine trees", &[1, 2, 3, 4, 5, 6, 7, 8, 9], &[1])?;
    show(rt, b"12 and no mark", &[1, 2], &[])
}

// Eight groups, and nine: 17 alone, and before 18.
fn many_groups(rt: &impl Print) -> io::Result<()> {
    let eight = [
        1, 2, 3, 4, 5, 6, 7, 8, 65001, 65001, 65001, 65001, 65001, 65001, 65001,
    ];
    show(rt, b"eight groups", &eight, &[1])?;
    let nine = [
        1, 2, 3, 4, 5, 6, 7, 8, 9, 65001, 65001, 65001, 65001, 65001, 65001, 65001, 65001,
    ];
    show(rt, b"17 nine groups", &nine, &[1])?;
    show(rt, b"17 and no mark", &nine, &[])
}

// 18.
fn bad_marks(rt: &impl Print) -> io::Result<()> {
    show(rt, b"18 no mark", &[1, 2, 65002], &[])?;
    show(rt, b"18 a mark twice", &[1, 2, 65002], &[1, 2, 1])?;
    show(rt, b"18 a mark not in the tree", &[1, 2, 65002], &[1, 3])
}

// A tree of 8,191 nodes, gathered for group 1 and not for group 2; and a longer one.
fn long_trees(rt: &impl Print) -> io::Result<()> {
    let mut list = [1u16; 8191];
    chain(&mut list);
    let mut out = [BEFORE; 8191];
    show_in(rt, b"8191 nodes, gathered already", &list, &[1], &mut out)?;
    if out == list {
        rt.write_all(b"came back unchanged\n")?;
    }
    show(rt, b"8191 nodes", &list, &[2])
}

fn too_long(rt: &impl Print) -> io::Result<()> {
    let mut list = [1u16; 8193];
    chain(&mut list);
    show(rt, b"12 a tree of 8193", &list, &[1])
}

fn main(rt: HostRuntime) -> io::Result<()> {
    samples(&rt)?;
    others(&rt)?;
    each_once(&rt)?;
    intersections(&rt)?;
    short_buffers(&rt)?;
    no_trees(&rt)?;
    many_groups(&rt)?;
    bad_marks(&rt)?;
    long_trees(&rt)?;
    too_long(&rt)
}
