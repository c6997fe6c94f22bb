// Lifts 01's samples (i) to (vi), (iv) and (vi) as request 2 changes them, lifts at every limit, and lifts that are refused with each number.
// Before each case every number of the buffer is 61000, no group's and no operator's. A line has the case; the number, the position and the looks that the key would
// print; the new tree's length; how many numbers of the buffer still are 61000; a checksum of the whole buffer; and the new tree's first
// entries.
#![tactic(auto)]

use lift::{Lifted, Refusal};
use std::io;
use tree::{DIFFERENCE, INTERSECTION, UNION};

const BEFORE: u16 = 61000;

// Sets one number, where there is one.
fn put(list: &mut [u16], at: usize, x: u16) {
    if let Some(entry) = list.get_mut(at) {
        *entry = x;
    }
}

// Goes on from index `from` to the end with a leaf and an operator in turn.
fn chain(list: &mut [u16], from: usize, leaf: u16, operator: u16) {
    let mut next = leaf;
    for entry in list.iter_mut().skip(from) {
        *entry = next;
        next = if next == leaf { operator } else { leaf };
    }
}

// How many numbers are as before.
fn unchanged(out: &[u16]) -> usize {
    out.iter().filter(|x| **x == BEFORE).count()
}

// A checksum that tells the order of the numbers.
fn checksum(out: &[u16]) -> u64 {
    let mut sum = 0u64;
    for x in out {
        sum = (sum * 31 + u64::from(*x)) % 1000000007;
    }
    sum
}

fn print_number(rt: &impl Print, x: u64) -> io::Result<()> {
    print!(rt; "{x} ")
}

fn print_entry(rt: &impl Print, x: u16) -> io::Result<()> {
    match x {
        UNION => rt.write_all(b" U"),
        DIFFERENCE => rt.write_all(b" D"),
        INTERSECTION => rt.write_all(b" I"),
        _ => print!(rt; " {x}"),
    }
}

// The first entries of a tree of so many nodes, at most twelve.
fn print_front(rt: &impl Print, out: &[u16], nodes: usize) -> io::Result<()> {
    for x in out.iter().take(nodes.min(12)) {
        print_entry(rt, *x)?;
    }
    Ok(())
}

// The number, the position and the looks as the key prints them, and the new tree's length; refused, the line's own position, 0 and 0.
fn print_answer(rt: &impl Print, answer: Result<Lifted, Refusal>, asked: usize) -> io::Result<()> {
    match answer {
        Ok(lifted) => {
            print_number(rt, 0)?;
            print_number(rt, lifted.position as u64)?;
            print_number(rt, lifted.looks as u64)?;
            print_number(rt, lifted.nodes as u64)
        }
        Err(refusal) => {
            print_number(rt, u64::from(u16::from(refusal)))?;
            print_number(rt, asked as u64)?;
            print_number(rt, 0)?;
            print_number(rt, 0)
        }
    }
}

// Lifts one case with this buffer and prints its line.
fn show_in(
    rt: &impl Print,
    label: &[u8],
    tree: &[u16],
    position: usize,
    levels: usize,
    out: &mut [u16],
) -> io::Result<()> {
    let answer = lift::lift(tree, position, levels, out);
    rt.write_all(label)?;
    rt.write_all(b": ")?;
    print_answer(rt, answer, position)?;
    print_number(rt, unchanged(out) as u64)?;
    rt.print(checksum(out))?;
    print_front(rt, out, answer.map_or(0, |lifted| lifted.nodes))?;
    rt.write_all(b"\n")
}

// The same with a buffer of 8,191 numbers.
fn show(
    rt: &impl Print,
    label: &[u8],
    tree: &[u16],
    position: usize,
    levels: usize,
) -> io::Result<()> {
    let mut out = [BEFORE; 8191];
    show_in(rt, label, tree, position, levels, &mut out)
}

// 01's samples.
fn samples(rt: &impl Print) -> io::Result<()> {
    show(
        rt,
        b"(i)",
        &[1, 2, 65002, 3, 65002, 4, 65001, 5, 65002],
        0,
        2,
    )?;
    show(rt, b"(ii)", &[1, 2, 65002], 0, 1)?;
    show(rt, b"(iii)", &[1, 2, 65002, 3, 65001], 0, 1)?;
    show(
        rt,
        b"(iv)",
        &[5, 4, 3, 2, 1, 65002, 65002, 65002, 65002],
        4,
        1,
    )?;
    show(rt, b"(v)", &[3, 2, 1, 65002, 65002, 4, 65002], 2, 1)?;
    show(
        rt,
        b"(vi)",
        &[3, 2, 1, 65002, 65002, 4, 65001, 5, 65001],
        2,
        1,
    )
}

// Each refusal but 16, and the second step of two refused.
fn refusals(rt: &impl Print) -> io::Result<()> {
    let mut short = [BEFORE; 8190];
    show_in(rt, b"11 a buffer of 8190", &[1, 2, 65002], 0, 1, &mut short)?;
    show(rt, b"12 two trees", &[1, 2], 0, 1)?;
    show(rt, b"12 no operand", &[65001], 0, 1)?;
    show(rt, b"12 no group", &[60001, 2, 65001], 0, 1)?;
    show(rt, b"13", &[1, 2, 65002], 3, 1)?;
    show(rt, b"14 no levels", &[1, 2, 65002, 3, 65002], 0, 0)?;
    show(
        rt,
        b"14 as many as the level",
        &[1, 2, 65002, 3, 65002],
        0,
        2,
    )?;
    show(rt, b"one less", &[1, 2, 65002, 3, 65002], 0, 1)?;
    show(
        rt,
        b"15 at the second step",
        &[1, 2, 65002, 3, 65001, 4, 65001],
        0,
        2,
    )
}

// An intersection at each of the three places above A, needed and not.
fn intersections(rt: &impl Print) -> io::Result<()> {
    show(rt, b"27 the parent", &[1, 2, 65003, 3, 65001], 0, 1)?;
    show(rt, b"27 the grandparent", &[3, 1, 2, 65002, 65003], 2, 1)?;
    show(
        rt,
        b"27 the node above T",
        &[1, 2, 65002, 3, 65001, 4, 65003],
        0,
        1,
    )?;
    show(rt, b"not needed", &[4, 1, 2, 65002, 3, 65002, 65003], 1, 1)?;
    show(
        rt,
        b"27 at the second step",
        &[4, 1, 2, 65002, 3, 65002, 65003, 5, 65001],
        1,
        2,
    )?;
    show(rt, b"14 before 27", &[1, 2, 65003, 3, 65001], 0, 2)?;
    show(rt, b"12 a fourth operator", &[1, 2, 65004], 0, 1)
}

// A chain of unions: the last position and the one after it, and many levels.
fn long_chains(rt: &impl Print) -> io::Result<()> {
    let mut list = [1u16; 8191];
    chain(&mut list, 1, 2, UNION);
    show(rt, b"position 8190, the root", &list, 8190, 1)?;
    show(rt, b"position 8191", &list, 8191, 1)?;
    show(rt, b"99 levels", &list, 0, 99)?;
    show(rt, b"4094 levels", &list, 0, 4094)?;
    show(rt, b"4095 levels", &list, 0, 4095)?;
    let mut long = [1u16; 8193];
    chain(&mut long, 1, 2, UNION);
    show(rt, b"12 a tree of 8193", &long, 0, 1)
}

// (1 U 2)-3 joined with a chain: a step in state 5 makes it two nodes longer.
fn join_chain(list: &mut [u16]) {
    chain(list, 6, 5, UNION);
    put(list, 0, 1);
    put(list, 1, 2);
    put(list, 2, UNION);
    put(list, 3, 3);
    put(list, 4, DIFFERENCE);
    put(list, 5, 4);
    if let Some(last) = list.last_mut() {
        *last = UNION;
    }
}

fn results(rt: &impl Print) -> io::Result<()> {
    let mut shorter = [0u16; 8189];
    join_chain(&mut shorter);
    show(rt, b"a result of 8191", &shorter, 0, 1)?;
    let mut list = [0u16; 8191];
    join_chain(&mut list);
    show(rt, b"16 a result of 8193", &list, 0, 1)
}

// A at level 2 in each of the states 5 to 9; state 6 is sample (iii).
fn level_two(rt: &impl Print) -> io::Result<()> {
    show(
        rt,
        b"15 at level 2 in state 5",
        &[1, 2, 65001, 3, 65002],
        0,
        1,
    )?;
    show(rt, b"15 in state 7", &[2, 1, 65002, 3, 65001], 1, 1)?;
    show(rt, b"15 in state 8", &[3, 1, 2, 65002, 65002], 1, 1)?;
    show(rt, b"15 in state 9", &[3, 2, 1, 65002, 65002], 2, 1)
}

// A at level 3 in state 9 under input a, c and d; under b it is sample (v), and deeper under d and a samples (iv) and (vi).
fn state_nine(rt: &impl Print) -> io::Result<()> {
    show(rt, b"9 a", &[3, 2, 1, 65002, 65002, 4, 65001], 2, 1)?;
    show(rt, b"9 c", &[4, 3, 2, 1, 65002, 65002, 65001], 3, 1)?;
    show(rt, b"9 d", &[4, 3, 2, 1, 65002, 65002, 65002], 3, 1)
}

// Chains of 100 differences: nested to the left, to the right, and one that stays in state 9.
fn differences(rt: &impl Print) -> io::Result<()> {
    let mut left = [1u16; 201];
    chain(&mut left, 1, 2, DIFFERENCE);
    show(
        rt,
        b"100 differences, the first group by 99 levels",
        &left,
        0,
        99,
    )?;
    let mut right = [7u16; 201];
    right[101..].fill(DIFFERENCE);
    show(rt, b"the last group by 98 levels", &right, 100, 98)?;
    show(rt, b"15 by 99 levels", &right, 100, 99)?;
    let mut nine = [3u16; 201];
    chain(&mut nine, 5, 4, DIFFERENCE);
    put(&mut nine, 1, 2);
    put(&mut nine, 2, 1);
    nine[3..5].fill(DIFFERENCE);
    show(rt, b"in state 9 by 98 levels", &nine, 2, 98)
}

fn main(rt: HostRuntime) -> io::Result<()> {
    samples(&rt)?;
    refusals(&rt)?;
    level_two(&rt)?;
    state_nine(&rt)?;
    intersections(&rt)?;
    long_chains(&rt)?;
    results(&rt)?;
    differences(&rt)
}
