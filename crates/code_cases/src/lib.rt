// What the edge cases of both coders share: the line of a case, the trees of 8,191 nodes, and printing.
#![tactic(auto)]

ghost use Rattle.std.specs.Prelude.{◌≡◌, length};

use coder::Refusal;
use std::io;

// What every number of a buffer is before a case: no group, no operator, no kind and no register.
pub const BEFORE: u16 = 61000;

// The shapes of large trees.
#[derive(Clone, Copy, Debug, PartialEq, Eq)]
pub enum Shape {
    Complete,
    ChainToTheLeft,
    ChainToTheRight,
}

// 01's example as it is coded: (1 - ((2 U 3) U 5)) U (4 - 5).
pub const EXAMPLE: [u16; 11] = [
    1,
    2,
    3,
    tree::UNION,
    5,
    tree::UNION,
    tree::DIFFERENCE,
    4,
    5,
    tree::DIFFERENCE,
    tree::UNION,
];

// 01's number of an answer, 0 if done.
fn number(answer: Result<usize, Refusal>) -> u64 {
    match answer {
        Ok(_) => 0,
        Err(refusal) => u64::from(u16::from(refusal)),
    }
}

// How many numbers are as before.
fn unchanged(out: &[u16]) -> u64 {
    out.iter().filter(|x| **x == BEFORE).count() as u64
}

// The highest register that an instruction names, 0 where nothing was written. Of LOAD only the target is a register. Every other
// instruction, of either player, names registers and unused numbers, and these are 0: they raise nothing.
fn highest_of(four: &[u16]) -> u16
    requires { length four.now ≡ 4 }
{
    match four[0] {
        BEFORE => 0,
        player::LOAD => four[1],
        _ => four[1].max(four[2]).max(four[3]),
    }
}

// The highest register that the code names.
fn highest(out: &[u16]) -> u16 {
    let mut high = 0;
    for four in out.chunks_exact(4) {
        high = high.max(highest_of(four));
    }
    high
}

// A checksum that tells the order of the numbers.
fn checksum(out: &[u16]) -> u64 {
    let mut sum = 0u64;
    for x in out {
        sum = (sum * 31 + u64::from(*x)) % 1000000007;
    }
    sum
}

// A label and a number.
pub fn field(rt: &impl Print, label: &[u8], n: u64) -> io::Result<()> {
    rt.write_all(label)?;
    rt.print(n)
}

// The line of one case: the number answered, how many instructions, the highest register named, a checksum of the whole buffer, and
// how many of its numbers are as before.
pub fn report(
    rt: &impl Print,
    label: &[u8],
    answer: Result<usize, Refusal>,
    out: &[u16],
) -> io::Result<()> {
    rt.write_all(label)?;
    field(rt, b": ", number(answer))?;
    field(rt, b", instructions ", answer.unwrap_or(0) as u64)?;
    field(rt, b", highest register ", u64::from(highest(out)))?;
    field(rt, b", checksum ", checksum(out))?;
    field(rt, b", unchanged ", unchanged(out))?;
    rt.write_all(b"\n")
}

// The line of the numbers that were written.
pub fn print_numbers(rt: &impl Print, label: &[u8], out: &[u16]) -> io::Result<()> {
    rt.write_all(label)?;
    for x in out {
        if *x != BEFORE {
            field(rt, b" ", u64::from(*x))?;
        }
    }
    rt.write_all(b"\n")
}

// The leaf at a position.
fn leaf(position: usize) -> u16 {
    (1 + position % 9) as u16
}

// The entry at a position of the complete tree of 8,191 nodes: at each turn the part that holds it is halved.
fn complete_at(position: usize) -> u16 {
    let mut p = position;
    let mut size: usize = 8191;
    while p < size - 1 {
        size /= 2;
        if size <= p {
            p -= size;
        }
    }
    if size == 1 {
        return leaf(position);
    }
    if position % 2 == 0 {
        tree::UNION
    } else {
        tree::DIFFERENCE
    }
}

// The entry at a position of a tree of 8,191 nodes.
fn entry(shape: Shape, position: usize) -> u16 {
    let is_leaf = match shape {
        Shape::Complete => return complete_at(position),
        Shape::ChainToTheLeft => position == 0 || position % 2 == 1,
        Shape::ChainToTheRight => position < 4096,
    };
    if is_leaf {
        leaf(position)
    } else {
        tree::DIFFERENCE
    }
}

// The entries from 0 on. 8,191 are a tree of any shape; any odd number is a chain to the left.
pub fn fill(shape: Shape, tree: &mut [u16]) {
    for (i, node) in tree.iter_mut().enumerate() {
        *node = entry(shape, i);
    }
}

// A case in a buffer that is lent, coded by the coder of either device.
pub fn show<E>(
    rt: &impl Print,
    encode: E,
    label: &[u8],
    tree: &[u16],
    out: &mut [u16],
) -> io::Result<()>
where
    E: Fn(&[u16], &mut [u16]) -> Result<usize, Refusal>,
    requires { E.IsAlwaysCallable encode }
{
    let answer = encode(tree, out);
    report(rt, label, answer, out)
}

// A case in a buffer of 32,770 numbers.
pub fn case<E>(rt: &impl Print, encode: E, label: &[u8], tree: &[u16]) -> io::Result<()>
where
    E: Fn(&[u16], &mut [u16]) -> Result<usize, Refusal>,
    requires { E.IsAlwaysCallable encode }
{
    show(rt, encode, label, tree, &mut [BEFORE; 32770])
}

// A tree of 8,191 nodes, and so the longest code, in a buffer that it does not fill.
fn large<E>(rt: &impl Print, encode: E, label: &[u8], shape: Shape) -> io::Result<()>
where
    E: Fn(&[u16], &mut [u16]) -> Result<usize, Refusal>,
    requires { E.IsAlwaysCallable encode }
{
    let mut tree = [0u16; 8191];
    fill(shape, &mut tree);
    case(rt, encode, label, &tree)
}

// Trees that need 13 registers and 1, and a chain to the other side.
pub fn large_trees<E>(rt: &impl Print, encode: E) -> io::Result<()>
where
    E: Fn(&[u16], &mut [u16]) -> Result<usize, Refusal> + Copy,
    requires { E.IsAlwaysCallable encode }
{
    large(rt, encode, b"complete", Shape::Complete)?;
    large(rt, encode, b"chain to the left", Shape::ChainToTheLeft)?;
    large(rt, encode, b"chain to the right", Shape::ChainToTheRight)
}

// 12, of lists that make no tree.
pub fn no_trees<E>(rt: &impl Print, encode: E) -> io::Result<()>
where
    E: Fn(&[u16], &mut [u16]) -> Result<usize, Refusal> + Copy,
    requires { E.IsAlwaysCallable encode }
{
    case(rt, encode, b"no entry", &[])?;
    case(rt, encode, b"an operand missing", &[7, tree::UNION])?;
    case(rt, encode, b"two trees", &[7, 8])?;
    case(rt, encode, b"group 0", &[0])?;
    case(rt, encode, b"group 60001", &[60001])
}

// 12, of a list of more nodes than a tree may have.
pub fn too_long<E>(rt: &impl Print, encode: E) -> io::Result<()>
where
    E: Fn(&[u16], &mut [u16]) -> Result<usize, Refusal>,
    requires { E.IsAlwaysCallable encode }
{
    let mut tree = [0u16; 8193];
    fill(Shape::ChainToTheLeft, &mut tree);
    case(rt, encode, b"a chain of 8,193 nodes", &tree)
}
