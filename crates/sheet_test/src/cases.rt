// Sheets by cases.
ghost use Rattle.std.specs.Prelude.{◌≤◌, length};

use std::io;

fn print(rt: &impl Print, n: usize) -> io::Result<()> {
    print!(rt; " {n}")
}

// A case's name and what reading answers for it; 0 stands for what an accepted sheet or a refused one doesn't have.
fn show(rt: &impl Print, name: &[u8], bytes: &[u8]) -> io::Result<()> {
    rt.write_all(name)?;
    match sheet::read(bytes) {
        Ok(read) => println!(rt;
            ": 0 0 {} {} {} {}",
            read.nodes, read.marked, read.start, read.lifts
        ),
        Err(refusal) => println!(rt; ": {} {} 0 0 0 0", u8::from(refusal.fault), refusal.line),
    }
}

// A case in one text: its name, a stroke and the sheet.
fn case(rt: &impl Print, text: &[u8]) -> io::Result<()> {
    match text::find(text, b'|') {
        None => Ok(()),
        Some(k) => show(rt, &text[..k], &text[k + 1..]),
    }
}

fn wide(x: u16) -> usize {
    x as usize
}

// The first numbers of a list.
fn show_list(rt: &impl Print, name: &[u8], list: &[u16], count: usize) -> io::Result<()> {
    rt.write_all(name)?;
    for x in list.iter().take(count) {
        print(rt, wide(*x))?;
    }
    rt.write_all(b"\n")
}

// The report's example, with its tree's first entries and its marks.
pub fn example(rt: &impl Print) -> io::Result<()> {
    let bytes = b"G\t1\nG\t2\nD\nG\t3\nD\nG\t4\nU\nG\t5\nD\nL\t0\t2\nK\t3\nK\t2\nE\n";
    show(rt, b"example", bytes)?;
    let Ok(read) = sheet::read(bytes) else {
        return Ok(());
    };
    let tree = read.tree;
    let marks = read.marks;
    show_list(rt, b"its tree", &tree, 11)?;
    show_list(rt, b"its marks", &marks, 8)
}

pub fn ends(rt: &impl Print) -> io::Result<()> {
    case(rt, b"empty|")?;
    case(rt, b"end alone|E\n")?;
    case(rt, b"no end|G\t1\n")?;
    case(rt, b"last line without LF|G\t1\nE")
}

pub fn past_the_end(rt: &impl Print) -> io::Result<()> {
    case(rt, b"line without LF after the end|G\t1\nE\nE")?;
    case(rt, b"good line after the end|G\t1\nE\nE\n")?;
    case(rt, b"bad line after the end|G\t1\nE\nX\n")
}

pub fn order(rt: &impl Print) -> io::Result<()> {
    case(rt, b"group after a lift|G\t1\nL\t0\t1\nG\t2\n")?;
    case(rt, b"lift after a mark|G\t1\nK\t1\nL\t0\t1\n")?;
    case(rt, b"lift first|L\t0\t1\n")?;
    case(rt, b"mark first|K\t1\n")?;
    case(
        rt,
        b"lifts begin after the tree without lifts|G\t1\nK\t1\nE\n",
    )
}

pub fn trees(rt: &impl Print) -> io::Result<()> {
    case(rt, b"two trees before the end|G\t1\nG\t2\nE\n")?;
    case(rt, b"two trees before a lift|G\t1\nG\t2\nL\t0\t1\nE\n")?;
    case(
        rt,
        b"two trees before a mark of no group|G\t1\nG\t2\nK\t3\nE\n",
    )?;
    case(rt, b"operator first|U\nE\n")?;
    case(rt, b"operator with one tree|G\t1\nD\n")
}

// The third operator, with the entries of its tree.
pub fn intersections(rt: &impl Print) -> io::Result<()> {
    let bytes = b"G\t1\nG\t2\nI\nE\n";
    show(rt, b"I", bytes)?;
    let Ok(read) = sheet::read(bytes) else {
        return Ok(());
    };
    let tree = read.tree;
    show_list(rt, b"its tree", &tree, 4)
}

pub fn intersection_lines(rt: &impl Print) -> io::Result<()> {
    case(rt, b"I first|I\nE\n")?;
    case(rt, b"I with one tree|G\t1\nI\n")?;
    case(rt, b"I with a field|G\t1\nG\t2\nI\t1\nE\n")?;
    case(rt, b"I after a lift|G\t1\nL\t0\t1\nI\n")?;
    case(rt, b"small i|G\t1\nG\t2\ni\nE\n")
}

pub fn marks(rt: &impl Print) -> io::Result<()> {
    case(rt, b"mark of no group|G\t1\nK\t2\nE\n")?;
    case(rt, b"mark twice|G\t1\nK\t1\nK\t1\nE\n")?;
    case(rt, b"mark of no group twice|G\t1\nK\t1\nK\t2\nK\t2\nE\n")
}

pub fn groups(rt: &impl Print) -> io::Result<()> {
    case(rt, b"group 0|G\t0\nE\n")?;
    case(rt, b"group 01|G\t01\nE\n")?;
    case(rt, b"group 60001|G\t60001\nE\n")?;
    case(rt, b"group 65537|G\t65537\nE\n")?;
    case(rt, b"group of 20 digits|G\t18446744073709551617\nE\n")
}

pub fn fields(rt: &impl Print) -> io::Result<()> {
    case(rt, b"group with a space|G\t 1\nE\n")?;
    case(rt, b"group with a CR|G\t1\r\nE\n")?;
    case(rt, b"group with no field|G\nE\n")?;
    case(rt, b"group with an empty field|G\t\nE\n")?;
    case(rt, b"group with two fields|G\t1\t2\nE\n")
}

pub fn group_limits(rt: &impl Print) -> io::Result<()> {
    case(rt, b"group 9999|G\t9999\nE\n")?;
    case(rt, b"group 10000|G\t10000\nE\n")?;
    case(rt, b"group 60000|G\t60000\nE\n")?;
    case(rt, b"mark 60000|G\t60000\nK\t60000\nE\n")?;
    case(rt, b"mark 60001|G\t60000\nK\t60001\nE\n")?;
    case(rt, b"mark 0|G\t1\nK\t0\nE\n")
}

pub fn lifts(rt: &impl Print) -> io::Result<()> {
    case(rt, b"position 8191|G\t1\nL\t8191\t1\nE\n")?;
    case(rt, b"position 8190|G\t1\nL\t8190\t1\nE\n")?;
    case(rt, b"levels 100|G\t1\nL\t0\t100\nE\n")?;
    case(rt, b"levels 99|G\t1\nL\t0\t99\nE\n")?;
    case(rt, b"levels 0|G\t1\nL\t0\t0\nE\n")
}

pub fn lift_fields(rt: &impl Print) -> io::Result<()> {
    case(rt, b"lift with one field|G\t1\nL\t0\nE\n")?;
    case(rt, b"lift with three fields|G\t1\nL\t0\t1\t1\nE\n")?;
    case(rt, b"lift with a last tab|G\t1\nL\t0\t1\t\nE\n")
}

pub fn bytes(rt: &impl Print) -> io::Result<()> {
    case(rt, b"empty line|\n")?;
    case(rt, b"two tabs|G\t\t1\nE\n")?;
    case(rt, b"kind of two letters|GG\t1\nE\n")?;
    case(rt, b"end with a field|G\t1\nE\t1\n")?;
    case(rt, b"NUL|G\t1\n\x00\nE\n")?;
    case(rt, b"255|G\t\xff\nE\n")
}

// Appends bytes where there is room for them.
fn append(out: &mut [u8], at: usize, bytes: &[u8]) -> usize
    requires { at ≤ length out.old }
    ensures { result ≤ length out.new }
{
    if out.len() - at < bytes.len() {
        return at;
    }
    tree::copy(bytes, out, at)
}

fn repeat(out: &mut [u8], at: usize, bytes: &[u8], times: usize) -> usize
    requires { at ≤ length out.old }
    ensures { result ≤ length out.new }
{
    let mut next = at;
    for _ in 0..times {
        next = append(out, next, bytes);
    }
    next
}

// A first part, that many lines `G 1` and `U`, a last part and the end.
fn put_nodes(out: &mut [u8], first: &[u8], groups: usize, operators: usize, last: &[u8]) -> usize
    ensures { result ≤ length out.new }
{
    let a = append(out, 0, first);
    let b = repeat(out, a, b"G\t1\n", groups);
    let c = repeat(out, b, b"U\n", operators);
    let d = append(out, c, last);
    append(out, d, b"E\n")
}

fn show_nodes(
    rt: &impl Print,
    name: &[u8],
    first: &[u8],
    groups: usize,
    operators: usize,
    last: &[u8],
) -> io::Result<()> {
    let mut buffer = [0u8; 65536];
    let n = put_nodes(&mut buffer, first, groups, operators, last);
    show(rt, name, &buffer[..n])
}

// The limit of nodes.
pub fn nodes(rt: &impl Print) -> io::Result<()> {
    show_nodes(rt, b"253 nodes", b"", 127, 126, b"")?;
    show_nodes(rt, b"255 nodes", b"", 128, 127, b"")?;
    show_nodes(rt, b"257 nodes", b"", 129, 128, b"")
}

// 255 tree lines, and a 256th of the kinds that bring a node.
pub fn one_node_more(rt: &impl Print) -> io::Result<()> {
    show_nodes(rt, b"256th line a group", b"", 128, 127, b"G\t1\n")?;
    show_nodes(rt, b"256th line U with one tree", b"", 128, 127, b"U\n")?;
    show_nodes(rt, b"256th line U with three trees", b"", 129, 126, b"U\n")?;
    show_nodes(rt, b"256th line D with one tree", b"", 128, 127, b"D\n")?;
    show_nodes(rt, b"256th line D with three trees", b"", 129, 126, b"D\n")?;
    show_nodes(rt, b"256th line I with one tree", b"", 128, 127, b"I\n")?;
    show_nodes(rt, b"256th line I with three trees", b"", 129, 126, b"I\n")
}

// 255 tree lines, and a 256th of the other kinds.
pub fn no_node_more(rt: &impl Print) -> io::Result<()> {
    show_nodes(rt, b"256th line a lift", b"", 128, 127, b"L\t0\t1\n")?;
    show_nodes(rt, b"256th line a mark", b"", 128, 127, b"K\t1\n")?;
    show_nodes(
        rt,
        b"256th line a mark of no group",
        b"",
        128,
        127,
        b"K\t2\n",
    )?;
    show_nodes(rt, b"256th line of no form", b"", 128, 127, b"X\n")?;
    show_nodes(rt, b"256th line the end, three trees", b"", 129, 126, b"")
}

// The limit of groups.
pub fn different_groups(rt: &impl Print) -> io::Result<()> {
    let eight = b"G\t1\nG\t2\nG\t3\nG\t4\nG\t5\nG\t6\nG\t7\nG\t8\n";
    show_nodes(rt, b"256th line a ninth group", eight, 120, 127, b"G\t9\n")?;
    show_nodes(rt, b"ninth group", eight, 0, 0, b"G\t9\n")?;
    show_nodes(rt, b"eight groups", eight, 0, 7, b"")?;
    show_nodes(rt, b"eight groups, one again", eight, 1, 8, b"")
}

// A group, that many lines `L 0 1`, and the end.
fn put_lifts(out: &mut [u8], group: &[u8], lifts: usize) -> usize
    ensures { result ≤ length out.new }
{
    let a = append(out, 0, group);
    let b = repeat(out, a, b"L\t0\t1\n", lifts);
    append(out, b, b"E\n")
}

fn show_lifts(rt: &impl Print, name: &[u8], group: &[u8], lifts: usize) -> io::Result<()> {
    let mut buffer = [0u8; 65536];
    let n = put_lifts(&mut buffer, group, lifts);
    show(rt, name, &buffer[..n])
}

// The limit of bytes.
pub fn sizes(rt: &impl Print) -> io::Result<()> {
    show_lifts(rt, b"60000 bytes", b"G\t1\n", 9999)?;
    show_lifts(rt, b"60001 bytes", b"G\t12\n", 9999)
}
