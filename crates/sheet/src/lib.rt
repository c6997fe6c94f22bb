// Reads a sheet.
#![tactic(auto)]

ghost use Rattle.std.specs.Prelude.{◌≡◌, true, [], ◌∷◌, ℕ, ◌+◌, ◌<◌, Some};
ghost use Rattle.text.specs.Parts.{part, split};
ghost use Rattle.text.specs.Line.{tab};
ghost use Rattle.sheet.specs.Form.{bare, one_number, two_numbers, form_of, line_of};
ghost use Rattle.sheet.specs.InnerLines.{line_at};
ghost use Rattle.sheet.specs.Rules.{with_nodes, with_tasks, sheet_rules, candidate_rules};
ghost use Rattle.sheet.specs.Reading.{most_bytes, nothing_read, place_fault, order_fault, read_with, reading, sheet_of};
ghost use Rattle.sheet.specs.Faults.{fault_number, numbered};
ghost use Rattle.sheet.specs.InnerFaults.{fault_in, phase_number};
ghost use Rattle.sheet.specs.InnerHolding.{Holds, Holding, Leads, Gives};
ghost use Rattle.sheet.specs.InnerDrawing.{drawing_of};

use tree::{MOST_GROUPS, MOST_NODES};

// 01's limits; that of a sheet's nodes is 02's, request 1.
pub const MOST_BYTES: usize = 60000;

// As many bytes of a file as are enough to refuse it or to read it whole: one more than it may have.
pub const ENOUGH_BYTES: usize = MOST_BYTES + 1;

pub const MOST_SHEET_NODES: usize = 255;

pub const MOST_POSITION: u16 = 8190;

pub const LEAST_LEVELS: u16 = 1;

pub const MOST_LEVELS: u16 = 99;

// 01's faults, the first one first.
#[derive(Clone, Copy, Debug, PartialEq, Eq)]
pub enum Fault {
    // over 60,000 bytes
    TooManyBytes,
    // a line of no such form
    NoForm,
    // a line of good form out of its place, or after the end
    OutOfPlace,
    // an operator with fewer than two trees waiting
    TooFewTrees,
    // a node more than the tree may have
    TooManyNodes,
    // a ninth different group
    TooManyGroups,
    // the first line after the tree lines when they don't make one tree
    NotOneTree,
    // a mark of a group not in the tree
    UnknownMark,
    // a mark twice
    MarkTwice,
    // lines used up without the end
    NoEnd,
}

// 01's number of a fault.
impl From<Fault> for u8 {
    ghost from_gives = { λ fault n. n ≡ fault_number fault };

    fn from(fault: Fault) -> u8 {
        match fault {
            Fault::TooManyBytes => 1,
            Fault::NoForm => 2,
            Fault::OutOfPlace => 3,
            Fault::TooFewTrees => 4,
            Fault::TooManyNodes => 5,
            Fault::TooManyGroups => 6,
            Fault::NotOneTree => 7,
            Fault::UnknownMark => 8,
            Fault::MarkTwice => 9,
            Fault::NoEnd => 10,
        }
    }
}

// A fault and its line, counted from 1; 0 for a file of too many bytes.
#[derive(Clone, Copy, Debug, PartialEq, Eq)]
pub struct Refusal {
    pub fault: Fault,
    pub line: usize,
}

// A line by its form: a group, an operator as a tree's list has it, a lift's position and levels, a mark, or the end.
#[derive(Clone, Copy, Debug, PartialEq, Eq)]
pub enum Line {
    Group(u16),
    Operator(u16),
    Lift(u16, u16),
    Mark(u16),
    End,
}

// A line, if it has a form, and the byte after it.
#[derive(Clone, Copy)]
pub struct LineAt {
    pub line: Option<Line>,
    pub next: usize,
}

// The line of a kind alone.
fn bare_line(kind: u8) -> Option<Line>
    ensures { result ≡ bare sheet_rules kind }
{
    match kind {
        b'U' => Some(Line::Operator(tree::UNION)),
        b'D' => Some(Line::Operator(tree::DIFFERENCE)),
        b'I' => Some(Line::Operator(tree::INTERSECTION)),
        b'E' => Some(Line::End),
        _ => None,
    }
}

// The line of a kind and one number.
fn one_number(kind: u8, n: u16) -> Option<Line>
    ensures { result ≡ one_number sheet_rules kind (Some n) }
{
    match kind {
        b'G' if tree::is_group(n) => Some(Line::Group(n)),
        b'K' if tree::is_group(n) => Some(Line::Mark(n)),
        _ => None,
    }
}

// The line of a kind and two numbers.
fn two_numbers(kind: u8, p: u16, n: u16) -> Option<Line>
    ensures { result ≡ two_numbers kind (Some p) (Some n) }
{
    if kind == b'L' && p <= MOST_POSITION && LEAST_LEVELS <= n && n <= MOST_LEVELS {
        return Some(Line::Lift(p, n));
    }
    None
}

// The line of a kind and what stands behind the tab after it.
fn fielded_line(kind: u8, rest: &[u8]) -> Option<Line>
    ensures { result ≡ form_of sheet_rules (part (kind ∷ []) (split tab rest.now)) }
{
    match text::find(rest, text::TAB) {
        None => one_number(kind, text::number(rest)?),
        Some(t) => {
            let p = text::number(&rest[..t])?;
            let n = text::number(&rest[t + 1..])?;
            two_numbers(kind, p, n)
        }
    }
}

// The form of a line, given without its LF.
fn line_of(bytes: &[u8]) -> Option<Line>
    ensures { result ≡ line_of sheet_rules bytes.now }
{
    match bytes {
        [kind] => bare_line(*kind),
        [kind, text::TAB, rest @ ..] => fielded_line(*kind, rest),
        _ => None,
    }
}

// The line at a byte of a sheet, and the byte after it.
pub fn line_at(sheet: &[u8], at: usize) -> LineAt
    ensures { result ≡ line_at sheet_rules sheet.now at }
{
    if sheet.len() <= at {
        return LineAt {
            line: None,
            next: at,
        };
    }
    let rest = &sheet[at..];
    match text::find(rest, text::LINE_FEED) {
        None => LineAt {
            line: None,
            next: sheet.len(),
        },
        Some(k) => LineAt {
            line: line_of(&rest[..k]),
            next: at + k + 1,
        },
    }
}

// The places of the lines, in their order, and the phase after the end.
#[derive(Clone, Copy, Debug, PartialEq, Eq, PartialOrd, Ord)]
enum Phase {
    Tree,
    Lifts,
    Marks,
    End,
    Ended,
}

// How far reading has come in a file whose tree may have `NODES` nodes: how many lines have been read, and the place of the last;
// the tree's entries and how many trees wait; its different groups, the marks, the byte after the tree lines and how many lifts there
// are. `tasks` says whether lifts and marks may stand in the file. Arrays with counts, since reading takes fixed memory only.
#[derive(Clone, Copy)]
struct Reader<const NODES: usize> {
    tasks: bool,
    line: usize,
    phase: Phase,
    tree: [u16; NODES],
    nodes: usize,
    waiting: usize,
    groups: [u16; MOST_GROUPS],
    different: usize,
    marks: [u16; MOST_GROUPS],
    marked: usize,
    start: usize,
    lifts: usize,
}

impl<const NODES: usize> Reader<NODES> {
    // Nothing read yet.
    fn new(tasks: bool) -> Reader<NODES>
        ensures { Holds (with_tasks tasks (with_nodes NODES sheet_rules)) nothing_read result × (result.line ≡ 0) }
    {
        Reader {
            tasks,
            line: 0,
            phase: Phase::Tree,
            tree: [0; NODES],
            nodes: 0,
            waiting: 0,
            groups: [0; MOST_GROUPS],
            different: 0,
            marks: [0; MOST_GROUPS],
            marked: 0,
            start: 0,
            lifts: 0,
        }
    }

    // The fault of a lift or a mark where there may be no tasks (3).
    fn place_fault(&self, line: Line) -> Result<(), Fault>
        ensures { fault_in result ≡ place_fault self.now.tasks (Some line) }
    {
        if !self.tasks && matches!(line, Line::Lift(_, _) | Line::Mark(_)) {
            return Err(Fault::OutOfPlace);
        }
        Ok(())
    }

    // The fault of a line out of its place (3), or first after tree lines that make no tree (7).
    fn order_fault(&self, place: Phase) -> Result<(), Fault>
        ensures { fault_in result ≡ order_fault (phase_number self.now.phase) self.now.waiting (phase_number place) }
    {
        if place < self.phase {
            return Err(Fault::OutOfPlace);
        }
        if self.phase == Phase::Tree && Phase::Tree < place && self.waiting != 1 {
            return Err(Fault::NotOneTree);
        }
        Ok(())
    }

    // Reads a line with a group.
    fn group(&mut self, g: u16, after: usize) -> Result<(), Fault>
        requires { Holding self.old }
        ensures { Leads (Some (Line.Group g)) after self.old.line self.old result self.new }
    {
        self.order_fault(Phase::Tree)?;
        if NODES <= self.nodes {
            return Err(Fault::TooManyNodes);
        }
        if !tree::is_in(&self.groups[..self.different], g) {
            if MOST_GROUPS <= self.different {
                return Err(Fault::TooManyGroups);
            }
            self.groups[self.different] = g;
            self.different += 1;
        }
        self.tree[self.nodes] = g;
        self.nodes += 1;
        self.waiting += 1;
        self.start = after; // also where no lift comes
        Ok(())
    }

    // Reads a line with an operator.
    fn operator(&mut self, x: u16, after: usize) -> Result<(), Fault>
        requires { Holding self.old }
        ensures { Leads (Some (Line.Operator x)) after self.old.line self.old result self.new }
    {
        self.order_fault(Phase::Tree)?;
        if self.waiting < 2 {
            return Err(Fault::TooFewTrees);
        }
        if NODES <= self.nodes {
            return Err(Fault::TooManyNodes);
        }
        self.tree[self.nodes] = x;
        self.nodes += 1;
        self.waiting -= 1;
        self.start = after;
        Ok(())
    }

    // Reads a line with a lift.
    fn lift(&mut self) -> Result<(), Fault>
        requires { (self.old.tasks ≡ true) × (self.old.lifts < self.old.line) }
        ensures { (position levels after : ℕ) → Leads (Some (Line.Lift position levels)) after self.old.line self.old result self.new }
    {
        self.order_fault(Phase::Lifts)?;
        self.phase = Phase::Lifts;
        self.lifts += 1;
        Ok(())
    }

    // Reads a line with a mark.
    fn mark(&mut self, g: u16) -> Result<(), Fault>
        requires { (self.old.tasks ≡ true) × Holding self.old }
        ensures { (after : ℕ) → Leads (Some (Line.Mark g)) after self.old.line self.old result self.new }
    {
        self.order_fault(Phase::Marks)?;
        if !tree::is_in(&self.groups[..self.different], g) {
            return Err(Fault::UnknownMark);
        }
        if tree::is_in(&self.marks[..self.marked], g) {
            return Err(Fault::MarkTwice);
        }
        self.marks[self.marked] = g;
        self.phase = Phase::Marks;
        self.marked += 1;
        Ok(())
    }

    // Reads the end.
    fn end(&mut self) -> Result<(), Fault>
        ensures { (after : ℕ) → Leads (Some Line.End) after self.old.line self.old result self.new }
    {
        self.order_fault(Phase::End)?;
        self.phase = Phase::Ended;
        Ok(())
    }

    // Reads a line; `after` is the byte after it.
    fn step(&mut self, line: Option<Line>, after: usize) -> Result<(), Fault>
        requires { (self.old.line < most_bytes) × Holding self.old }
        ensures { Leads line after (self.old.line + 1) self.old result self.new }
    {
        self.line += 1;
        let line = line.ok_or(Fault::NoForm)?;
        self.place_fault(line)?;
        match line {
            Line::Group(g) => self.group(g, after),
            Line::Operator(x) => self.operator(x, after),
            Line::Lift(_, _) => self.lift(),
            Line::Mark(g) => self.mark(g),
            Line::End => self.end(),
        }
    }
}

// Reads the lines of a file whose tree may have `NODES` nodes; `tasks` says whether lifts and marks may stand in it.
fn read_lines<const NODES: usize>(file: &[u8], tasks: bool) -> Result<Reader<NODES>, Refusal>
    ensures { Gives (with_tasks tasks (with_nodes NODES sheet_rules)) (read_with (with_tasks tasks (with_nodes NODES sheet_rules)) file.now) result }
{
    if MOST_BYTES < file.len() {
        return Err(Refusal {
            fault: Fault::TooManyBytes,
            line: 0,
        });
    }
    let mut reader = Reader::new(tasks);
    let mut at = 0;
    // A `while`: where the next line begins is known only once this one is read, and `line_at` reads lift lines again later.
    while at < file.len() {
        let here = line_at(file, at);
        at = here.next;
        reader.step(here.line, at).map_err(|fault| Refusal {
            fault,
            line: reader.line,
        })?;
    }
    if reader.phase != Phase::Ended {
        return Err(Refusal {
            fault: Fault::NoEnd,
            line: reader.line + 1,
        });
    }
    Ok(reader)
}

// What reading answers of a sheet that it accepts: the tree's entries, the marks, the byte where the lifts begin and how many there
// are. Entries past the ends are 0. Arrays with counts, since an answer is fixed memory (no heap).
#[derive(Clone, Copy)]
pub struct Sheet {
    pub tree: [u16; MOST_SHEET_NODES],
    pub nodes: usize,
    pub marks: [u16; MOST_GROUPS],
    pub marked: usize,
    pub start: usize,
    pub lifts: usize,
}

// Reads a sheet, or gives its first fault. It is lent the sheet to read only, and answers by value.
pub fn read(sheet: &[u8]) -> Result<Sheet, Refusal>
    ensures { numbered result ≡ sheet_of (reading sheet.now) }
{
    let reader = read_lines(sheet, true)?;
    // The check takes an array into a literal from a variable only.
    let tree = reader.tree;
    let marks = reader.marks;
    Ok(Sheet {
        tree,
        nodes: reader.nodes,
        marks,
        marked: reader.marked,
        start: reader.start,
        lifts: reader.lifts,
    })
}

// What reading answers of a candidate's file that it accepts: the entries of the tree in it. Entries past its end are 0. No `Sheet` of
// another size: marks and lifts, which may not stand in it, would be four fields without use.
#[derive(Clone, Copy)]
pub struct Drawing {
    pub tree: [u16; MOST_NODES],
    pub nodes: usize,
}

// Reads a candidate's file, or gives its first fault: the same reader, by other rules.
pub fn read_drawing(file: &[u8]) -> Result<Drawing, Refusal>
    ensures { numbered result ≡ drawing_of (read_with candidate_rules file.now) }
{
    let reader = read_lines(file, false)?;
    let tree = reader.tree;
    Ok(Drawing {
        tree,
        nodes: reader.nodes,
    })
}
