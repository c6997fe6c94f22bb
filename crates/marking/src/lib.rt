// Marks a candidate's drawing against a question sheet.
#![tactic(auto)]

ghost use Rattle.std.specs.Prelude.{◌≡◌, ◌≢◌, ◌≤◌, length, MatchOption, Ok};
ghost use Rattle.text.specs.Line.{line};
ghost use Rattle.table.specs.InnerTable.{Listed};
ghost use Rattle.marking.specs.Marking.{mark_number, file_number, no, marking_says, Marks};
ghost use Rattle.marking.specs.Text.{line_bytes, in_line, mark_line_of};
ghost use Rattle.marking.specs.Inner.{foreign_entry, Judged, SomeRead, MarksAnswers, QuestionRead, CandidateRead};

use sheet::{Drawing, Sheet};

// 02's number of refusal.
pub const FOREIGN_GROUP: u8 = 26;

// What a drawing's mark says.
#[derive(Clone, Copy, Debug, PartialEq, Eq)]
pub enum Verdict {
    Right,
    // Not the same lamps.
    OtherLamps,
    NotGathered,
}

// 02's numbers.
impl From<Verdict> for usize {
    ghost from_gives = { λ verdict n. n ≡ mark_number verdict };

    fn from(verdict: Verdict) -> usize {
        match verdict {
            Verdict::Right => 0,
            Verdict::OtherLamps => 1,
            Verdict::NotGathered => 2,
        }
    }
}

#[derive(Clone, Copy, Debug, PartialEq, Eq)]
pub enum File {
    Question,
    Candidate,
}

// 02's numbers.
impl From<File> for usize {
    ghost from_gives = { λ file n. n ≡ file_number file };

    fn from(file: File) -> usize {
        match file {
            File::Question => 0,
            File::Candidate => 1,
        }
    }
}

// Why a drawing gets no mark: the number and the line, in one of the two files. The number is no enum, since `mark_line` promises the line of
// any number.
#[derive(Clone, Copy, Debug, PartialEq, Eq)]
pub struct Refusal {
    pub number: u8,
    pub line: usize,
    pub file: File,
}

// The line of the first leaf whose group is not among these. Each entry has a line of its own, from 1 on.
fn foreign_line(list: &[u16], groups: &[u16]) -> Option<usize>
    ensures { MatchOption result (foreign_entry groups.now 0 list.now ≡ 0) (λ line. (line ≢ 0) × (line ≡ foreign_entry groups.now 0 list.now)) }
{
    for (i, x) in list.iter().enumerate() {
        if *x < tree::UNION && !tree::is_in(groups, *x) {
            return Some(i + 1);
        }
    }
    None
}

// The mark of a drawing; both trees are over the groups.
fn judge(list: &[u16], groups: &[u16], marks: &[u16], drawing: &[u16]) -> Verdict
    requires { Listed list.now × Listed drawing.now }
    ensures { Judged list.now groups.now marks.now drawing.now (Ok result) }
{
    let a = table::table(list, groups);
    let b = table::table(drawing, groups);
    if a != b {
        return Verdict::OtherLamps;
    }
    if marks.is_empty() || gather::is_gathered(drawing, marks) {
        return Verdict::Right;
    }
    Verdict::NotGathered
}

// Marks a drawing where both files are accepted.
fn mark_read(sheet: Sheet, drawing: Drawing) -> Result<Verdict, Refusal>
    requires { SomeRead sheet drawing }
    ensures { MarksAnswers sheet drawing result }
{
    let question = sheet.tree;
    let nodes = sheet.nodes;
    let drawn = drawing.tree;
    let count = drawing.nodes;
    // A question that is accepted has at most eight.
    let found = tree::groups_of(&question[..nodes]).unwrap();
    let groups = found.as_slice();
    if let Some(line) = foreign_line(&drawn[..count], groups) {
        return Err(Refusal {
            number: FOREIGN_GROUP,
            line,
            file: File::Candidate,
        });
    }
    let marks = sheet.marks;
    let marked = sheet.marked;
    Ok(judge(
        &question[..nodes],
        groups,
        &marks[..marked],
        &drawn[..count],
    ))
}

// Reads the question's sheet.
fn read_question(question: &[u8]) -> Result<Sheet, Refusal>
    ensures { QuestionRead question.now result }
{
    sheet::read(question).map_err(|refusal| Refusal {
        number: u8::from(refusal.fault),
        line: refusal.line,
        file: File::Question,
    })
}

// Reads the candidate's drawing.
fn read_candidate(candidate: &[u8]) -> Result<Drawing, Refusal>
    ensures { CandidateRead candidate.now result }
{
    sheet::read_drawing(candidate).map_err(|refusal| Refusal {
        number: u8::from(refusal.fault),
        line: refusal.line,
        file: File::Candidate,
    })
}

// Request 5: the mark of a drawing against a question sheet, or the first refusal, the question's file first.
pub fn mark(question: &[u8], candidate: &[u8]) -> Result<Verdict, Refusal>
    ensures { Marks question.now candidate.now result }
{
    let sheet = read_question(question)?;
    let drawing = read_candidate(candidate)?;
    mark_read(sheet, drawing)
}

// ---- the line that is printed

// As many bytes as every line fits in.
pub const LINE_BYTES: usize = 30;

// A line, and how many of the bytes it has: an array with a count, since there is no heap.
#[derive(Clone, Copy)]
pub struct MarkLine {
    pub bytes: [u8; LINE_BYTES],
    pub count: usize,
}

// The line of a word and numbers.
fn put(word: &[u8], numbers: &[usize]) -> MarkLine
    requires { length (line word.now numbers.now) ≤ line_bytes }
    ensures { result ≡ in_line (line word.now numbers.now) }
{
    let mut bytes = [0u8; LINE_BYTES];
    let count = text::put_line(word, numbers, &mut bytes, 0);
    MarkLine { bytes, count }
}

// The line of a refusal.
fn put_refusal(refusal: Refusal) -> MarkLine
    ensures { result ≡ mark_line_of (no refusal.number refusal.line (file_number refusal.file)) }
{
    put(
        b"NO",
        &[
            refusal.number as usize,
            refusal.line,
            usize::from(refusal.file),
        ],
    )
}

// The line that says an answer.
pub fn mark_line(marking: Result<Verdict, Refusal>) -> MarkLine
    ensures { result ≡ mark_line_of (marking_says marking) }
{
    match marking {
        Ok(verdict) => put(b"MARK", &[usize::from(verdict)]),
        Err(refusal) => put_refusal(refusal),
    }
}
