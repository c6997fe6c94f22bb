// Whether a word may stand for the left side of a state and an input: what its signs come to under all sixteen fillings of A, B, C and D,
// beside what the left side comes to.
#![tactic(auto)]

ghost use Rattle.std.specs.Prelude.{◌≡◌, ℕ, ◌+◌, ◌≤◌, ◌<◌, eqb, length};
ghost use Rattle.std.specs.Prelude.{MatchOption};
ghost use Rattle.std.proofs.Math.Option.{none};
ghost use mathlib.Core.List.{map, zip_with};
ghost use Rattle.tree.specs.Tree.{Basic, operator_of, apply};
ghost use Rattle.words.specs.Formula.{Formula, join};
ghost use Rattle.words.specs.Word.{operator_sign, most_signs, formula_of};
ghost use Rattle.left_sides.specs.InnerKnown.{capped, known, IsKnown, PartIs, SideIs};
ghost use Rattle.left_sides.specs.InnerStands.{StandsIs};

// The fillings of A, B, C and D with in or out: those with A in before those with A out, and so on within each.
const FILLINGS: usize = 16;

// The parts A, B, C and D: a part's sign stands where a filling has it in.
const PARTS: [[u8; FILLINGS]; 4] = [
    *b"AAAAAAAA        ",
    *b"BBBB    BBBB    ",
    *b"CC  CC  CC  CC  ",
    *b"D D D D D D D D ",
];

// The left sides as words, in the order of the places: states rising, and inputs a b c d within each.
const LEFT_SIDES: [[u8; 7]; 36] = [
    *b"AB+C+D+",
    *b"AB+C+D-",
    *b"DAB+C++",
    *b"DAB+C+-",
    *b"CAB+-D+",
    *b"CAB+-D-",
    *b"DCAB+-+",
    *b"DCAB+--",
    *b"AB-C-D+",
    *b"AB-C-D-",
    *b"DAB-C-+",
    *b"DAB-C--",
    *b"BA-C-D+",
    *b"BA-C-D-",
    *b"DBA-C-+",
    *b"DBA-C--",
    *b"AB+C-D+",
    *b"AB+C-D-",
    *b"DAB+C-+",
    *b"DAB+C--",
    *b"AB-C+D+",
    *b"AB-C+D-",
    *b"DAB-C++",
    *b"DAB-C+-",
    *b"BA-C+D+",
    *b"BA-C+D-",
    *b"DBA-C++",
    *b"DBA-C+-",
    *b"CAB--D+",
    *b"CAB--D-",
    *b"DCAB--+",
    *b"DCAB---",
    *b"CBA--D+",
    *b"CBA--D-",
    *b"DCBA--+",
    *b"DCBA---",
];

// What is known of a formula: whether it names A, whether it names A once, A's level, 3 for a higher one too, and what it selects under
// each filling.
#[derive(Clone, Copy)]
struct Known {
    names: bool,
    once: bool,
    level: u8,
    meaning: [bool; FILLINGS],
}

// What the array of formulas that wait holds where none does.
const NOTHING: Known = Known {
    names: false,
    once: false,
    level: 0,
    meaning: [false; FILLINGS],
};

// Where a row has a sign.
fn has_sign(row: [u8; FILLINGS], sign: u8) -> [bool; FILLINGS]
    ensures { result ≡ map (λ b. eqb b sign) row }
{
    let mut out = [false; FILLINGS];
    for i in 0..FILLINGS {
        out[i] = row[i] == sign;
    }
    out
}

// What is known of the part that a sign names.
fn of_part(sign: u8) -> Known
    requires { (65 ≤ sign) × (sign ≤ 68) }
    ensures { PartIs sign result }
{
    let row = PARTS[(sign - b'A') as usize];
    let meaning = has_sign(row, sign);
    let named = sign == b'A';
    Known {
        names: named,
        once: named,
        level: 0,
        meaning,
    }
}

// What an operator makes of its operands' values.
fn combine(sign: u8, a: bool, b: bool) -> bool
    ensures { (o : Basic) → sign ≡ operator_sign o → result ≡ apply (operator_of o) a b }
{
    (a & !b) | (b & (sign == b'+'))
}

// What an operator selects under each filling, by what its operands select.
fn combined(sign: u8, x: [bool; FILLINGS], y: [bool; FILLINGS]) -> [bool; FILLINGS]
    ensures { (o : Basic) → sign ≡ operator_sign o → result ≡ zip_with (apply (operator_of o)) x y }
{
    let mut out = [false; FILLINGS];
    for i in 0..FILLINGS {
        out[i] = combine(sign, x[i], y[i]);
    }
    out
}

// The level one higher.
fn raised(level: u8) -> u8
    ensures { (n : ℕ) → level ≡ capped n → result ≡ capped (n + 1) }
{
    if level < 3 { level + 1 } else { 3 }
}

// What is known of an operator's formula, by what is known of its operands.
fn joined(sign: u8, x: Known, y: Known) -> Known
    ensures { (o : Basic) (p q : Formula) → sign ≡ operator_sign o → x ≡ known p → y ≡ known q → result ≡ known (join o p q) }
{
    let left = x.meaning;
    let right = y.meaning;
    let meaning = combined(sign, left, right);
    if x.names {
        let level = raised(x.level);
        return Known {
            names: true,
            once: x.once & !y.names,
            level,
            meaning,
        };
    }
    let level = raised(y.level);
    Known {
        names: y.names,
        once: y.once,
        level,
        meaning,
    }
}

// What is known of the formula that a word is, if it makes a tree: one pass, with what is known of each formula that waits. (No heap: so these
// stand in an array, with their number beside it.)
fn of_word(word: &[u8]) -> Option<Known>
    requires { length word.now ≤ most_signs }
    ensures { MatchOption result (formula_of word.now ≡ none) (IsKnown (formula_of word.now)) }
{
    let mut waiting = [NOTHING; words::MOST_SIGNS];
    let mut top: usize = 0;
    for sign in word {
        let sign = *sign;
        if (b'A' <= sign) & (sign <= b'D') {
            waiting[top] = of_part(sign);
            top += 1;
        } else {
            if (sign != b'+') & (sign != b'-') {
                return None;
            }
            if top < 2 {
                return None;
            }
            top -= 1;
            let right = waiting[top];
            let left = waiting[top - 1];
            waiting[top - 1] = joined(sign, left, right);
        }
    }
    if top == 1 { Some(waiting[0]) } else { None }
}

// The word of the left side at a place of the table.
fn left_side(place: usize) -> [u8; 7]
    requires { place < 36 }
    ensures { SideIs place result }
{
    LEFT_SIDES[place]
}

// Whether a word may stand at a place of the table: it makes a tree, holds A once, at level 2, and selects as the left side does.
pub fn stands(word: &[u8], place: usize) -> bool
    requires word_len_bound { length word.now ≤ most_signs }
    requires place_bound { place < 36 }
    ensures { StandsIs word.now place result }
{
    let Some(found) = of_word(word) else {
        return false;
    };
    let Some(side) = of_word(&left_side(place)) else {
        return false;
    };
    let same = found.meaning == side.meaning;
    found.once & ((found.level == 2) & same)
}
