// The calls for programs in other languages, for tests and measurements: a slice passes as a pointer and a length, and an
// answer as numbers: 01's number first (0 for done), then the values of the answer (0 where refused).
#![tactic(auto)]

ghost use Rattle.std.specs.Prelude.{◌≡◌, [], ◌∷◌, ◌%◌, length, set};
ghost use Rattle.std.proofs.lemmas.List.Edits.{sets};
ghost use Rattle.moves.specs.Moves.{ours};
ghost use Rattle.lift.specs.Lift.{lift_of};
ghost use Rattle.lift.specs.Answer.{lifted_says};
ghost use Rattle.lift.specs.School.{lift_with};
ghost use Rattle.code.specs.Code.{code};
ghost use Rattle.code.specs.Devices.{code_on, older_player};
ghost use Rattle.coder.specs.Coding as newer-coder;
ghost use Rattle.coder.specs.Coding.{coded_says};
ghost use Rattle.older_coder.specs.Coding as older-coder;
ghost use Rattle.player.specs.Instructions as newer;
ghost use Rattle.player.specs.Patches.{rig};
ghost use Rattle.player.specs.Playing as newer-player;
ghost use Rattle.player.specs.Playing.{played_says};
ghost use Rattle.older_player.specs.Instructions as older;
ghost use Rattle.older_player.specs.Playing as older-player;
ghost use Rattle.questions.specs.Answer.{reply_says, index_of, value_or30};
ghost use Rattle.exports.specs.Storing.{answer_number, with_answer, table_from, LiftCall, GatherCall, EncodeCall, PlayCall, TreeCall};

use lift::Lifted;
use move_table::LoadedTable;
use player::Refusal;

// Stores a number of an answer, where the array has that place.
fn store(answer: &mut [u32], i: usize, value: usize)
    ensures { answer.new ≡ set answer.old i (value % 4294967296) }
{
    if i < answer.len() {
        answer[i] = (value % 4294967296) as u32;
    }
}

// Stores an answer of four numbers.
fn store_all(answer: &mut [u32], number: usize, a: usize, b: usize, c: usize)
    ensures { answer.new ≡ sets answer.old 0 (number % 4294967296 ∷ a % 4294967296 ∷ b % 4294967296 ∷ c % 4294967296 ∷ []) }
{
    store(answer, 0, number);
    store(answer, 1, a);
    store(answer, 2, b);
    store(answer, 3, c);
}

// Stores a lift's answer: number, length, position, looks.
fn store_lift(lifted: Result<Lifted, lift::Refusal>, answer: &mut [u32])
    ensures { answer.new ≡ with_answer (lifted_says lifted) answer.old }
{
    match lifted {
        Ok(done) => store_all(answer, 0, done.nodes, done.position, done.looks),
        Err(refusal) => store_all(answer, usize::from(u16::from(refusal)), 0, 0, 0),
    }
}

// Number, length, position, looks.
#[unsafe(no_mangle)]
pub extern "C" fn lift_call(
    tree: &[u16],
    position: usize,
    levels: usize,
    out: &mut [u16],
    answer: &mut [u32],
)
    ensures { LiftCall (lift_of ours (length out.old) tree.now position levels) out.old out.new answer.old answer.new }
{
    let lifted = lift::lift(tree, position, levels, out);
    store_lift(lifted, answer);
}

// A school's table, from its words' signs in 36 rows of 31 and their lengths; zeros, which are no table, where there are not so many.
fn table_from(signs: &[u8], lengths: &[u8]) -> LoadedTable
    ensures { result ≡ table_from signs.now lengths.now }
{
    let mut rows = [0u8; move_table::SIGNS];
    let mut counts = [0u8; 36];
    if (signs.len() == move_table::SIGNS) & (lengths.len() == 36) {
        tree::copy(signs, &mut rows, 0);
        tree::copy(lengths, &mut counts, 0);
        return LoadedTable {
            signs: rows,
            lengths: counts,
        };
    }
    LoadedTable {
        signs: rows,
        lengths: counts,
    }
}

// The same by a school's table.
#[unsafe(no_mangle)]
pub extern "C" fn lift_with_call(
    tree: &[u16],
    position: usize,
    levels: usize,
    out: &mut [u16],
    signs: &[u8],
    lengths: &[u8],
    answer: &mut [u32],
)
    ensures { LiftCall (lift_with (table_from signs.now lengths.now) (length out.old) tree.now position levels)
        out.old out.new answer.old answer.new }
{
    let table = table_from(signs, lengths);
    let lifted = lift::lift_with(tree, position, levels, out, table);
    store_lift(lifted, answer);
}

// Number, length, the holder's position.
#[unsafe(no_mangle)]
pub extern "C" fn gather_call(tree: &[u16], marks: &[u16], out: &mut [u16], answer: &mut [u32])
    ensures { GatherCall tree.now marks.now out.old out.new answer.old answer.new }
{
    match gather::gather(tree, marks, out) {
        Ok(gathered) => store_all(answer, 0, gathered.nodes, gathered.holder, 0),
        Err(refusal) => store_all(answer, u16::from(refusal) as usize, 0, 0, 0),
    }
}

// Stores a coder's answer: number, count of instructions.
fn store_coded(coded: Result<usize, coder::Refusal>, answer: &mut [u32])
    ensures { answer.new ≡ with_answer (coded_says coded) answer.old }
{
    match coded {
        Ok(count) => store_all(answer, 0, count, 0, 0),
        Err(refusal) => store_all(answer, usize::from(u16::from(refusal)), 0, 0, 0),
    }
}

// Number, count of instructions.
#[unsafe(no_mangle)]
pub extern "C" fn encode_call(tree: &[u16], out: &mut [u16], answer: &mut [u32])
    ensures { EncodeCall newer-coder.least_buffer (λ t. code t 0) newer.numbers_of tree.now out.old out.new answer.old answer.new }
{
    store_coded(coder::encode(tree, out), answer);
}

// The same for the older player.
#[unsafe(no_mangle)]
pub extern "C" fn older_encode_call(tree: &[u16], out: &mut [u16], answer: &mut [u32])
    ensures { EncodeCall older-coder.least_buffer (code_on older_player) older.numbers_of tree.now out.old out.new answer.old answer.new }
{
    store_coded(older_coder::encode(tree, out), answer);
}

// The number of a player's answer.
fn number_of(played: Result<(), Refusal>) -> u16
    ensures { result ≡ answer_number (played_says played) }
{
    played.err().map_or(0, u16::from)
}

// The number.
#[unsafe(no_mangle)]
pub extern "C" fn play_call(code: &[u16], patch: &[u16], lamps: &mut [u8]) -> u16
    ensures { PlayCall (newer-player.play_fault code.now patch.now lamps.old)
        (newer.lit_lamps (rig patch.now) (newer.instructions code.now)) lamps.old lamps.new result }
{
    let played = player::play(code, patch, lamps);
    number_of(played)
}

// The same of the older player.
#[unsafe(no_mangle)]
pub extern "C" fn older_play_call(code: &[u16], patch: &[u16], lamps: &mut [u8]) -> u16
    ensures { PlayCall (older-player.play_fault code.now patch.now lamps.old)
        (older.lit_lamps (rig patch.now) (older.instructions code.now)) lamps.old lamps.new result }
{
    let played = older_player::play(code, patch, lamps);
    number_of(played)
}

// Stores a number of a list, where the array has that place.
fn store_entry(out: &mut [u16], i: usize, x: u16)
    ensures { out.new ≡ set out.old i x }
{
    if i < out.len() {
        out[i] = x;
    }
}

// Stores a list's numbers from the front of an array, as far as it has places.
fn store_list(list: &[u16], out: &mut [u16])
    ensures { out.new ≡ sets out.old 0 list.now }
{
    for (i, x) in list.iter().enumerate() {
        store_entry(out, i, *x);
    }
}

// Stores the answer of a call of `questions`: number, count of entries or index.
fn store_reply(reply: Result<usize, questions::Refusal>, answer: &mut [u32])
    ensures { answer.new ≡ with_answer (reply_says reply) answer.old }
{
    match reply {
        Ok(value) => store_all(answer, 0, value, 0, 0),
        Err(refusal) => store_all(answer, u16::from(refusal) as usize, 0, 0, 0),
    }
}

// Number, count of entries; the entries go into the array lent for them, as far as it has places.
#[unsafe(no_mangle)]
pub extern "C" fn tree_at_call(index: usize, entries: &mut [u16], answer: &mut [u32])
    ensures { TreeCall index entries.old entries.new answer.old answer.new }
{
    match questions::tree_at(index) {
        Ok(question) => {
            store_list(&question.entries, entries);
            store_reply(Ok(question.count), answer);
        }
        Err(refusal) => {
            store_list(&[0; questions::MOST_ENTRIES], entries);
            store_reply(Err(refusal), answer);
        }
    }
}

// Number, index.
#[unsafe(no_mangle)]
pub extern "C" fn index_of_call(list: &[u16], answer: &mut [u32])
    ensures { answer.new ≡ with_answer (value_or30 (index_of list.now)) answer.old }
{
    let reply = questions::index_of(list);
    store_reply(reply, answer);
}
