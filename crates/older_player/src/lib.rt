// The older player: from its instructions and a patch to the lamps that are lit. The instructions before SHOW are carried out as 01's player
// does it, with the first register as target and left operand.
#![tactic(auto)]

ghost use Rattle.std.specs.Prelude.{◌≡◌, get_or};
ghost use Rattle.older_player.specs.Playing.{wrong_instruction, misplaced, wrong_code, Plays};

use player::{ADD, BOTH, CUT, Form, LOAD, Refusal};

// Request 8's limit of instructions, and its kind beside 01's, a number as they are: "SHOW, kind 5".
const INSTRUCTIONS: usize = 8192;

pub const SHOW: u16 = 5;

// Fault 23 of one instruction, wherever it stands.
fn wrong_instruction(four: &[u16; 4]) -> bool
    ensures { result ≡ wrong_instruction (get_or four.now 0 0) (get_or four.now 1 0) (get_or four.now 2 0) (get_or four.now 3 0) }
{
    let [kind, a, b, c] = *four;
    match kind {
        LOAD => player::wrong_register(a) || player::wrong_group(b) || c != 0,
        ADD | CUT | BOTH => player::wrong_register(a) || player::wrong_register(b) || c != 0,
        SHOW => player::wrong_register(a) || b != 0 || c != 0,
        _ => true,
    }
}

// Fault 23 of an instruction with so many numbers behind it: SHOW stands last and there only.
fn misplaced(kind: u16, behind: usize) -> bool
    ensures { result ≡ misplaced kind behind }
{
    (kind == SHOW) != (behind == 0)
}

// Fault 23. Here an instruction's place counts too: one function for both players, with this test as a closure, is no plainer than the one
// call of `any` that `player` has.
fn wrong_code(code: &[u16]) -> bool
    ensures { result ≡ wrong_code code.now }
{
    let (fours, _) = code.as_chunks::<4>();
    for (i, four) in fours.iter().enumerate() {
        if wrong_instruction(four) || misplaced(four[0], code.len() - 4 * (i + 1)) {
            return true;
        }
    }
    false
}

// Runs the code with what the patch gives the groups, and writes the lamps of the register that SHOW names into the first 64 bytes of
// `lamps`; or refuses by the first fault and writes nothing.
pub fn play(code: &[u16], patch: &[u16], lamps: &mut [u8]) -> Result<(), Refusal>
    ensures { Plays code.now patch.now lamps.old result lamps.new }
{
    player::check_lengths(code, INSTRUCTIONS, lamps)?;
    if wrong_code(code) {
        return Err(Refusal::WrongInstruction);
    }
    player::check_patch(patch)?;
    let last = code.len() - 4;
    let shown = usize::from(code[last + 1]);
    player::write_lamps(&code[..last], Form::TwoRegisters, shown, patch, lamps);
    Ok(())
}
