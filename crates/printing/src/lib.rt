// What a key says and the bytes that say it, in specs/Key.antt; and the lines of a code's instructions, written.
#![tactic(auto)]

ghost use Rattle.std.specs.Prelude.{◌+◌, ◌≤◌, length};
ghost use Rattle.tree.specs.InnerWriting.{Wrote};
ghost use Rattle.text.specs.Line.{line, lines};
ghost use Rattle.player.specs.Instructions.{operation_with};
ghost use Rattle.printing.specs.Key.{word_of};
ghost use Rattle.printing.specs.Inner.{row_text, four_row, code_rows};

// 01's player, and the older one of request 8. An enum and no trait: only `put_one` and `key`'s `encode_for` ask for it, each in one match,
// and a trait would want ghost members for all that specs/ says of a device by value.
#[derive(Clone, Copy)]
pub enum Device {
    Newer,
    Older,
}

// Writes the line of an operation with the numbers that a device has in it.
fn put_operation(kind: u16, numbers: &[usize], out: &mut [u8], at: usize) -> usize
    requires { at + length (line (word_of (operation_with kind)) numbers.now) ≤ length out.old }
    ensures { Wrote out.old at out.new result (line (word_of (operation_with kind)) numbers.now) }
{
    match kind {
        player::ADD => text::put_line(b"ADD", numbers, out, at),
        player::CUT => text::put_line(b"CUT", numbers, out, at),
        _ => text::put_line(b"BOTH", numbers, out, at),
    }
}

// Writes the line of a device's instruction, unused numbers left out.
fn put_one(device: Device, four: &[u16; 4], out: &mut [u8], at: usize) -> usize
    requires { at + length (row_text (four_row device four.now)) ≤ length out.old }
    ensures { Wrote out.old at out.new result (row_text (four_row device four.now)) }
{
    let [kind, a, b, c] = *four;
    let (a, b, c) = (usize::from(a), usize::from(b), usize::from(c));
    match (device, kind) {
        (_, player::LOAD) => text::put_line(b"LOAD", &[a, b], out, at),
        (Device::Newer, _) => put_operation(kind, &[a, b, c], out, at),
        (Device::Older, older_player::SHOW) => text::put_line(b"SHOW", &[a], out, at),
        (Device::Older, _) => put_operation(kind, &[a, b], out, at),
    }
}

// Writes the lines of a code's instructions, four numbers each.
pub fn put_code(device: Device, code: &[u16], out: &mut [u8], at: usize) -> usize
    requires { at + length (lines (code_rows device code.now)) ≤ length out.old }
    ensures { Wrote out.old at out.new result (lines (code_rows device code.now)) }
{
    let mut next = at;
    let (fours, _) = code.as_chunks::<4>();
    for four in fours {
        next = put_one(device, four, out, next);
    }
    next
}
