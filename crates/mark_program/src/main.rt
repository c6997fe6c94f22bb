// Marks the drawing in its second argument's file against the question sheet in its first argument's, and prints the mark or the
// refusal. All the work is `marking`'s.
#![tactic(auto)]

use std::io;

fn main(rt: HostRuntime) -> io::Result<()> {
    let mut question = [0u8; sheet::ENOUGH_BYTES];
    let asked = input::read_named(&rt, 1, &mut question);
    let mut candidate = [0u8; sheet::ENOUGH_BYTES];
    let drawn = input::read_named(&rt, 2, &mut candidate);
    let marking = marking::mark(&question[..asked], &candidate[..drawn]);
    let line = marking::mark_line(marking);
    output::print(&rt, &line.bytes, line.count)
}
