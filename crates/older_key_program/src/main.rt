// The same for the older player.
#![tactic(auto)]

use std::io;

fn main(rt: HostRuntime) -> io::Result<()> {
    print_key::print_key(&rt, printing::Device::Older)
}
