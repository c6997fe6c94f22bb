// Reads a sheet from standard input and prints its key, by the move table in its argument's file or, without an argument, by ours.
#![tactic(auto)]

use std::io;

fn main(rt: HostRuntime) -> io::Result<()> {
    print_key::print_key(&rt, printing::Device::Newer)
}
