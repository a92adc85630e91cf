// Runs the cases of `stdin`: the calls of version 1 of FAEST (document 02, E12). `stdout` holds what the second implementation prints of the same file:
// `reference cases`.
#![tactic(auto)]

use std::io;

fn main(rt: HostRuntime) -> io::Result<()> {
    run_cases::run(&rt)
}
