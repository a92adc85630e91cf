// Runs the cases of `stdin`: the calls of version 2. `stdout` holds what the second implementation prints of the same file: `reference cases`.
#![tactic(auto)]

use std::io;

fn main(rt: HostRuntime) -> io::Result<()> {
    run_cases::run(&rt)
}
