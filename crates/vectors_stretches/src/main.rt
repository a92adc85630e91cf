// Runs the cases of `stdin`: commit and reconstruct of a stretch of the rows, with open between them. `stdout` holds what the second implementation prints of
// the same file: `reference cases`.
#![tactic(auto)]

use std::io;

fn main(rt: HostRuntime) -> io::Result<()> {
    run_cases::run(&rt)
}
