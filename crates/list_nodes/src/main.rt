// The listing program: reads at most 64 bytes, which decide what it lists, and writes the listing. A failed read is said on standard error, and
// nothing is listed.
#![tactic(auto)]

use program_streams::{Failure, ended, has_arguments, read_start, used_otherwise, write};
use std::process::ExitCode;

fn list(rt: &(impl Input + Print)) -> Result<(), Failure> {
    let mut input = [0u8; 64];
    let n = read_start(&mut rt.reader(), &mut input)?;
    let mut out = [0u8; 4096];
    let m = listing::list_read(input, n, &mut out);
    write(rt, &out[..m])
}

fn main(rt: HostRuntime) -> ExitCode {
    // with arguments it does not wait for input: a line of usage, and nothing on standard output
    if has_arguments(&rt) {
        return used_otherwise(
            &rt,
            "usage: list_nodes < LINE, which has tau, k, w, T and the challenge; it takes no arguments",
        );
    }
    ended(&rt, "list_nodes", list(&rt))
}
