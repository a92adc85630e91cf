// The opening report (document 02, E14): reads at most 65,537 bytes, one more than is reported, so that longer input is seen, and writes the report. A failed
// read is said on standard error, and nothing is reported: a report of half an input would look whole.
#![tactic(auto)]

use program_streams::{Failure, ended, has_arguments, read_start, used_otherwise, write};
use std::process::ExitCode;

fn report(rt: &(impl Input + Print)) -> Result<(), Failure> {
    let mut input = [0u8; 65537];
    let n = read_start(&mut rt.reader(), &mut input)?;
    let mut out = [0u8; 65600];
    let m = report::report(&input[..n], &mut out);
    write(rt, &out[..m])
}

fn main(rt: HostRuntime) -> ExitCode {
    // with arguments it does not wait for input: a line of usage, and nothing on standard output
    if has_arguments(&rt) {
        return used_otherwise(
            &rt,
            "usage: report_openings < RECORDS; it takes no arguments",
        );
    }
    ended(&rt, "report_openings", report(&rt))
}
