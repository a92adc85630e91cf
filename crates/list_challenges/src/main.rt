// The program that lists all challenges of a small shape (document 02, E10): reads at most 64 bytes, which decide what it lists, and writes the output piece
// after piece. A failed read is said on standard error, and nothing is listed.
#![tactic(auto)]

ghost use Rattle.enumeration.specs.Pieces.{Readable};

use enumeration::Reading;
use program_streams::{Failure, ended, has_arguments, read_start, used_otherwise, write};
use std::process::ExitCode;

// Writes every piece, or stops at the first that cannot be written.
fn write_pieces(rt: &impl Print, r: Reading) -> Result<(), Failure>
    requires { Readable r }
{
    let mut out = [0u8; 65536];
    for i in 0..enumeration::piece_count(r) {
        let m = enumeration::put_piece(r, i, &mut out);
        write(rt, &out[..m])?;
    }
    Ok(())
}

fn list(rt: &(impl Input + Print)) -> Result<(), Failure> {
    let mut input = [0u8; 64];
    let n = read_start(&mut rt.reader(), &mut input)?;
    write_pieces(rt, enumeration::read_start(input, n))
}

fn main(rt: HostRuntime) -> ExitCode {
    // with arguments it does not wait for input: a line of usage, and nothing on standard output
    if has_arguments(&rt) {
        return used_otherwise(
            &rt,
            "usage: list_challenges < LINE, which has tau, k, w and T; it takes no arguments",
        );
    }
    ended(&rt, "list_challenges", list(&rt))
}
