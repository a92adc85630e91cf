// What the programs share that list or report what they read: whether they were given arguments, the start of standard input, and a failed read or write,
// which is said on standard error.
#![tactic(auto)]

ghost use Rattle.std.specs.Prelude.{◌≡◌, ◌≤◌, length, take, IfOk, IfSome};

use std::env::FillError;
use std::io::Read;
use std::process::ExitCode;
use std::rt::Env;
use std::{fmt, io};

// Which stream failed, and why.
#[derive(Debug, Drop)]
pub enum Failure {
    Input(io::Error),
    Output(io::Error),
}

impl fmt::Display for Failure {
    fn fmt<W: fmt::Write>(&self, f: &mut fmt::Formatter<W>) -> fmt::Result {
        match self {
            Failure::Input(e) => write!(f, "standard input: {e}"),
            Failure::Output(e) => write!(f, "standard output: {e}"),
        }
    }
}

// Whether a program was given arguments.
pub fn has_arguments(rt: &impl Env) -> bool {
    let mut argument = [0u8; 1];
    !matches!(rt.arg(1, &mut argument), Err(FillError::NotPresent))
}

// Reads until the buffer is full or the input ends, and answers how many bytes of the buffer were read: the first bytes of the input, all that it has or as
// many as the buffer has room for. The loop is a `while`, since a read may give fewer bytes than there is room for.
pub fn read_start<R: Read>(input: &mut R, buffer: &mut [u8]) -> Result<usize, Failure>
    ensures within { IfOk result (λ n. n ≤ length buffer.new) }
    ensures bytes { IfOk result (λ n. IfSome (R.remaining input.old) (λ xs. take n buffer.new ≡ take (length buffer.old) xs)) }
{
    let mut n = 0;
    while n < buffer.len() {
        match input.read(&mut buffer[n..]) {
            Ok(0) => break,
            Ok(more) => n += more,
            Err(e) => return Err(Failure::Input(e)),
        }
    }
    Ok(n)
}

// Writes the bytes to standard output.
pub fn write(rt: &impl Print, bytes: &[u8]) -> Result<(), Failure> {
    rt.write_all(bytes).map_err(Failure::Output)
}

// How a program ends: what failed is said on standard error, behind the name of the program.
pub fn ended(rt: &impl Eprint, program: &str, outcome: Result<(), Failure>) -> ExitCode {
    match outcome {
        Ok(()) => ExitCode::SUCCESS,
        Err(failure) => {
            // there is nowhere left to say that standard error cannot be written
            let _ = eprintln!(rt; "{program}: {failure}");
            ExitCode::FAILURE
        }
    }
}

// How a program ends that was given arguments, and reads nothing: with a line of usage on standard error.
pub fn used_otherwise(rt: &impl Eprint, usage: &str) -> ExitCode {
    let _ = rt.eprintln(usage);
    ExitCode::SUCCESS
}

#[cfg(test)]
mod tests {
    use super::*;
    use std::test::Fail;

    // An input of one byte, which cannot be read behind it.
    #[derive(Drop)]
    struct Broken {
        read: bool,
    }

    impl Read for Broken {
        fn read(&mut self, buffer: &mut [u8]) -> io::Result<usize> {
            if self.read {
                return Err(io::Error::other("gone"));
            }
            self.read = true;
            match buffer.first_mut() {
                Some(first) => {
                    *first = 7;
                    Ok(1)
                }
                None => Ok(0),
            }
        }
    }

    #[test]
    fn half_an_input_is_none(rt: HostRuntime) -> Result<(), Fail> {
        let mut buffer = [0u8; 4];
        match read_start(&mut Broken { read: false }, &mut buffer) {
            Ok(_) => assert!(rt; false, "half an input was taken for a whole one"),
            Err(failure) => {
                let said = format!(in rt.alloc(); "{failure}")?;
                assert_eq!(rt; said.as_str(), "standard input: gone");
            }
        }
        Ok(())
    }

    #[test]
    fn output_is_named(rt: HostRuntime) -> Result<(), Fail> {
        let failure = Failure::Output(io::Error::other("full"));
        let said = format!(in rt.alloc(); "{failure}")?;
        assert_eq!(rt; said.as_str(), "standard output: full");
        Ok(())
    }
}
