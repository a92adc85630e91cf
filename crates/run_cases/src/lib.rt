// A file of cases on standard input, one a line: each is read, its calls are made, and what the command line of reference/ prints of them is printed. A line
// that is empty, or that begins with #, is none. A line that cannot be read is said, and ends the run. reference/README.md has the forms.
#![tactic(auto)]

mod case;

use case::Case;
use std::io;
use std::io::Read;

// Runs the cases of a file.
fn run_file(rt: &(impl Print + AllocGlobal), file: &[u8]) -> io::Result<()> {
    for (i, line) in file.split(|byte| *byte == b'\n').enumerate() {
        if line.is_empty() || line.starts_with(b"#") {
            continue;
        }
        match Case::read(line) {
            Ok(case) => case.run(rt)?,
            Err(error) => return println!(rt; "line {} {error}", i + 1),
        }
    }
    Ok(())
}

// Runs the cases of standard input, which has at most 65,535 bytes.
pub fn run(rt: &(impl Print + Input + AllocGlobal)) -> io::Result<()> {
    let mut file = Vec::new(rt.alloc());
    rt.reader().take(65536).read_to_end(&mut file)?;
    if 65536 <= file.len() {
        return println!(rt; "the file is too long");
    }
    run_file(rt, &file)
}
