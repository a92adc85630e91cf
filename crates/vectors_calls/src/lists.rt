// Decode and plan on the front of a list of 512 numbers, and what the command line of reference/ prints of each.
ghost use Rattle.std.specs.Prelude.{◌≤◌};

use crate::print::{print_answer, print_list};
use case_text::Bytes;
use spec::{Answer, Shape};
use std::io;

// A call that writes a list of numbers.
#[derive(Clone, Copy)]
pub enum ListCall {
    Decode,
    Plan,
}

impl ListCall {
    // How many numbers decode writes, and how many plan is lent. Of a shape that is refused any number will do.
    pub fn exact(self, shape: Shape) -> usize
        ensures { result ≤ 512 }
    {
        let s = rules::resolve(shape);
        let n = match self {
            ListCall::Decode => s.tau,
            ListCall::Plan => s.t,
        };
        n.min(512)
    }

    // The call, lent the first n numbers of a list, or all where there are fewer.
    pub fn make(self, s: Shape, challenge: &[u8], list: &mut [u32], n: usize) -> Answer {
        let m = n.min(list.len());
        let front = &mut list[..m];
        match self {
            ListCall::Decode => shape::decode(s, challenge, front),
            ListCall::Plan => shape::plan(s, challenge, front),
        }
    }

    // The call, and what `reference decode` or `reference plan` prints.
    pub fn run(self, rt: &impl Print, s: Shape, challenge: &Bytes) -> io::Result<()> {
        let n = self.exact(s);
        let mut list = [0u32; 512];
        let r = self.make(s, challenge.as_slice(), &mut list, n);
        print_answer(rt, r)?;
        if r.number != 0 {
            return Ok(());
        }
        match self {
            ListCall::Decode => print_list(rt, "indices", &list[..n]),
            ListCall::Plan => print_list(rt, "nodes", &list[..r.count.min(512)]),
        }
    }
}
