// The calls on lent buffers, and cases of them: what the command line of reference/ prints of each call.
#![tactic(auto)]

mod calls;
mod cases;
mod lists;
mod print;

pub use calls::{Call, Lent};
pub use cases::{Buffers, Inputs, run_case};
pub use lists::ListCall;
pub use print::{print_answer, print_buffer};
