// The signing half: its public calls, commit with its form for a stretch of the rows, and open.
#![tactic(auto)]

pub use signer_commit::{commit, commit_stretch};
pub use signer_open::open;
