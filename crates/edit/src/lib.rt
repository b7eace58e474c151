// The edit: document 01, "The edit".
#![tactic(auto)]

use paper::Refusal;

// A yes to an edit, with the new length.
#[derive(Clone, Copy)]
pub enum Edited {
    Joined(usize),
    Accepted(usize),
}

// An edit, answered.
pub type Outcome = Result<Edited, Refusal>;
