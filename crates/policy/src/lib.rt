// A policy's marks: checked, copied, read into rows of bits, what they let a choice reach and a star renew, and decided marks written from rows.
// Contracts cite specs/Marks, specs/Reached and specs/Renewed; specs/Steps for the parts.
// Arrays have a fixed size: nothing here allocates.
#![tactic(auto)]

pub mod marks;
pub mod packed;
pub mod reach;
pub mod renew;
pub mod rows;
pub mod write;
