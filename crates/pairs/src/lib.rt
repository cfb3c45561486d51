// Pairs of bit maps, an allowed and a forbidden one: checked, spelled into marks and back, and compared. Contracts cite specs/Maps, and specs/Steps for the
// parts.
// Arrays have a fixed size: nothing here allocates.
#![tactic(auto)]

pub mod changes;
pub mod check;
pub mod spelling;
