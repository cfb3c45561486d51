#![tactic(auto)]

// Worked examples of DTD text, as one proved statement: proofs/Samples. There is no code here.
