#![tactic(auto)]

// The samples of the scope paper, S1 to S10, as one proved statement over all layers: proofs/Samples; and a month of ten roles with its sheet:
// proofs/SheetSamples. There is no code here.
