#![tactic(auto)]

// The grammar of DTD text: which bytes are element declarations, and the tree that they are. There is no code here: specs/ has the definitions,
// proofs/OneTree the law that a text has at most one tree.
