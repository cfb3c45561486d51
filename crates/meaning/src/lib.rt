#![tactic(auto)]

// What a verdict means: the trees that a table describes, the edits on them, and theorem 1 of document 000. There is no code here: specs/ has the
// definitions, proofs/Theorem the theorem and proofs/Answers what it says of the calls.
