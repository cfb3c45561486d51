#![tactic(auto)]

// What DTD text says: the table of its declarations, and the languages of both. There is no code here: specs/ has the definitions, proofs/Same the law
// that the text and its table have the same language.
