// The cases that document 01 marks under "Both sides of a line". Nothing here runs: specs/Marked.antt states them,
// one field to a case in the document's order, and proofs/Table.antt is the one value that has them all.
#![tactic(auto)]
