// The laws that every other crate cites. Nothing here runs: specs/ has the words in which rules about
// numbers, lists and tables are said, proofs/ what follows from them, each stated once over the width,
// the count, the element, the test or the order.
#![tactic(auto)]
