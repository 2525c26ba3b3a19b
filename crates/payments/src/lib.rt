// What writes take of a budget, and what they become that fits. Nothing here runs: specs/ has the words, told once for
// curves, waves, sines, cycles and the lists of a note, which differ only in what is written and on what terms;
// proofs/ has what follows from them over any terms.
#![tactic(auto)]
