// The rule of the trade, "no passage travels without its controllers", as a theorem: a passage that is cut out plays as it plays in the
// song. Nothing here runs: specs/Player.antt says what a player has at a time, and proofs/Passage.antt that the full cut keeps it.
#![tactic(auto)]
