// Demand 3 of the calls that run: a series of cycle calls, each handed what the one before left. Nothing here runs: specs/Calls.antt says
// what such a series is where table, budget and list are lent, specs/Events.antt which of the events that it adds are a target's own,
// and proofs/ has the theorems.
#![tactic(auto)]
