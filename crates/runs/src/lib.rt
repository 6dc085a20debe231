// Theorems about the machine's runs, with no bytes: they are those of the report's timed automaton, and demand 3 holds in their slots.
// The definitions and the statements are in specs/, the proofs in proofs/. There is no code here.
#![tactic(auto)]
