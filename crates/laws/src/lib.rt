// Theorems that belong to no function: what the crates below promise, put together. The statements are in specs/, one file for each
// matter, and the proofs under the same name in proofs/. There is no code here.
#![tactic(auto)]
