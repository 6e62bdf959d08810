#![tactic(auto)]

// The round trip of match files: definitions in specs/, theorems in proofs/. There is no code here.
