#![tactic(auto)]

// The ICWS'94 draft's step, and agreement with it. The definitions are in specs/, the theorem in proofs/; there is no code here.
