#![tactic(auto)]

// The Rust's machine as functions on values, and agreement with it. The definitions are in specs/, the theorem in proofs/; there is no code here.
