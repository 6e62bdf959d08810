#![tactic(auto)]

// Demand 3 of the mission over 01's machine. Its definitions are in specs/, the theorem in proofs/; there is no code here.
