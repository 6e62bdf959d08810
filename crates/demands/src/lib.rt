#![tactic(auto)]

// The mission's three demands, over the code's own promises. The definitions are in specs/, the theorems in proofs/; there is no code here.
