// Facts on choices, bits and lists that several crates cite: definitions in specs/, laws in proofs/, no code.
#![tactic(auto)]
