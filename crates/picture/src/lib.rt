// Request 13, that every order of writes paints the same picture: definitions and the theorem. No code.
#![tactic(auto)]
