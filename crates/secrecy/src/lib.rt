// What secrecy means here: definitions and theorems alone. The layers above cite them; there is no code to run.
#![tactic(auto)]
