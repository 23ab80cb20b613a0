// Numbers modulo q, and primes: definitions and laws alone. There is no code to run.
#![tactic(auto)]
