// Which numbers of 32 bits pass for primes at base 2 and are none: the list, and the proof that it is whole. There is no code to run.
#![tactic(auto)]
