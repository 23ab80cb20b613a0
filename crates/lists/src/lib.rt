// Lists, sums, searches and bits: definitions and laws alone. There is no code to run.
#![tactic(auto)]
