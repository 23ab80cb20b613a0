// No code: a whole day of rounds as definitions, and the laws that the statements about it cite.
#![tactic(auto)]
