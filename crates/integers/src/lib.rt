// Laws of integers and of their bits. There is no code here.
#![tactic(auto)]
