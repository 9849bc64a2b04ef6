// Laws of a slice as a list, of loops and of chains, in specs/. There is no code here.
#![tactic(auto)]
