// Laws of exact arithmetic on the integers, in specs/. There is no code here.
#![tactic(auto)]
