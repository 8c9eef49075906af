// Laws on lists that several crates cite, each stated once over any type of element. No code.
#![tactic(auto)]
