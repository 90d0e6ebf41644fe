// Laws of one strip over a row of cells. No code.
#![tactic(auto)]
