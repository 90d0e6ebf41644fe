// Laws alone, in specs/: the job sheet's text is read as what was written, and written as what was read.
#![tactic(auto)]
