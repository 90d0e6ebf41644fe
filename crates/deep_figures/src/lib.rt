// Figures only: see specs/Lib.antt.
#![tactic(auto)]
