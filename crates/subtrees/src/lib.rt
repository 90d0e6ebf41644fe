// Laws only: the subtree of a piece as code walks it, and lists that begin with a tree in preorder.
#![tactic(auto)]
