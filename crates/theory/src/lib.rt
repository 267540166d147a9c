// The theory of longest match and of the smallest table has no code of its own.
#![tactic(auto)]
