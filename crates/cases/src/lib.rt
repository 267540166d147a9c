// The cases of document 01 are proved of the definitions; there is no code here.
#![tactic(auto)]
