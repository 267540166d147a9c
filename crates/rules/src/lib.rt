// The rules of document 01 are definitions; the code that obeys them stands in the crates above.
#![tactic(auto)]
