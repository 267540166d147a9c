// No code: what any run of the calls keeps, from zeroed memory on, stands in specs/ and is proved in proofs/.
#![tactic(auto)]
