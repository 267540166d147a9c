// Small widths are searched by the checker; there is no code here.
#![tactic(auto)]
