// No functions: the manager as definitions, and demand 3 proved of them.
#![tactic(auto)]
