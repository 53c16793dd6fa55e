// No functions: definitions and laws that every crate above shares.
#![tactic(auto)]
