// General definitions and laws about tests, sets and lists, which the crates above share. No code.
#![tactic(auto)]
