// Definitions and theorems alone (specs/): what whole sequences of calls answer and leave, against a reference model.
#![tactic(auto)]
