// The canonical image of a set of keys: definitions and theorems alone, in specs/. There is no code here.
#![tactic(auto)]
