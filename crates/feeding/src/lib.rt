// Feeding a list of keys one by one, the refused ones skipped: definitions and theorems alone, in specs/. How many are
// listed at the end does not depend on the order in which they come. There is no code here.
#![tactic(auto)]
