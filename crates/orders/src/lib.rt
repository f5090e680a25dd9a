// Keys inserted one by one, in any order: definitions and theorems alone (specs/), over whole sequences of calls. Where
// all fit, every order leaves the words of a bulk load; where not, every order lists equally many.
#![tactic(auto)]
