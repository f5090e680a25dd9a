// From ranks and their edges to the canonical image, as definitions and theorems: the passes on lists, that they give
// what `cuckoo` defines, and how they lie in scratch. The code is in `scratch_layout` (the words of scratch), `linking`
// (steps 1 and 2), `noting` (steps 3 and 4) and `seating` (steps 5 and 6, and the whole).
#![tactic(auto)]
