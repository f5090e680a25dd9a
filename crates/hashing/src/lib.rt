// The hash of a key as definitions and laws, apart from the code that works it out, in `ranges`, `slots` and
// `tabulation`: a wrong definition is refused in seconds here.
#![tactic(auto)]
