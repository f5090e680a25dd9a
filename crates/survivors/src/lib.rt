// Which keys survive in words that were damaged, and what salvage answers and leaves, as definitions and laws, apart
// from the code that does it (`candidates`, `salvage`) and from the theorem about whole sequences (`history`), which
// needs these alone. A wrong definition is refused here in seconds.
#![tactic(auto)]
