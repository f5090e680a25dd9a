// What bulk load answers and leaves, as definitions and laws, apart from the code that does it (`bulk_load`) and from
// the theorem about whole sequences (`history`), which needs these alone. A wrong definition is refused here in
// seconds.
#![tactic(auto)]
