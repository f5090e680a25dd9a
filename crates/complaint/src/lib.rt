// What the programs say on standard error where the system refuses a read or a write.
#![tactic(auto)]

use std::io;

// The system's text of an error, without its number.
fn system_text(told: &str) -> &str {
    told.split_once(" (os error ")
        .map_or(told, |(text, _)| text)
}

// Says what failed, and the system's text of it; with its number where no memory is left. If that cannot be said
// either, nothing is left to say it on.
pub fn tell(rt: &(impl Eprint + Alloc), failed: &str, error: io::Error) {
    let _ = match format!(in rt.alloc(); "{error}") {
        Ok(told) => eprintln!(rt; "{failed}: {}", system_text(&told)),
        Err(_) => eprintln!(rt; "{failed}: {error}"),
    };
}
