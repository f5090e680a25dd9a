// The forms of a line: line 1, and the others, read from its bytes. Every promise is equality with a definition of
// `grammar`.
#![tactic(auto)]

ghost use Rattle.std.specs.Prelude.{◌≡◌};
ghost use Rattle.grammar.specs.Command.{command_of};
ghost use Rattle.grammar.specs.Sizes.{sizes_of};

use fields::{number_in, pair_of, split_once};
use grammar::{COMMA, Command, Sizes};

// Three numbers parted by commas: line 1.
pub fn sizes_of(text: &[u8]) -> Option<Sizes>
    ensures { result ≡ sizes_of text.now }
{
    let (first, behind) = split_once(text)?;
    let r = number_in(first)?;
    let (s, station) = pair_of(behind)?;
    Some(Sizes { r, s, station })
}

// Any other line.
pub fn command_of(line: &[u8]) -> Option<Command>
    ensures { result ≡ command_of line.now }
{
    let [letter, COMMA, behind @ ..] = line else {
        return None;
    };
    match *letter {
        b'A' => {
            let (key, tier) = pair_of(behind)?;
            Some(Command::Insert(key, tier))
        }
        b'W' => Some(Command::Remove(number_in(behind)?)),
        b'L' => Some(Command::Lookup(number_in(behind)?)),
        _ => None,
    }
}
