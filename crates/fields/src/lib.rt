// A field of a line: where it ends, which number it writes; and two numbers parted by a comma, which both forms of a
// line have. Every promise is equality with a definition of `grammar`.
#![tactic(auto)]

ghost use Rattle.std.specs.Prelude.{suc, ◌<◌, ◌≡◌, length, take, drop, MatchOption, ◌==◌, position};
ghost use Rattle.grammar.specs.Number.{no_leading_zero, number_of};
ghost use Rattle.grammar.specs.Parted.{comma, place_of};
ghost use Rattle.grammar.specs.Command.{pair_of};

use grammar::COMMA;

// Where a byte first stands: the end of a field, with COMMA, and of a line, with NEWLINE.
pub fn find(bytes: &[u8], byte: u8) -> Option<usize>
    ensures { result ≡ position (λ b. b == byte) bytes.now }
{
    bytes.iter().position(|b| *b == byte)
}

// What stands before the first comma of a text, and what stands behind it.
pub fn split_once(text: &[u8]) -> Option<(&[u8], &[u8])>
    ensures { let end = place_of comma text.now in
        MatchOption result (end ≡ length text.now) (λ parts. (end < length text.now)
        × (parts.0.now ≡ take end text.now) × (parts.1.now ≡ drop (suc end) text.now)) }
{
    let end = find(text, COMMA)?;
    Some((&text[..end], &text[end + 1..]))
}

// Whether a text is not empty, and begins with 0 only if that is all of it.
fn starts_well(text: &[u8]) -> bool
    ensures { result ≡ no_leading_zero text.now }
{
    match text {
        [] => false,
        [_] => true,
        [first, ..] => *first != b'0',
    }
}

// The number that a text writes in decimal, without a leading zero and below 2^32.
pub fn number_in(text: &[u8]) -> Option<u32>
    ensures { result ≡ number_of text.now }
{
    if !starts_well(text) {
        return None;
    }
    let mut n: u32 = 0;
    for b in text {
        if !b.is_ascii_digit() {
            return None;
        }
        let tens = n.checked_mul(10)?;
        n = tens.checked_add(u32::from(*b - b'0'))?;
    }
    Some(n)
}

// Two numbers parted by a comma: what line 1 has behind its first comma, and an add behind its letter.
pub fn pair_of(text: &[u8]) -> Option<(u32, u32)>
    ensures { result ≡ pair_of text.now }
{
    let (first, second) = split_once(text)?;
    let a = number_in(first)?;
    let b = number_in(second)?;
    Some((a, b))
}
