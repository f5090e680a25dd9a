// Bytes and numbers written into a lent slice at a position; the answer is where the next one goes. Every promise is
// `Written`.
#![tactic(auto)]

ghost use Rattle.std.specs.Prelude.{◌+◌, ◌≤◌, ◌<◌, ◌≡◌, [], ◌∷◌, length};
ghost use Rattle.grammar.specs.Decimal.{digit as Digit, decimal};
ghost use Rattle.grammar.specs.Parted.{comma};
ghost use Rattle.writing.specs.Written.{Written};

use grammar::COMMA;

// One byte of output.
pub fn put_byte(out: &mut [u8], at: usize, byte: u8) -> usize
    requires { at < length out.old }
    ensures { Written (byte ∷ []) out.old at out.new result }
{
    out[at] = byte;
    at + 1
}

// How many digits a number has: a `while`, since the number that is left says when it is done.
fn digits(n: u64) -> usize
    ensures { result ≡ length (decimal n) }
{
    let mut k = 1;
    let mut rest = n;
    while 9 < rest {
        rest /= 10;
        k += 1;
    }
    k
}

fn digit(d: u64) -> u8
    requires { d < 10 }
    ensures { result ≡ Digit d }
{
    48 + d as u8
}

// A number in decimal, from its last digit to its first: a `while` that goes by the number, too.
fn put_number(out: &mut [u8], at: usize, n: u64) -> usize
    requires { at + length (decimal n) ≤ length out.old }
    ensures { Written (decimal n) out.old at out.new result }
{
    let end = at + digits(n);
    let mut i = end;
    let mut rest = n;
    while 9 < rest {
        i -= 1;
        out[i] = digit(rest % 10);
        rest /= 10;
    }
    out[i - 1] = digit(rest);
    end
}

// A number of 32 bits.
pub fn put_word(out: &mut [u8], at: usize, n: u32) -> usize
    requires { at + 10 ≤ length out.old }
    ensures written { Written (decimal n) out.old at out.new result }
    ensures short { result ≤ at + 10 }
{
    put_number(out, at, n as u64)
}

// A number of 64 bits.
pub fn put_long(out: &mut [u8], at: usize, n: u64) -> usize
    requires { at + 20 ≤ length out.old }
    ensures written { Written (decimal n) out.old at out.new result }
    ensures short { result ≤ at + 20 }
{
    put_number(out, at, n)
}

// A comma and a number of 32 bits.
pub fn put_field(out: &mut [u8], at: usize, n: u32) -> usize
    requires { at + 11 ≤ length out.old }
    ensures written { Written (comma ∷ decimal n) out.old at out.new result }
    ensures short { result ≤ at + 11 }
{
    let start = put_byte(&mut *out, at, COMMA);
    put_word(&mut *out, start, n)
}
