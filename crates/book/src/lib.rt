// The bytes of book.bin, in which a tabulation is kept: each entry as two bytes, the low byte first. Both ways, with no
// file in sight.
#![tactic(auto)]

ghost use Rattle.std.specs.Prelude.{◌*◌, ◌≡◌, length};
ghost use Rattle.book.specs.Bytes.{bytes_of, entries_of};

// The bytes of the entries.
pub fn encode(entries: &[u16], bytes: &mut [u8])
    requires { length bytes.old ≡ 2 * length entries.now }
    ensures { bytes.new ≡ bytes_of entries.now }
{
    for (i, entry) in entries.iter().enumerate() {
        let [low, high] = entry.to_le_bytes();
        bytes[2 * i] = low;
        bytes[2 * i + 1] = high;
    }
}

// The entries of the bytes.
pub fn decode(bytes: &[u8], entries: &mut [u16])
    requires { length bytes.now ≡ 2 * length entries.old }
    ensures { entries.new ≡ entries_of bytes.now }
{
    for (i, entry) in entries.iter_mut().enumerate() {
        *entry = u16::from_le_bytes([bytes[2 * i], bytes[2 * i + 1]]);
    }
}
