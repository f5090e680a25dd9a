// Writes the house tabulation to the file book.bin, which the console reads. A book.bin that is there already is never
// written over: it may be a station's own.
#![tactic(auto)]

ghost use Rattle.std.specs.Prelude.{◌≡◌, ◌↔◌, IsTrue};
ghost use Rattle.book.specs.Bytes.{bytes_of};

use std::fs::{File, OpenFile};
use std::io::{ErrorKind, Read, Write};
use std::rt::Files;
use std::{fs, io};

// The bytes of a book.
const BOOK_BYTES: usize = 5120;

fn encode(tabulation: &[u16; 2560], bytes: &mut [u8; BOOK_BYTES])
    ensures { bytes.new ≡ bytes_of tabulation.now }
{
    book::encode(tabulation, bytes);
}

fn same_book(one: &[u8; BOOK_BYTES], other: &[u8; BOOK_BYTES]) -> bool
    ensures { IsTrue result ↔ (one.now ≡ other.now) }
{
    one == other
}

// Whether an open file has these bytes and no more. One byte more would be a longer file.
fn holds(file: &mut impl Read, bytes: &[u8; BOOK_BYTES]) -> bool {
    let mut found = [0u8; BOOK_BYTES];
    let mut more = [0u8; 1];
    let full = file.read_exact(&mut found).is_ok();
    let rest = file.read(&mut more).unwrap_or(0);
    full && rest == 0 && same_book(&found, bytes)
}

// What to say of a book.bin that is there: nothing, if it has these bytes.
fn compare(rt: &(impl Files + Eprint + Alloc), path: &str, bytes: &[u8; BOOK_BYTES]) {
    match File::open(rt, path) {
        Ok(mut file) => {
            if !holds(&mut file, bytes) {
                let _ = eprintln!(rt; "{path}: is there and is not the house book, left as it is");
            }
        }
        Err(error) => complaint::tell(rt, path, error),
    }
}

// Writes the bytes into the new file. A file system may say only at the end that bytes are lost, and the close says
// nothing, so the file is synced.
fn write_out(file: &mut (impl Write + OpenFile), bytes: &[u8; BOOK_BYTES]) -> io::Result<()> {
    file.write_all(bytes)?;
    file.sync_all()
}

// Fills the new file. One that could not be filled is taken away again, since the next run would leave it as it is.
fn fill<R: Files + Eprint + Alloc>(
    rt: &R,
    mut file: R::File,
    path: &str,
    bytes: &[u8; BOOK_BYTES],
) {
    if let Err(error) = write_out(&mut file, bytes) {
        complaint::tell(rt, path, error);
        let _ = fs::remove_file(rt, path);
    }
}

fn save(rt: &(impl Files + Eprint + Alloc), bytes: &[u8; BOOK_BYTES]) {
    let path = "book.bin";
    match File::create_new(rt, path) {
        Ok(file) => fill(rt, file, path, bytes),
        Err(error) if error.kind() == ErrorKind::AlreadyExists => compare(rt, path, bytes),
        Err(error) => complaint::tell(rt, path, error),
    }
}

fn main(rt: HostRuntime) {
    let tabulation = house::house_tabulation();
    let mut bytes = [0u8; BOOK_BYTES];
    encode(&tabulation, &mut bytes);
    save(&rt, &bytes);
}
