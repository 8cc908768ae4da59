// The table program (document 01, "Table program"): writes the table of the degree that standard input asks for.

#![tactic(auto)]

ghost use Rattle.std.specs.Prelude.{◌≡◌, ◌≤◌, length, take, IfOk, IfSome};

use std::io;
use std::io::Read;

fn room() -> [u8; tabletext::ROOM] {
    [0; tabletext::ROOM]
}

// Reads until a buffer is full or the input ends, and counts the bytes that it put at the buffer's front: where a
// reader's bytes are known, the first ones, as many as the buffer has room for. They come one by one, since `bytes` goes
// on where a signal broke off a read, and `read` does not.
fn read_full<R: Read + Drop>(reader: R, buffer: &mut [u8]) -> io::Result<usize>
    ensures fits { IfOk result (λ n. n ≤ length buffer.new) }
    ensures bytes { IfOk result (λ n. IfSome (R.remaining reader)
        (λ xs. take n buffer.new ≡ take (length buffer.new) xs)) }
{
    let mut bytes = reader.bytes();
    let mut count = 0;
    while count < buffer.len() {
        match bytes.next() {
            None => break,
            Some(byte) => buffer[count] = byte?,
        }
        count += 1;
    }
    Ok(count)
}

// An input of 64 bytes or more is answered as its first 64 bytes are (`long-input` of tabletext), so no more are read.
fn main(rt: HostRuntime) -> io::Result<()> {
    let mut input = [0u8; 64];
    let count = read_full(rt.stdin(), &mut input)?;
    let mut out = room();
    let length = tabletext::answer(&input[..count], &mut out);
    rt.write_all(&out[..length])
}
