// What the program's input asks for.
ghost use Rattle.std.specs.Prelude.{◌≡◌, slice_get};
ghost use Rattle.tabletext.specs.Table.{asked as askedNumbers};

// The number of one or two digits whose line the input is, if it is one's: the number that its digits give is written
// out and compared with it.
pub fn asked(input: &[u8]) -> Option<u32>
    ensures { result ≡ slice_get (askedNumbers input.now) 0 }
{
    let n = textreading::number_in(input);
    if 99 < n {
        return None;
    }
    let mut line = [0u8; 10];
    let end = text::fields::line(b"degree=", n, &mut line, 0);
    if check::same(input, &line[..end]) {
        Some(n as u32)
    } else {
        None
    }
}
