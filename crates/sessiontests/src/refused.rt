// Texts that are refused, each with the line at fault; the definitions' answers to them stand in sessiontext's
// specs/Examples.antt.
use super::texts::refuses;
use testing::Tally;

pub fn all() -> Tally {
    let texts: [(&[u8], u8, usize); 19] = [
        // Lines that are missing or not ended.
        (b"", 16, 1),
        (b"\n", 16, 1),
        (b"degree=5", 16, 1),
        (b"degree=5\nshape=3,2\nclass=3,2\n", 16, 4),
        (
            b"degree=0\nshape=\nclass=\nsteps=0\nsettled=1\nlines=0",
            16,
            6,
        ),
        // Partitions and their degree.
        (b"degree=6\nshape=3,2\n", 16, 1),
        (b"degree=6\nshape=2,3\n", 16, 2),
        (b"degree=17\nshape=17\n", 16, 2),
        (b"degree=18446744073709551616\nshape=17\n", 16, 1),
        (b"degree=0\nshape=\nclass=9,8\n", 16, 3),
        // Numbers; the least settled sum can be held, and is not sound.
        (
            b"degree=0\nshape=\nclass=\nsteps=0\nsettled=-0\nlines=0\n",
            16,
            5,
        ),
        (
            b"degree=0\nshape=\nclass=\nsteps=0\nsettled=+1\nlines=0\n",
            16,
            5,
        ),
        (
            b"degree=0\nshape=\nclass=\nsteps=0\nsettled=01\nlines=0\n",
            16,
            5,
        ),
        (
            b"degree=0\nshape=\nclass=\nsteps=0\nsettled=-9223372036854775808\nlines=0\n",
            7,
            0,
        ),
        (
            b"degree=0\nshape=\nclass=\nsteps=0\nsettled=-9223372036854775809\nlines=0\n",
            16,
            5,
        ),
        (
            b"degree=0\nshape=\nclass=\nsteps=9223372036854775808\n",
            16,
            4,
        ),
        // Line 6 counts all that follow, whatever they hold; a line of two degrees is of the form, and not sound.
        (
            b"degree=0\nshape=\nclass=\nsteps=0\nsettled=1\nlines=0\nrest",
            16,
            6,
        ),
        (
            b"degree=0\nshape=\nclass=\nsteps=0\nsettled=1\nlines=1\nrest",
            16,
            7,
        ),
        (
            b"degree=0\nshape=\nclass=\nsteps=0\nsettled=1\nlines=2\nline=+;;\nline=-;2,1;16\n",
            7,
            0,
        ),
    ];
    let mut t = Tally::new();
    for (text, number, line) in texts {
        t = t.add(refuses(text, number, line));
    }
    t
}
