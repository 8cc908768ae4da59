// The conjugate of a shape, against the transposed partition by counting rows.
use super::columns::{Kind, written};

// The transposed partition, to rows of zeros: one more in as many rows as each part is long.
fn transpose(parts: &[u8], rows: &mut [u8]) {
    for part in parts {
        for row in rows.iter_mut().take(usize::from(*part)) {
            *row = row.wrapping_add(1);
        }
    }
}

// Whether a shape word is that of the transposed partition.
fn turns(word: u32, parts: &[u8]) -> bool {
    let mut rows = [0u8; 17];
    transpose(parts, &mut rows);
    let longest = parts.first().map_or(0, |part| usize::from(*part));
    rows.get(..longest)
        .is_some_and(|turned| written(Kind::Shape, word, turned, longest))
}

// Whether the conjugate of a shape word is the transposed partition, and the conjugate of that is the word again.
pub fn agrees(word: u32, parts: &[u8]) -> bool {
    let turned = words::shapes::conjugate(word);
    turned.is_ok_and(|turned| {
        (words::shapes::conjugate(turned) == Ok(word)) & turns(turned, parts)
    })
}
