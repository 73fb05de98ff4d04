// Marks: a bit for each place, eight to a byte from the lowest bit on. Past the last byte no place is marked.

pub(crate) fn is_marked(marks: &[u8], c: usize) -> bool {
    marks.get(c / 8).is_some_and(|m| (*m >> (c % 8)) % 2 == 1)
}

pub(crate) fn mark(marks: &mut [u8], c: usize) {
    if let Some(m) = marks.get_mut(c / 8) {
        *m |= 1u8 << (c % 8);
    }
}
