// Reads and writes that pass over what is out of range.

// The word at a place, or 0.
pub(crate) fn get(words: &[u32], at: usize) -> u32 {
    words.get(at).copied().unwrap_or(0)
}

// Writes a word at a place, if there is one.
pub(crate) fn put(words: &mut [u32], at: usize, word: u32) {
    if let Some(place) = words.get_mut(at) {
        *place = word;
    }
}
