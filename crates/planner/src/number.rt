// A whole number as a word writes it.

// The number with one more digit, if the byte is one and the number stays below 2^64.
fn with_digit(value: u64, byte: u8) -> Option<u64> {
    match byte {
        b'0'..=b'9' => value.checked_mul(10)?.checked_add(u64::from(byte - b'0')),
        _ => None,
    }
}

// The number below 2^64 that a word of digits writes, if it is one. By hand, since `parse` takes a sign and a third more time.
pub fn number(word: &str) -> Option<u64> {
    if word.is_empty() {
        return None;
    }
    word.bytes()
        .try_fold(0, |value: u64, byte| with_digit(value, byte))
}
