// Numbers in decimal digits.

/// The number that these decimal digits spell, where it has 64 bits.
pub(crate) fn read_number(digits: &[u8]) -> Option<u64> {
    if digits.is_empty() {
        return None;
    }
    let mut number = 0u64;
    for digit in digits {
        if !digit.is_ascii_digit() {
            return None;
        }
        number = number
            .checked_mul(10)?
            .checked_add(u64::from(*digit - b'0'))?;
    }
    Some(number)
}

/// The number that these digits spell, where it is from 1 up.
pub(crate) fn read_positive(digits: &[u8]) -> Option<u64> {
    match read_number(digits) {
        Some(number) if number > 0 => Some(number),
        _ => None,
    }
}
