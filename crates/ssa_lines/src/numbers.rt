// Numbers in words.

ghost use Rattle.std.specs.Prelude.{◌≡◌, ℕ, ◌+◌, ◌*◌, ◌≤◌, pos, neg_ℤ};
ghost use Rattle.std.specs.Option.{option_map};
ghost use Rattle.ssa_lines.specs.Counts.{counted};
ghost use Rattle.ssa_lines.specs.Numbers.{digit_in, number_in, integer_of, number_behind, sized, in_limits};

use ssa_ir::limits::MAX_NUMBER;

/// An integer that a word spells.
#[derive(Clone, Copy, Debug, PartialEq, Eq)]
pub enum Integer {
    /// From -2^63 to 2^64 - 1, as its two's complement of 64 bits.
    Word(u64),
    /// Outside that.
    TooLarge,
}

/// The number of a value or a block.
#[derive(Clone, Copy, Debug, PartialEq, Eq)]
pub enum Number {
    /// From 1 to 1,000,000.
    Fits(u32),
    /// Outside that.
    TooLarge,
}

/// The integer that a word spells: decimal digits, with `-` before them or not, or hexadecimal ones of either case
/// behind `0x`; none where it spells none. Leading zeros are allowed.
pub fn read_integer(word: &[u8]) -> Option<Integer>
    ensures { result ≡ option_map sized (integer_of word.now) }
{
    if let Some(digits) = word.strip_prefix(b"0x") {
        return Some(positive(digits_value(16, digits)?));
    }
    if let Some(digits) = word.strip_prefix(b"-") {
        return Some(negative(digits_value(10, digits)?));
    }
    Some(positive(digits_value(10, word)?))
}

/// The number of a value or a block that a word spells behind this letter; none where it spells none. Leading zeros are
/// allowed.
pub fn read_number(letter: u8, word: &[u8]) -> Option<Number>
    ensures { result ≡ option_map in_limits (number_behind letter word.now) }
{
    let (first, digits) = word.split_first()?;
    if *first != letter {
        return None;
    }
    Some(number_in_limits(digits_value(10, digits)?))
}

// The number of one or more digits, or that it has more than 64 bits.
#[derive(Clone, Copy, Debug, PartialEq, Eq)]
enum Digits {
    Fits(u64),
    TooMany,
}

// What one or more digits of this base count.
fn digits_value(base: u8, digits: &[u8]) -> Option<Digits>
    requires least { 2 ≤ base }
    requires most { base ≤ 16 }
    ensures { result ≡ option_map counted (number_in base digits.now) }
{
    if digits.is_empty() {
        return None;
    }
    let mut count = Digits::Fits(0);
    for byte in digits {
        count = with_digit(base, count, digit_in(base, *byte)?);
    }
    Some(count)
}

// The count of digits with one more behind them.
fn with_digit(base: u8, count: Digits, digit: u8) -> Digits
    requires { 2 ≤ base }
    ensures { (n : ℕ) → count ≡ counted n → result ≡ counted (n * base + digit) }
{
    match count {
        Digits::TooMany => Digits::TooMany,
        Digits::Fits(n) => match n.checked_mul(u64::from(base)) {
            None => Digits::TooMany,
            Some(product) => match product.checked_add(u64::from(digit)) {
                None => Digits::TooMany,
                Some(sum) => Digits::Fits(sum),
            },
        },
    }
}

// What a digit of this base counts.
fn digit_in(base: u8, byte: u8) -> Option<u8>
    ensures { result ≡ digit_in base byte }
{
    let value = match byte {
        b'0'..=b'9' => byte - b'0',
        b'a'..=b'f' => byte - b'a' + 10,
        b'A'..=b'F' => byte - b'A' + 10,
        _ => return None,
    };
    if value < base { Some(value) } else { None }
}

fn positive(count: Digits) -> Integer
    ensures { (n : ℕ) → count ≡ counted n → result ≡ sized (pos n) }
{
    match count {
        Digits::Fits(n) => Integer::Word(n),
        Digits::TooMany => Integer::TooLarge,
    }
}

fn negative(count: Digits) -> Integer
    ensures { (n : ℕ) → count ≡ counted n → result ≡ sized (neg_ℤ (pos n)) }
{
    match count {
        Digits::Fits(n) if n <= 1 << 63 => Integer::Word(n.wrapping_neg()),
        _ => Integer::TooLarge,
    }
}

fn number_in_limits(count: Digits) -> Number
    ensures { (n : ℕ) → count ≡ counted n → result ≡ in_limits n }
{
    match count {
        Digits::Fits(n) if 1 <= n && n <= MAX_NUMBER => Number::Fits(n as u32),
        _ => Number::TooLarge,
    }
}
