//! Numbers in their one spelling: decimal digits with no leading zero.
ghost use Rattle.std.specs.{Prelude.{◌≡◌, ◌<◌, ◌≤◌, ◌+◌, ◌^◌, ◌++◌, ◌⊎◌, ℕ, List, true, false, length, drop, slice_index, Some, IfSome, IfNone}, Fmt.decimal};
ghost use Rattle.tc_text.specs.{Inside.AreDigits, Inside.Counted, Inside.NoDigitFirst, Reading.EndsNumber, Reading.Takes};

// The value of the digit at a place of the text, if there is one.
#[inline(always)]
fn digit_at(text: &[u8], place: usize) -> Option<u8>
    ensures some { IfSome result (λ d. (place < length text.now) × (slice_index text.now place ≡ 48 + d) × (d ≤ 9)) }
    ensures none { IfNone result (NoDigitFirst (drop place text.now)) }
{
    match text.get(place) {
        Some(byte) if byte.is_ascii_digit() => Some(*byte - b'0'),
        _ => None,
    }
}

// Whether the digits are the spelling of a number: there are some, and nothing is after a leading zero.
#[inline(always)]
fn is_spelling(digits: &[u8]) -> bool
    ensures some { result ≡ true → 0 < length digits.now }
    ensures short { result ≡ true → slice_index digits.now 0 ≡ 48 → length digits.now ≤ 1 }
    ensures wrong { result ≡ false → (length digits.now ≡ 0) ⊎ ((slice_index digits.now 0 ≡ 48) × (1 < length digits.now)) }
{
    match digits {
        [] => false,
        [b'0', _, ..] => false,
        _ => true,
    }
}

// The number, and what follows its digits, which are up to this place, if they are its spelling.
#[inline(always)]
fn spelled_to(text: &[u8], end: usize, number: u32) -> Option<(u32, &[u8])>
    requires counted { Counted text.now end number }
    requires ended { NoDigitFirst (drop end text.now) }
    ensures spelled { IfSome result (λ r. text.now ≡ decimal r.0 ++ r.1.now) }
    ensures fits { IfSome result (λ r. r.0 < 2 ^ 32) }
    ensures only { (n : ℕ) (rest : List ℕ) → n < 2 ^ 32 → EndsNumber rest → text.now ≡ decimal n ++ rest → Takes result n rest }
{
    let (digits, rest) = text.split_at(end);
    if is_spelling(digits) {
        Some((number, rest))
    } else {
        None
    }
}

// How many digits the text begins with.
#[inline(never)]
fn count_digits(text: &[u8]) -> usize
    ensures { AreDigits text.now result }
{
    let mut end = 0;
    while let Some(_) = digit_at(text, end) {
        end += 1;
    }
    end
}

// The number that the text's digits write, if it is below 2^32.
#[inline(never)]
fn value_of(text: &[u8]) -> Option<u32>
    ensures some { (end : ℕ) → AreDigits text.now end → IfSome result (λ n. Counted text.now end n) }
    ensures none { IfNone result ((n : ℕ) (rest : List ℕ) → n < 2 ^ 32 → EndsNumber rest → text.now ≡ decimal n ++ rest → ⊥) }
{
    let mut number = 0u64;
    let mut end = 0;
    while let Some(digit) = digit_at(text, end) {
        number = number * 10 + digit as u64;
        if number > 4294967295 {
            return None;
        }
        end += 1;
    }
    Some(number as u32)
}

// How many digits the text begins with, and their number, if there are at most three.
#[inline(always)]
fn few_digits(text: &[u8]) -> Option<(usize, u32)>
    ensures counted { IfSome result (λ r. Counted text.now r.0 r.1) }
    ensures ended { IfSome result (λ r. NoDigitFirst (drop r.0 text.now)) }
    ensures many { IfNone result ((3 < length text.now) × (48 ≤ slice_index text.now 3) × (slice_index text.now 3 ≤ 57)) }
{
    let Some(first) = digit_at(text, 0) else {
        return Some((0, 0));
    };
    let one = first as u32;
    let Some(second) = digit_at(text, 1) else {
        return Some((1, one));
    };
    let two = one * 10 + second as u32;
    let Some(third) = digit_at(text, 2) else {
        return Some((2, two));
    };
    match digit_at(text, 3) {
        Some(_) => None,
        None => Some((3, two * 10 + third as u32)),
    }
}

/// The number that the text begins with, and what follows it. Most numbers have few digits.
#[inline(always)]
pub fn take_number(text: &[u8]) -> Option<(u32, &[u8])>
    ensures spelled { IfSome result (λ r. text.now ≡ decimal r.0 ++ r.1.now) }
    ensures fits { IfSome result (λ r. r.0 < 2 ^ 32) }
    ensures only { (n : ℕ) (rest : List ℕ) → n < 2 ^ 32 → EndsNumber rest → text.now ≡ decimal n ++ rest → Takes result n rest }
{
    match few_digits(text) {
        Some((end, number)) => spelled_to(text, end, number),
        None => {
            let number = value_of(text)?;
            spelled_to(text, count_digits(text), number)
        }
    }
}

/// The number that the text spells. None if it spells none below 2^32.
pub fn read_number(text: &[u8]) -> Option<u32>
    ensures spelled { IfSome result (λ n. text.now ≡ decimal n) }
    ensures fits { IfSome result (λ n. n < 2 ^ 32) }
    ensures only { (n : ℕ) → n < 2 ^ 32 → text.now ≡ decimal n → result ≡ Some n }
{
    let (number, rest) = take_number(text)?;
    if rest.is_empty() { Some(number) } else { None }
}
