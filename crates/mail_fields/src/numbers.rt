//! The numbers of a date.
ghost use Rattle.std.specs.Prelude.{◌≡◌, ◌≤◌, ◌<◌, ◌+◌, ◌*◌, ◌^◌, ◌==◌, ◌&&◌, ℕ, nat_le, true};
ghost use Rattle.std.specs.Prelude.{length};
ghost use Rattle.std.specs.Prelude.{Some, None, IfSome, if◌then◌else◌};
ghost use Rattle.std.specs.Str.{all_ascii_digits};
ghost use Rattle.std.specs.Str.Parse.{digits_value};
ghost use Rattle.tap_rows.specs.Dates.{digits_within, clock_number, full_year, year_of};

use tap_base::all_digits;

// Returns the number of at most four digits.
pub(crate) fn value_of_digits(part: &[u8]) -> u32
    requires digits { all_ascii_digits part.now ≡ true }
    requires short { length part.now ≤ 4 }
    ensures value { result ≡ digits_value 10 part.now }
    ensures small { result < 10 ^ length part.now }
    ensures below { result < 10000 }
{
    let mut n: u32 = 0;
    for b in part {
        n = n * 10 + (*b - b'0') as u32;
    }
    n
}

// Returns the number of a part of `least` to `most` digits.
pub(crate) fn number(least: usize, most: usize, part: &[u8]) -> Option<u32>
    requires { most ≤ 4 }
    ensures value { result ≡ digits_within least most part.now }
    ensures small { IfSome result (λ n. n < 10 ^ length part.now) }
    ensures below { IfSome result (λ n. n < 10000) }
    ensures long { IfSome result (λ _. (least ≤ length part.now) × (length part.now ≤ most)) }
{
    if least <= part.len() && part.len() <= most && all_digits(part) {
        Some(value_of_digits(part))
    } else {
        None
    }
}

// Returns the number of one or two digits, if it is at most `most`.
pub(crate) fn number_at_most(most: u32, part: &[u8]) -> Option<u32>
    ensures value { result ≡ clock_number most part.now }
    ensures small { IfSome result (λ n. n ≤ most) }
{
    match number(1, 2, part) {
        None => None,
        Some(n) => { if n <= most { Some(n) } else { None } }
    }
}

// Returns the year that a number of that many digits means (RFC 5322 4.3).
fn full(digits: usize, n: u32) -> u32
    requires small { n < 10 ^ digits }
    requires below { n < 10000 }
    requires digits { (2 ≤ digits) × (digits ≤ 4) }
    ensures value { result ≡ full_year digits n }
    ensures below { result ≤ 9999 }
{
    if digits == 4 {
        n
    } else if digits == 2 && n < 50 {
        n + 2000
    } else {
        n + 1900
    }
}

// Returns the year of a part of two to four digits.
pub(crate) fn year(part: &[u8]) -> Option<u32>
    ensures value { result ≡ year_of part.now }
    ensures below { IfSome result (λ n. n ≤ 9999) }
{
    match number(2, 4, part) {
        None => None,
        Some(n) => Some(full(part.len(), n)),
    }
}
