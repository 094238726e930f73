//! The second of a Date field.
ghost use Rattle.std.specs.Prelude.{◌≡◌, ◌≤◌, ◌<◌, ◌+◌, ◌*◌, ◌+ℤ◌, ◌-ℤ◌, ◌*ℤ◌, neg_ℤ, ◌∷◌};
ghost use Rattle.std.specs.Prelude.{List, [], ℕ, ℤ, pos, Some, None, true, length, if◌then◌else◌};
ghost use Rattle.std.specs.Prelude.{◌==◌, IfSome, IfOk, take, drop};
ghost use Rattle.std.specs.List.{slice_split};
ghost use Rattle.std.specs.Option.{option_map, option_copied, option_and_then};
ghost use Rattle.std.specs.Str.{all_ascii_digits, str_eq_ignore_ascii_case};
ghost use Rattle.jiff_core.specs.Calendar.{days_from_civil, IsWithin};
ghost use Rattle.tap_rows.specs.Dates.{month_of, time_of, hours_west, offset_of, zone_of};
ghost use Rattle.tap_rows.specs.Dates.{first_zone, has_day, second_of};
ghost use Rattle.tap_rows.specs.Dates.{second_of_parts, digits_within, date_from, date_of};
ghost use Rattle.tap_rows.specs.Dates.{date_parts, without_weekday};
ghost use Rattle.tap_rows.specs.Dates.{begins_with_letter, second_of_day, clock_second};

use crate::bytes::place_of;
use crate::numbers::{number, number_at_most, value_of_digits, year};
use crate::parts::{four_parts, next_part, uncommented};
use jiff::civil::Date;
use std::alloc::Global;
use tap_base::{Memory, after_byte, all_digits, within_moments};

// Returns whether the part is this name, without regard to ASCII case.
fn is_same_name(part: &[u8], name: &[u8]) -> bool
    ensures { result ≡ str_eq_ignore_ascii_case part.now name.now }
{
    part.eq_ignore_ascii_case(name)
}

// Returns the month of a name, from 1.
fn month(part: &[u8]) -> Option<u32>
    ensures value { result ≡ month_of part.now }
    ensures small { IfSome result (λ m. (1 ≤ m) × (m ≤ 12)) }
{
    if is_same_name(part, b"jan".as_slice()) {
        return Some(1);
    }
    if is_same_name(part, b"feb".as_slice()) {
        return Some(2);
    }
    if is_same_name(part, b"mar".as_slice()) {
        return Some(3);
    }
    if is_same_name(part, b"apr".as_slice()) {
        return Some(4);
    }
    if is_same_name(part, b"may".as_slice()) {
        return Some(5);
    }
    if is_same_name(part, b"jun".as_slice()) {
        return Some(6);
    }
    if is_same_name(part, b"jul".as_slice()) {
        return Some(7);
    }
    if is_same_name(part, b"aug".as_slice()) {
        return Some(8);
    }
    if is_same_name(part, b"sep".as_slice()) {
        return Some(9);
    }
    if is_same_name(part, b"oct".as_slice()) {
        return Some(10);
    }
    if is_same_name(part, b"nov".as_slice()) {
        return Some(11);
    }
    if is_same_name(part, b"dec".as_slice()) {
        return Some(12);
    }
    None
}

// Returns how many hours west of Greenwich a zone of this name is (RFC 5322 4.3). A name that isn't
// known is Greenwich.
fn west(name: &[u8]) -> u32
    ensures value { result ≡ hours_west name.now }
    ensures small { result ≤ 8 }
{
    if is_same_name(name, b"EDT".as_slice()) {
        return 4;
    }
    if is_same_name(name, b"EST".as_slice()) || is_same_name(name, b"CDT".as_slice()) {
        return 5;
    }
    if is_same_name(name, b"CST".as_slice()) || is_same_name(name, b"MDT".as_slice()) {
        return 6;
    }
    if is_same_name(name, b"MST".as_slice()) || is_same_name(name, b"PDT".as_slice()) {
        return 7;
    }
    if is_same_name(name, b"PST".as_slice()) {
        return 8;
    }
    0
}

// Returns the seconds of four digits HHMM.
fn offset(digits: &[u8]) -> Option<u32>
    ensures value { result ≡ offset_of digits.now }
    ensures small { IfSome result (λ n. n < 1000000) }
{
    if digits.len() != 4 || !all_digits(digits) {
        return None;
    }
    let hours = number(2, 2, &digits[..2])?;
    let minutes = number(2, 2, &digits[2..])?;
    if minutes > 59 {
        return None;
    }
    Some(hours * 3600 + minutes * 60)
}

// Returns how many seconds east of Greenwich a zone of this name is: 0 or fewer.
fn lettered(name: &[u8]) -> i64
    ensures value { result ≡ neg_ℤ (pos (hours_west name.now * 3600)) }
    ensures small { IsWithin 1000000 result }
{
    let seconds = west(name) * 3600;
    -(seconds as i64)
}

// Returns how many seconds east of Greenwich a zone is, if the part has its form.
fn zone(part: &[u8]) -> Option<i64>
    ensures value { result ≡ zone_of part.now }
    ensures small { IfSome result (λ z. IsWithin 1000000 z) }
{
    if part.is_empty() {
        return None;
    }
    if part[0] == b'+' {
        return match offset(&part[1..]) {
            None => None,
            Some(n) => Some(n as i64),
        };
    }
    if part[0] == b'-' {
        return match offset(&part[1..]) {
            None => None,
            Some(n) => Some(-(n as i64)),
        };
    }
    if part[0].is_ascii_alphabetic() {
        return Some(lettered(part));
    }
    None
}

// Returns the zone of the first part, or Greenwich if there is none.
fn zone_at(text: &[u8]) -> Option<i64>
    ensures value { result ≡ first_zone (date_parts text.now) }
    ensures small { IfSome result (λ z. IsWithin 1000000 z) }
{
    match next_part(text) {
        None => Some(0),
        Some(found) => zone(found.part),
    }
}

// Returns the second of the day of an hour, a minute and a second. A leap second counts as the
// second before it.
fn clock(hour: Option<u32>, minute: Option<u32>, second: Option<u32>) -> Option<u32>
    requires hour { IfSome hour (λ n. n ≤ 23) }
    requires minute { IfSome minute (λ n. n ≤ 59) }
    requires second { IfSome second (λ n. n ≤ 60) }
    ensures value { result ≡ clock_second hour minute second }
    ensures small { IfSome result (λ n. n < 86400) }
{
    let h = hour?;
    let m = minute?;
    let s = second?;
    let s = if s == 60 { 59 } else { s };
    Some(h * 3600 + m * 60 + s)
}

// Returns the second of the day of two or three numbers that colons join.
fn time(part: &[u8]) -> Option<u32>
    ensures value { result ≡ time_of part.now }
    ensures small { IfSome result (λ n. n < 86400) }
{
    let first = place_of(b':', part);
    if first == part.len() {
        return None;
    }
    let rest = after_byte(part, first);
    let second = place_of(b':', rest);
    let hour = number_at_most(23, &part[..first]);
    let minute = number_at_most(59, &rest[..second]);
    if second == rest.len() {
        return clock(hour, minute, Some(0));
    }
    let last = after_byte(rest, second);
    if place_of(b':', last) < last.len() {
        return None;
    }
    clock(hour, minute, number_at_most(60, last))
}

// Returns the number of days from 1970-01-01 to a civil date, if there is such a date.
fn day_number(year: u32, month: u32, day: u32) -> Option<i64>
    requires year { year ≤ 9999 }
    requires month { (1 ≤ month) × (month ≤ 12) }
    ensures value { result
        ≡ (if has_day year month day then Some (days_from_civil (pos year) month day) else None) }
    ensures small { IfSome result (λ n. IsWithin 3000000000 n) }
{
    // A day of more than 31 might not fit in the calendar's 8 bits.
    if day > 31 {
        return None;
    }
    match Date::new(year as i16, month as i8, day as i8) {
        Err(_) => None,
        Ok(date) => Some(date.to_plain().to_unix_epoch_day() as i64),
    }
}

// Returns the second of a day number, a second of the day and a zone.
fn sum(days: i64, time: u32, zone: i64) -> i64
    requires days { IsWithin 3000000000 days }
    requires zone { IsWithin 1000000 zone }
    ensures { result ≡ pos 86400 *ℤ days +ℤ pos time -ℤ zone }
{
    86400 * days + time as i64 - zone
}

// Returns the second of a civil date, a second of the day and a zone, if it is a moment's.
fn dated(year: u32, month: u32, day: u32, time: u32, zone: i64) -> Option<i64>
    requires month { (1 ≤ month) × (month ≤ 12) }
    requires year { year ≤ 9999 }
    requires zone { IsWithin 1000000 zone }
    ensures { result ≡ second_of year month day time zone }
{
    match day_number(year, month, day) {
        None => None,
        Some(days) => within_moments(sum(days, time, zone)),
    }
}

// Returns the second of the parts of a date, if each has its form.
fn joined(
    day: Option<u32>,
    month: Option<u32>,
    year: Option<u32>,
    time: Option<u32>,
    zone: Option<i64>,
) -> Option<i64>
    requires month { IfSome month (λ n. (1 ≤ n) × (n ≤ 12)) }
    requires year { IfSome year (λ n. n ≤ 9999) }
    requires zone { IfSome zone (λ z. IsWithin 1000000 z) }
    ensures { result ≡ second_of_parts day month year time zone }
{
    let day = day?;
    let month = month?;
    let year = year?;
    let time = time?;
    let zone = zone?;
    dated(year, month, day, time, zone)
}

// Returns the second of the parts from the day on.
fn from_day(text: &[u8]) -> Option<i64>
    ensures { result ≡ date_from (date_parts text.now) }
{
    match four_parts(text) {
        None => None,
        Some(found) => joined(
            number(1, 2, found.day),
            month(found.month),
            year(found.year),
            time(found.time),
            zone_at(found.rest),
        ),
    }
}

// Returns the text without a weekday at its start.
fn after_weekday(text: &[u8]) -> &[u8]
    ensures { date_parts result.now ≡ without_weekday (date_parts text.now) }
{
    match next_part(text) {
        None => text,
        Some(found) => {
            if is_weekday(found.part) {
                found.rest
            } else {
                text
            }
        }
    }
}

// Returns whether the part begins with an ASCII letter, as a weekday does.
fn is_weekday(part: &[u8]) -> bool
    ensures { result ≡ begins_with_letter part.now }
{
    !part.is_empty() && part[0].is_ascii_alphabetic()
}

// Returns the second of a Date field's value (RFC 5322 3.3 and 4.3), if it is a date. Fails with
// `Memory` when out of memory.
pub(crate) fn read_date(alloc: Global, value: &[u8]) -> Result<Option<i64>, Memory>
    ensures { IfOk result (λ date. date ≡ date_of value.now) }
{
    let text = uncommented(alloc, value)?;
    Ok(from_day(after_weekday(text.as_slice())))
}
