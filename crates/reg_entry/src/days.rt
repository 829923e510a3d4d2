//! Days as they are written: YYYYMMDD, on the calendar of ISO 8601.
ghost use Rattle.std.specs.Prelude.{◌≡◌, ℕ, ◌+◌, ◌<◌, ◌≤◌, ◌↔◌, pos, ◌≤ℤ◌, IsSome, IfSome};
ghost use Rattle.jiff_core.specs.Date.{epoch_day};
ghost use Rattle.reg_entry.specs.Days.{last_date, clamped_day, date_text, day_text, digit_pair, date_of_text, day_of_text, SpellsDay, IsDateOfDay};

use jiff_core::civil::Date;

/// The greatest day that the register knows, 9999-12-31.
pub const LAST_DATE: u32 = 2_932_896;

/// A clock's day as the register takes it: from 1970-01-02 to 9999-12-31.
pub fn clamped_day(day: u32) -> u32
    ensures { result ≡ clamped_day day }
{
    day.clamp(1, LAST_DATE)
}

/// The digit for a number below 10.
fn digit(n: u32) -> u8
    requires { n < 10 }
    ensures { result ≡ 48 + n }
{
    b'0' + n as u8
}

fn date_text(year: u32, month: u32, day: u32) -> [u8; 8]
    requires year { year < 10000 }
    requires month { month < 100 }
    requires day { day < 100 }
    ensures { result ≡ date_text year month day }
{
    [
        digit(year / 100 / 10),
        digit(year / 100 % 10),
        digit(year % 100 / 10),
        digit(year % 100 % 10),
        digit(month / 10),
        digit(month % 10),
        digit(day / 10),
        digit(day % 10),
    ]
}

/// The text of a day, which is counted from 1970-01-01.
pub fn day_text(day: u32) -> [u8; 8]
    requires { day ≤ last_date }
    ensures { result ≡ day_text day }
{
    match Date::from_unix_epoch_day(i64::from(day)) {
        Ok(date) => date_text(
            u32::from(date.year.unsigned_abs()),
            u32::from(date.month),
            u32::from(date.day),
        ),
        Err(_) => unreachable!(),
    }
}

/// The number of two digits.
fn digit_pair(tens: u8, ones: u8) -> Option<u8>
    ensures { result ≡ digit_pair tens ones }
{
    match (tens, ones) {
        (b'0'..=b'9', b'0'..=b'9') => Some((tens - b'0') * 10 + (ones - b'0')),
        _ => None,
    }
}

/// The day of a date, or nothing before 1970-01-02.
fn day_after_first(date: Date) -> Option<u32>
    ensures some { IsSome result ↔ (pos 1 ≤ℤ epoch_day date) }
    ensures day { IfSome result (λ d. pos d ≡ epoch_day date) }
{
    let day = date.to_unix_epoch_day();
    if day >= 1 { Some(day as u32) } else { None }
}

/// The year, month and day of eight digits, whether the calendar has them or not.
fn date_of_text(text: &[u8]) -> Option<(u32, u8, u8)>
    ensures { result ≡ date_of_text text.now }
{
    let [a, b, c, d, e, f, g, h] = text else {
        return None;
    };
    match (
        digit_pair(*a, *b),
        digit_pair(*c, *d),
        digit_pair(*e, *f),
        digit_pair(*g, *h),
    ) {
        (Some(century), Some(year), Some(month), Some(day)) => Some((
            u32::from(century) * 100 + u32::from(year),
            month,
            day,
        )),
        _ => None,
    }
}

fn signed_year(year: u32) -> i16
    requires { year < 10000 }
    ensures { result ≡ pos year }
{
    year as i16
}

fn signed_part(part: u8) -> i8
    requires { part < 100 }
    ensures { result ≡ pos part }
{
    part as i8
}

/// The day that a date has, or nothing where the calendar has no such date or it is before 1970-01-02.
fn day_of_date(year: u32, month: u8, day: u8) -> Option<u32>
    requires year { year < 10000 }
    requires month { month < 100 }
    requires day { day < 100 }
    ensures some { IsSome result ↔ ((d : ℕ) × IsDateOfDay d year month day) }
    ensures day { IfSome result (λ d. IsDateOfDay d year month day) }
{
    let y = signed_year(year);
    let m = signed_part(month);
    let d = signed_part(day);
    match Date::new(y, m, d) {
        Ok(date) => day_after_first(date),
        Err(_) => None,
    }
}

/// The day that the text spells, found by its date.
fn find_day(text: &[u8]) -> Option<u32>
    ensures date { IsSome result ↔ ((day : ℕ) × SpellsDay text.now day) }
    ensures day { IfSome result (SpellsDay text.now) }
{
    match date_of_text(text) {
        Some((year, month, day)) => day_of_date(year, month, day),
        None => None,
    }
}

/// The day of a text of eight digits, or nothing where it is no date from 19700102 to 99991231.
#[tactic(auto, using(crate::proofs::DayTexts::day_value))]
pub fn read_day(text: &[u8]) -> Option<u32>
    ensures value { result ≡ day_of_text text.now }
    ensures date { IsSome result ↔ ((day : ℕ) × SpellsDay text.now day) }
    ensures day { IfSome result (SpellsDay text.now) }
{
    find_day(text)
}
