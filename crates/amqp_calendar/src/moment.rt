//! The text of a timestamp.

ghost use Rattle.std.specs.Prelude.{◌≡◌, ◌+◌, ◌<◌, ◌≤◌, ◌∷◌, ◌++◌, pos, neg_ℤ, ◌≤ℤ◌, unsigned_abs};
ghost use Rattle.std.specs.Prelude.{codes, take, IsAscii};
ghost use Rattle.std.specs.Fmt.{WritesOnOk};
ghost use Rattle.std.specs.Int.{int_div_euclid, int_rem_euclid};
ghost use Rattle.amqp_calendar.specs.Moment.{date_and_time_text, moment_text, padded, time_text};
ghost use Rattle.amqp_calendar.specs.Moment.{year_text};

use crate::civil_from_days;
use std::fmt;
use std::fmt::{Formatter, Write};
use std::str::from_utf8_unchecked;

const DAY: i64 = 86_400_000;

/// Writes the timestamp `milliseconds` after the Unix epoch as `Y-MM-DDThh:mm:ss.mmmZ`.
///
/// A year from 0 to 9999 has four digits. Any other year has a sign and at least six digits.
///
/// # Errors
/// Returns the formatter's error if its writer fails. A part of the text may have been written.
///
/// # Memory
/// What the formatter's writer allocates.
///
/// # Example
/// -1 is written as `1969-12-31T23:59:59.999Z`.
pub fn write_moment<W: Write>(milliseconds: i64, f: &mut Formatter<W>) -> fmt::Result
    ensures { WritesOnOk W.write_str_gives f.old result (moment_text milliseconds) f.new }
{
    let (days, time) = split_day(milliseconds);
    let (year, month, day) = civil_from_days(days);
    write_parts(year, month, day, time, f)
}

// Returns the day that contains a millisecond, and the milliseconds since the start of that day.
fn split_day(milliseconds: i64) -> (i64, u32)
    ensures day { result.0 ≡ int_div_euclid milliseconds (pos 86_400_000) }
    ensures time { result.1 ≡ unsigned_abs (int_rem_euclid milliseconds (pos 86_400_000)) }
    ensures within { result.1 < 86_400_000 }
    ensures low { neg_ℤ (pos 106_751_991_168) ≤ℤ result.0 }
    ensures high { result.0 ≤ℤ pos 106_751_991_167 }
{
    let days = milliseconds.div_euclid(DAY);
    let time = milliseconds.rem_euclid(DAY);
    (days, time as u32)
}

fn write_parts<W: Write>(
    year: i64,
    month: u32,
    day: u32,
    time: u32,
    f: &mut Formatter<W>,
) -> fmt::Result
    requires month { month < 100 }
    requires day { day < 100 }
    requires time { time < 86_400_000 }
    ensures { WritesOnOk W.write_str_gives f.old result
        (date_and_time_text year month day time) f.new }
{
    if 0 <= year && year <= 9_999 {
        let text = short_text(year as u32, month, day, time);
        f.write_str(unsafe { from_utf8_unchecked(&text) })
    } else {
        write_long(year, month, day, time, f)
    }
}

// Returns the text of a moment of the years from 0 to 9999.
fn short_text(year: u32, month: u32, day: u32, time: u32) -> [u8; 24]
    requires year { year ≤ 9_999 }
    requires month { month < 100 }
    requires day { day < 100 }
    requires time { time < 86_400_000 }
    ensures text { result ≡ date_and_time_text (pos year) month day time }
    ensures ascii { IsAscii result }
{
    let mut text = [0; 24];
    put_two(year / 100, &mut text, 0);
    put_two(year % 100, &mut text, 2);
    put_after(b'-', month, &mut text, 4);
    put_after(b'-', day, &mut text, 7);
    put_after(b'T', time / 3_600_000, &mut text, 10);
    put_after(b':', time / 60_000 % 60, &mut text, 13);
    put_after(b':', time / 1_000 % 60, &mut text, 16);
    put_millis(time % 1_000, &mut text);
    text
}

// Puts the last part of the text, such as `.013Z`.
#[inline(always)]
fn put_millis(millis: u32, text: &mut [u8; 24])
    requires { millis < 1_000 }
    ensures text { take 24 text.new ≡ take 19 text.old ++ (codes "." ++ (padded 3 millis ++ codes "Z")) }
    ensures ascii { IsAscii (codes "." ++ (padded 3 millis ++ codes "Z")) }
{
    put_after(b'.', millis / 10, text, 19);
    text[22] = b'0' + (millis % 10) as u8;
    text[23] = b'Z';
}

// Puts a byte and the two digits of a number below 100, from the offset `at` on.
#[inline(always)]
#[tactic(auto, using(crate::proofs::BlockLemmas::padded_two))]
fn put_after(byte: u8, number: u32, text: &mut [u8; 24], at: usize)
    requires byte { byte < 128 }
    requires number { number < 100 }
    requires fits { at + 3 ≤ 24 }
    ensures text { take (at + 3) text.new ≡ take at text.old ++ byte ∷ padded 2 number }
    ensures ascii { IsAscii (byte ∷ padded 2 number) }
{
    text[at] = byte;
    put_two(number, text, at + 1);
}

#[inline(always)]
#[tactic(auto, using(crate::proofs::BlockLemmas::padded_two))]
fn put_two(number: u32, text: &mut [u8; 24], at: usize)
    requires number { number < 100 }
    requires fits { at + 2 ≤ 24 }
    ensures text { take (at + 2) text.new ≡ take at text.old ++ padded 2 number }
    ensures ascii { IsAscii (padded 2 number) }
{
    text[at] = b'0' + (number / 10) as u8;
    text[at + 1] = b'0' + (number % 10) as u8;
}

fn write_long<W: Write>(
    year: i64,
    month: u32,
    day: u32,
    time: u32,
    f: &mut Formatter<W>,
) -> fmt::Result
    ensures { WritesOnOk W.write_str_gives f.old result
        (date_and_time_text year month day time) f.new }
{
    write_year(year, f)?;
    f.write_str("-")?;
    write_two(month, f)?;
    f.write_str("-")?;
    write_two(day, f)?;
    write_time(time, f)
}

#[tactic(auto, using(crate::proofs::PaddingLemmas::padding))]
fn write_year<W: Write>(year: i64, f: &mut Formatter<W>) -> fmt::Result
    ensures { WritesOnOk W.write_str_gives f.old result (year_text year) f.new }
{
    let size = year.unsigned_abs();
    if year < 0 {
        write!(f, "-{size:06}")
    } else if size <= 9_999 {
        write!(f, "{size:04}")
    } else {
        write!(f, "+{size:06}")
    }
}

#[tactic(auto, using(crate::proofs::PaddingLemmas::padding))]
fn write_two<W: Write>(number: u32, f: &mut Formatter<W>) -> fmt::Result
    ensures { WritesOnOk W.write_str_gives f.old result (padded 2 number) f.new }
{
    write!(f, "{number:02}")
}

// Writes the time of day, given in milliseconds since midnight.
#[tactic(auto, using(crate::proofs::PaddingLemmas::padding))]
fn write_time<W: Write>(time: u32, f: &mut Formatter<W>) -> fmt::Result
    ensures { WritesOnOk W.write_str_gives f.old result (time_text time) f.new }
{
    let hours = time / 3_600_000;
    let minutes = time / 60_000 % 60;
    let seconds = time / 1_000 % 60;
    let millis = time % 1_000;
    write!(f, "T{hours:02}:{minutes:02}:{seconds:02}.{millis:03}Z")
}
