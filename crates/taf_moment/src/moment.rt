ghost use Rattle.std.specs.Prelude.{◌≡◌, ◌+◌, ◌<◌, ◌≤◌, ℕ, Some, Ok};
ghost use Rattle.std.specs.Str.{IsAscii};
ghost use Rattle.taf_moment.specs.Calendar.{last_minute, moment_at, moment_of, moment_text, two_digits};

use crate::date::CalendarDate;
use crate::fault::BadMoment;
use crate::reading::{date_shown, is_formed, time_shown};
use crate::text::MomentText;
use std::fmt;
use std::marker::Model;

// The minutes of a day.
const MINUTES_A_DAY: u32 = 1440;

// The minute 2199-12-31T23:59Z, counted from 1970-01-01T00:00Z.
const LAST_MINUTE: u32 = 120_968_639;

// The two digits of each number below 100, one number after another.
static PAIRS: [u8; 200] = *b"\
    0001020304050607080910111213141516171819\
    2021222324252627282930313233343536373839\
    4041424344454647484950515253545556575859\
    6061626364656667686970717273747576777879\
    8081828384858687888990919293949596979899";

/// A minute of the Gregorian calendar from `1970-01-01T00:00Z` to `2199-12-31T23:59Z`. It is seen
/// as the number of minutes since the first.
#[derive(Clone, Copy, Debug, PartialEq, Eq, PartialOrd, Ord, Hash)]
pub struct Moment {
    minutes: u32,
}

impl Model for Moment {
    ghost Value = { ℕ };

    ghost view = { λ moment. moment.minutes };

    ghost invariant = { λ moment. moment.minutes ≤ last_minute };

    ghost inverse = { λ n. record { minutes = n } };
}

impl Moment {
    /// The moment that the text denotes, as `2025-03-01T06:00Z`.
    ///
    /// `BadMoment` where the text has another form, shows a date that the calendar does not have or
    /// of another year than 1970 to 2199, an hour above 23 or a minute above 59.
    pub fn read(text: &str) -> Result<Moment, BadMoment>
        ensures { result ≡ moment_of text.now }
    {
        let letters = text.as_bytes();
        if !is_formed(letters) {
            return Err(BadMoment);
        }
        let days = date_shown(letters).number().ok_or(BadMoment)?;
        let (hour, minute) = time_shown(letters);
        if hour > 23 || minute > 59 {
            return Err(BadMoment);
        }
        Ok(Moment {
            minutes: MINUTES_A_DAY * days + 60 * u32::from(hour) + u32::from(minute),
        })
    }

    /// The moment so many minutes after `1970-01-01T00:00Z`, `None` past the last minute.
    pub fn from_minutes(minutes: u32) -> Option<Moment>
        ensures { result ≡ moment_at minutes }
    {
        if minutes <= LAST_MINUTE {
            Some(Moment { minutes })
        } else {
            None
        }
    }

    /// The minutes since `1970-01-01T00:00Z`.
    pub fn minutes(self) -> u32
        ensures value { result ≡ self }
        ensures bound { result ≤ last_minute }
    {
        self.minutes
    }

    /// The moment so many minutes later, `None` past the last minute.
    pub fn plus(self, minutes: u32) -> Option<Moment>
        ensures { result ≡ moment_at (self + minutes) }
    {
        Moment::from_minutes(self.minutes.checked_add(minutes)?)
    }

    /// The text that denotes the moment, as `2025-03-01T06:00Z`, which `read` reads as this moment.
    pub fn text(self) -> MomentText
        ensures value { result ≡ moment_text self }
        ensures read { moment_of result ≡ Ok self }
    {
        MomentText::new(self.letters())
    }

    #[tactic(auto, unfolding(crate::specs::Calendar::moment_text))]
    fn letters(self) -> [u8; 17]
        ensures value { result ≡ moment_text self }
        ensures ascii { IsAscii result }
        ensures bound { self ≤ last_minute }
    {
        let date = CalendarDate::after(self.minutes / MINUTES_A_DAY);
        let century = two_letters((date.year / 100) as u8);
        let year = two_letters((date.year % 100) as u8);
        let month = two_letters(date.month);
        let day = two_letters(date.day);
        let minute_of_day = self.minutes % MINUTES_A_DAY;
        let hour = two_letters((minute_of_day / 60) as u8);
        let minute = two_letters((minute_of_day % 60) as u8);
        [
            century[0], century[1], year[0], year[1], b'-', month[0], month[1], b'-', day[0],
            day[1], b'T', hour[0], hour[1], b':', minute[0], minute[1], b'Z',
        ]
    }
}

// A number below 100 in two digits.
fn two_letters(number: u8) -> [u8; 2]
    requires { number < 100 }
    ensures value { result ≡ two_digits number }
    ensures ascii { IsAscii result }
{
    let place = 2 * usize::from(number);
    [PAIRS[place], PAIRS[place + 1]]
}

/// Prints the text that denotes the moment.
impl fmt::Display for Moment {
    ghost output = { λ moment. Some (moment_text moment) };

    fn fmt<W: fmt::Write>(&self, f: &mut fmt::Formatter<W>) -> fmt::Result {
        f.write_str(self.text().as_str())
    }
}
