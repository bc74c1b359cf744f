ghost use Rattle.std.specs.Prelude.{◌≡◌, ◌<◌, ◌≤◌, IfSome, Some, None, if◌then◌else◌};

use jiff_core::civil::Date;

/// A year, a month and a day.
#[derive(Clone, Copy)]
pub(crate) struct CalendarDate {
    pub year: u16,
    pub month: u8,
    pub day: u8,
}

impl CalendarDate {
    ghost use Rattle.taf_moment.specs.Calendar.{is_date, day_number, last_day, date_after};

    /// The days from 1970-01-01 to the date, if the calendar has it in the years 1970 to 2199.
    pub(crate) fn number(self) -> Option<u32>
        requires month { self.month < 100 }
        requires day { self.day < 100 }
        ensures value { result ≡ (if is_date self then Some (day_number self) else None) }
        ensures bound { IfSome result (λ n. n ≤ last_day) }
    {
        if self.year < 1970 || self.year > 2199 {
            return None;
        }
        match Date::new(self.year as i16, self.month as i8, self.day as i8) {
            Ok(date) => Some(date.to_unix_epoch_day() as u32),
            Err(_) => None,
        }
    }

    /// The date so many days after 1970-01-01.
    pub(crate) fn after(days: u32) -> Self
        requires { days ≤ last_day }
        ensures value { result ≡ date_after days }
        ensures year { result.year ≤ 2199 }
        ensures month { result.month ≤ 12 }
        ensures day { result.day ≤ 31 }
    {
        let date = Date::from_unix_epoch_day(i64::from(days)).unwrap();
        CalendarDate {
            year: date.year as u16,
            month: date.month,
            day: date.day,
        }
    }
}
