// Days of the Gregorian calendar.
ghost use Rattle.std.specs.Prelude.{◌≡◌, ◌-◌, ◌*◌, ◌≤◌, leb};
ghost use Rattle.calendar.specs.Split.{before};
ghost use Rattle.calendar.specs.Date.{leap_of, year_len, month_len};

// Whether a year is a leap year.
#[tactic(auto, unfolding(crate::specs::Date::leap_of))]
fn is_leap(y: u64) -> bool
    ensures { result ≡ leap_of y }
{
    y % 4 == 0 && (y % 100 != 0 || y % 400 == 0)
}

// The days of month m, from 1 on, of year y. But for February they are 31 and 30 by turns, with a
// second 31 in August.
#[tactic(auto, using(crate::proofs::MonthLaws::month_leap, crate::proofs::MonthLaws::month_common, crate::proofs::MonthLaws::month_other))]
fn month_len(y: u64, m: u64) -> u64
    requires { (1 ≤ m) × (m ≤ 12) }
    ensures { result ≡ month_len y (m - 1) }
{
    if m == 2 {
        if is_leap(y) { 29 } else { 28 }
    } else {
        30 + (m + m / 8) % 2
    }
}

// Whether month m of year y has a day d. The first 28 days are in every month.
#[tactic(auto, using(crate::proofs::MonthLaws::day_early))]
pub(crate) fn day_fits(y: u64, m: u64, d: u64) -> bool
    requires { (1 ≤ m) × (m ≤ 12) }
    ensures { result ≡ leb d (month_len y (m - 1)) }
{
    d <= 28 || d <= month_len(y, m)
}

// The days of year y before month m. At 30 and 9 sixteenths to a month the division gives them as if
// February had 30 days; from March on, the one or two that it has not are taken off.
#[tactic(auto, using(crate::proofs::MonthLaws::months_first, crate::proofs::MonthLaws::months_leap, crate::proofs::MonthLaws::months_common))]
pub(crate) fn before_month(y: u64, m: u64) -> u64
    requires { (1 ≤ m) × (m ≤ 12) }
    ensures { (result ≡ before (month_len y) (m - 1)) × (result ≤ 335) }
{
    let d = (489 * m - 480) / 16;
    if m < 3 {
        return d;
    }
    if is_leap(y) { d - 1 } else { d - 2 }
}

// The days from 1970 on before year y: 365 for each year, and a leap day for each fourth year, but
// for hundredth years only where they are four hundredth. Before 1970 were 492, 19 and 4 of these.
pub(crate) fn before_year(y: u64) -> u64
    requires { (1970 ≤ y) × (y ≤ 9999) }
    ensures { (result ≡ before year_len (y - 1970)) × (result ≤ 366 * (y - 1970)) }
{
    let p = y - 1;
    let hundreds = p / 100;
    365 * (y - 1970) + (p / 4 - 492) - (hundreds - 19) + (hundreds / 4 - 4)
}
