//! A price or a value as text, and an average.

ghost use Rattle.std.specs.Prelude.{◌≡◌, ◌^◌, ◌<◌, ◌≤◌, Some};
ghost use Rattle.exact_price.specs.Shown.{average, decimals_text, exact_text};

use std::fmt;

/// A price or a value in hundred-millionths of the currency's unit. It is shown as `10.25`, `10` or `0.00000001`: with
/// as many decimals as it takes, at most eight.
#[derive(Clone, Copy, Debug, PartialEq, Eq)]
pub struct Exact(pub u128);

/// What is shown of it behind its units.
#[derive(Clone, Copy)]
struct Decimals(u128);

impl fmt::Display for Decimals {
    ghost output = { λ exact. Some (decimals_text exact.0) };

    fn fmt<W: fmt::Write>(&self, f: &mut fmt::Formatter<W>) -> fmt::Result {
        let n = self.0;
        if n % 100_000_000 == 0 {
            return Ok(());
        }
        let a = n / 10_000_000 % 10;
        if n % 10_000_000 == 0 {
            return write!(f, ".{a}");
        }
        let b = n / 1_000_000 % 10;
        if n % 1_000_000 == 0 {
            return write!(f, ".{a}{b}");
        }
        let c = n / 100_000 % 10;
        if n % 100_000 == 0 {
            return write!(f, ".{a}{b}{c}");
        }
        let d = n / 10_000 % 10;
        if n % 10_000 == 0 {
            return write!(f, ".{a}{b}{c}{d}");
        }
        let e = n / 1_000 % 10;
        if n % 1_000 == 0 {
            return write!(f, ".{a}{b}{c}{d}{e}");
        }
        let g = n / 100 % 10;
        if n % 100 == 0 {
            return write!(f, ".{a}{b}{c}{d}{e}{g}");
        }
        let h = n / 10 % 10;
        if n % 10 == 0 {
            return write!(f, ".{a}{b}{c}{d}{e}{g}{h}");
        }
        let i = n % 10;
        write!(f, ".{a}{b}{c}{d}{e}{g}{h}{i}")
    }
}

impl fmt::Display for Exact {
    ghost output = { λ exact. Some (exact_text exact.0) };

    fn fmt<W: fmt::Write>(&self, f: &mut fmt::Formatter<W>) -> fmt::Result {
        let units = self.0 / 100_000_000;
        let decimals = Decimals(self.0);
        write!(f, "{units}{decimals}")
    }
}

/// The average price of so many shares, 1 at least, of this value: rounded to the nearest hundred-millionth, a half up.
pub fn average(value: u128, shares: u64) -> Exact
    requires some { 0 < shares }
    requires within { value ≤ 10 ^ 38 }
    ensures { result.0 ≡ average value shares }
{
    Exact((value * 2 + u128::from(shares)) / (u128::from(shares) * 2))
}
