//! Dollars, exactly.

ghost use Rattle.std.specs.Prelude.{◌≡◌, ◌+◌, ◌≤◌, ◌^◌, Some};
ghost use Rattle.order_limits.specs.Dollars.{decimals_text, dollars_text, of_dollars};

use std::fmt;

/// An amount of dollars in ten-thousandths of one. It is shown as `612000.5` or `500000`: with as many decimals as it
/// takes, at most four.
#[derive(Clone, Copy, Debug, PartialEq, Eq)]
pub struct Dollars {
    pub ten_thousandths: u128,
}

/// What is shown of it behind its dollars.
#[derive(Clone, Copy)]
struct Decimals {
    ten_thousandths: u128,
}

impl Dollars {
    /// So many whole dollars.
    pub fn of(dollars: u64) -> Dollars
        ensures { result ≡ of_dollars dollars }
    {
        Dollars {
            ten_thousandths: u128::from(dollars) * 10_000,
        }
    }

    /// Both together. Neither is more than 10^32 dollars.
    pub(crate) fn plus(self, other: Dollars) -> Dollars
        requires { (self.ten_thousandths ≤ 10 ^ 36) × (other.ten_thousandths ≤ 10 ^ 36) }
        ensures { result.ten_thousandths ≡ self.ten_thousandths + other.ten_thousandths }
    {
        Dollars {
            ten_thousandths: self.ten_thousandths + other.ten_thousandths,
        }
    }
}

impl fmt::Display for Decimals {
    ghost output = { λ decimals. Some (decimals_text decimals.ten_thousandths) };

    fn fmt<W: fmt::Write>(&self, f: &mut fmt::Formatter<W>) -> fmt::Result {
        let n = self.ten_thousandths;
        if n % 10_000 == 0 {
            return Ok(());
        }
        let a = n / 1_000 % 10;
        if n % 1_000 == 0 {
            return write!(f, ".{a}");
        }
        let b = n / 100 % 10;
        if n % 100 == 0 {
            return write!(f, ".{a}{b}");
        }
        let c = n / 10 % 10;
        if n % 10 == 0 {
            return write!(f, ".{a}{b}{c}");
        }
        let d = n % 10;
        write!(f, ".{a}{b}{c}{d}")
    }
}

impl fmt::Display for Dollars {
    ghost output = { λ dollars. Some (dollars_text dollars.ten_thousandths) };

    #[tactic(auto, unfolding(crate::specs::Dollars::dollars_text))]
    fn fmt<W: fmt::Write>(&self, f: &mut fmt::Formatter<W>) -> fmt::Result {
        let whole = self.ten_thousandths / 10_000;
        let decimals = Decimals {
            ten_thousandths: self.ten_thousandths,
        };
        write!(f, "{whole}{decimals}")
    }
}
