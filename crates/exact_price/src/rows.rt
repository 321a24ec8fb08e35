//! Examples, which are computed when this crate is proved.

ghost use Rattle.std.specs.Prelude.{◌≡◌, ◌+◌, ◌*◌, codes, Some, None};
ghost use Rattle.exact_price.specs.Exact.{exact_of};
ghost use Rattle.exact_price.specs.Shown.{average, exact_text};

/// What is read of a price.
#[tactic(auto, unfolding(crate::specs::Exact::exact_of))]
pub fn prices_that_are_read()
    ensures dollars { exact_of (codes "10.25") ≡ Some 1_025_000_000 }
    ensures least { exact_of (codes "0.00000001") ≡ Some 1 }
    ensures zeros { exact_of (codes "10.250000000000") ≡ Some 1_025_000_000 }
    ensures no_point { exact_of (codes "10") ≡ Some 1_000_000_000 }
    ensures point_first { exact_of (codes ".5") ≡ Some 50_000_000 }
    ensures greatest { exact_of (codes "9999999999.99999999") ≡ Some 999_999_999_999_999_999 }
    ensures too_great { exact_of (codes "10000000000") ≡ None }
    ensures nine_decimals { exact_of (codes "0.000000001") ≡ None }
    ensures negative { exact_of (codes "-1") ≡ None }
    ensures exponent { exact_of (codes "1e2") ≡ None }
    ensures nothing { exact_of (codes ".") ≡ None }
{}

/// How it is shown.
pub fn prices_that_are_shown()
    ensures dollars { exact_text 1_025_000_000 ≡ codes "10.25" }
    ensures whole { exact_text 1_000_000_000 ≡ codes "10" }
    ensures least { exact_text 1 ≡ codes "0.00000001" }
    ensures inner_zeros { exact_text 1_000_500_000 ≡ codes "10.005" }
{}

/// 60 shares at 10.25 and 40 at 10.2 cost 1,023 in all, 10.23 on average. A third is rounded down, a half up.
pub fn averages()
    ensures of_two_prices { average (60 * 1_025_000_000 + 40 * 1_020_000_000) 100 ≡ 1_023_000_000 }
    ensures third { average 100 3 ≡ 33 }
    ensures half { average 1 2 ≡ 1 }
{}
