//! Quotients, in billionths.

ghost use Rattle.std.specs.Prelude.{◌≡◌, ◌*◌, ◌^◌, ◌<◌, IfSome};
ghost use Rattle.compare.specs.Quotients.{quotient, share};

/// A greater dividend counts as this one.
const GREATEST: u128 = 1 << 85;

/// A quotient in billionths, rounded down; none where the divisor is 0.
#[tactic(auto, using(crate::proofs::More::quotient_le))]
pub(crate) fn quotient(dividend: u128, divisor: u128) -> Option<u128>
    ensures value { result ≡ quotient dividend divisor }
    ensures small { IfSome result (λ value. value < 2 ^ 116) }
{
    (1_000_000_000 * dividend.min(GREATEST)).checked_div(divisor)
}

/// What percentage of the whole a part is.
pub(crate) fn share(part: u128, whole: u128) -> Option<u128>
    ensures value { result ≡ share part whole }
    ensures small { IfSome result (λ value. value < 2 ^ 116) }
{
    quotient(part.saturating_mul(100), whole)
}
