//! Assertions as calls, which cost the proof of a test far less than what the macros write in its place.

ghost use Rattle.std.specs.Prelude.{◌≡◌, ◌↔◌, true, All};
ghost use Rattle.std.specs.Str.Iter.{HasSubslice};

use std::fmt::Debug;
use std::process::Abort;

/// Ends the test where a value is not the one that is wanted, and prints both.
pub fn expect<T: PartialEq + Debug>(rt: &impl Abort, found: &T, want: &T)
    ensures { T.eq found.now want.now ≡ true }
{
    assert_eq!(rt; found, want);
}

/// Ends the test where a value is not the one that is wanted, and prints both, and at which case that is.
pub fn expect_at<T: PartialEq + Debug, N: Debug>(rt: &impl Abort, case: &N, found: &T, want: &T)
    ensures { T.eq found.now want.now ≡ true }
{
    assert_eq!(rt; found, want, "at {case:?}");
}

/// Ends the test where a part of a text is there and is not wanted, or is wanted and not there.
#[tactic(auto, using(std::proofs::lemmas::Str::Pattern::contains_text))]
fn expect_part(rt: &impl Abort, text: &str, part: &str, is_there: bool)
    ensures { is_there ≡ true ↔ HasSubslice text.now part.now }
{
    expect_at(rt, &part, &text.contains(part), &is_there);
}

/// Does so for each of some parts of a text.
pub fn expect_parts(rt: &impl Abort, text: &str, parts: &[&str], are_there: bool)
    ensures { All (λ part. are_there ≡ true ↔ HasSubslice text.now part.now) parts.now }
{
    for part in parts {
        expect_part(rt, text, part, are_there);
    }
}
