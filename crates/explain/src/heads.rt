//! What stands before a text.

ghost use Rattle.std.specs.Prelude.{◌≡◌, ◌++◌, IfOk, IsOkAnd, string_bytes};
ghost use Rattle.explain.specs.Heads.{StartsBy};

use std::alloc::AllocError;

/// A text after the beginning of its first line.
pub(crate) fn behind(head: String, rest: Result<String, AllocError>) -> Result<String, AllocError>
    ensures begins { IfOk result (StartsBy (string_bytes head)) }
    ensures whole { IfOk result (λ s.
        IsOkAnd rest (λ r. string_bytes s ≡ string_bytes head ++ string_bytes r)) }
{
    let rest = rest?;
    let mut text = head;
    text.push_str(rest.as_str())?;
    Ok(text)
}
