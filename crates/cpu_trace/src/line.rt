//! Lines of a trace.

ghost use Rattle.std.specs.Prelude.{◌≡◌, ◌<◌, ◌≤◌, false, [], ◌∷◌, length, slice_index, Ok, Err, MatchOption, MatchResult, not};
ghost use Rattle.std.specs.List.{prefix_len};
ghost use Rattle.std.specs.Option.{option_copied};
ghost use Rattle.sim_base.specs.TraceText.{is_separator, tokens_of, line_entries};
ghost use Rattle.cpu_trace.specs.Lines.{ReadsTokens, tokens_with, entries_in};

use crate::number::read_number;
use sim_base::fault::LineCause;

/// The numbers of a line: how many Plain entries there are, and then the addresses of a Read and of a Write.
#[derive(Clone, Copy)]
pub(crate) struct Line {
    pub plain: u64,
    pub read: u64,
    pub write: Option<u64>,
}

/// Whether a byte stands between tokens.
fn is_separator(byte: u8) -> bool
    ensures { result ≡ is_separator byte }
{
    matches!(byte, b' ' | b'\t' | b'\r')
}

/// How many separators a line begins with.
fn separators(line: &[u8]) -> usize
    ensures value { result ≡ prefix_len is_separator line.now }
    ensures bound { result ≤ length line.now }
{
    line.iter().take_while(|byte| is_separator(**byte)).count()
}

/// The length of the token that a line begins with.
fn token_len(line: &[u8]) -> usize
    ensures value { result ≡ prefix_len (λ byte. not (is_separator byte)) line.now }
    ensures bound { result ≤ length line.now }
{
    line.iter().take_while(|byte| !is_separator(**byte)).count()
}

/// A line without the separators that it begins with.
fn skip_separators(line: &[u8]) -> &[u8]
    ensures tokens { tokens_of result.now ≡ tokens_of line.now }
    ensures first { 0 < length result.now → is_separator (slice_index result.now 0) ≡ false }
{
    &line[separators(line)..]
}

/// The first token of a line, and what follows it.
fn split_token(line: &[u8]) -> Option<(&[u8], &[u8])>
    ensures { MatchOption result (tokens_of line.now ≡ [])
        (λ parts. tokens_of line.now ≡ parts.0.now ∷ tokens_of parts.1.now) }
{
    let rest = skip_separators(line);
    if rest.is_empty() {
        return None;
    }
    Some(rest.split_at(token_len(rest)))
}

/// The numbers of a line with these tokens.
#[tactic(auto, unfolding(sim_base::specs::TraceText::entries_of_tokens))]
fn read_tokens(plain: &[u8], read: &[u8], write: Option<&[u8]>) -> Result<Line, LineCause>
    ensures { ReadsTokens (tokens_with plain.now read.now (option_copied write.entry)) result }
{
    let plain = read_number(plain)?;
    let read = read_number(read)?;
    let write = match write {
        Some(token) => Some(read_number(token)?),
        None => None,
    };
    Ok(Line { plain, read, write })
}

/// The numbers of a line, or none where it is blank.
///
/// The number of tokens is tested first, and then each token from the left.
#[tactic(auto, unfolding(sim_base::specs::TraceText::line_entries, sim_base::specs::TraceText::entries_of_tokens))]
pub(crate) fn read_line(line: &[u8]) -> Result<Option<Line>, LineCause>
    ensures { MatchResult result (λ numbers. line_entries line.now ≡ Ok (entries_in numbers))
        (λ cause. line_entries line.now ≡ Err cause) }
{
    let Some((plain, rest)) = split_token(line) else {
        return Ok(None);
    };
    let Some((read, rest)) = split_token(rest) else {
        return Err(LineCause::TooFew);
    };
    let Some((write, rest)) = split_token(rest) else {
        return Ok(Some(read_tokens(plain, read, None)?));
    };
    if split_token(rest).is_some() {
        return Err(LineCause::TooMany);
    }
    Ok(Some(read_tokens(plain, read, Some(write))?))
}
