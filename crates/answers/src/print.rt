//! Answers on a stream.

ghost use Rattle.std.specs.Prelude.{◌≡◌, ◌⊎◌, IfErr, OnOk, IsOk, IsOkAnd, IsErrAnd, string_bytes};
ghost use Rattle.answers.specs.Inputs.{Prints};

use refusal::reason::Reason;
use sim_base::fault::Fault;
use std::alloc::Global;
use std::io::{self, Write};

// Sends a text down a stream.
fn send<P: Write>(output: &mut P, text: &str) -> io::Result<()>
    ensures { OnOk result (Prints P.Write output.old output.new text.now) }
{
    output.write_all(text.as_bytes())?;
    output.flush()
}

/// Puts a text on the stream of answers. Refuses by `Fault::Write` where the stream does not take it whole.
pub fn print_text<P: Write>(alloc: Global, output: &mut P, text: &str) -> Result<(), Reason>
    ensures printed { OnOk result (Prints P.Write output.old output.new text.now) }
    ensures fault { IfErr result (λ e. e ≡ Fault.Write) }
{
    match send(output, text) {
        Ok(()) => Ok(()),
        Err(error) => Err(Reason::of_host(alloc, Fault::Write, "standard output", &error)),
    }
}

/// Puts an answer on the stream of answers, unless it is refused.
pub(crate) fn print_answer<P: Write>(
    alloc: Global,
    output: &mut P,
    answer: Result<String, Reason>,
) -> Result<(), Reason>
    ensures printed { OnOk result (IsOkAnd answer (λ text.
        Prints P.Write output.old output.new (string_bytes text))) }
    ensures fault { IfErr result (λ e.
        ((e ≡ Fault.Write) × IsOk answer) ⊎ IsErrAnd answer (λ f. e ≡ f)) }
    ensures unprinted { IfErr answer (λ _. output.new ≡ output.old) }
{
    match answer {
        Ok(text) => print_text(alloc, output, text.as_str()),
        Err(reason) => Err(reason),
    }
}
