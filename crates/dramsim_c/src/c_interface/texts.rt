//! The line of a configuration's fault, in memory of the caller's.

ghost use Rattle.std.specs.Prelude.{◌≡◌, ◌⊎◌, length, Ok, Err, IfErr, OnOk, OnErr};
ghost use Rattle.config_reader.specs.Document.{document_of};
ghost use Rattle.sim_base.specs.declared.fault.Fault.TheVariants.{Memory};
ghost use Rattle.dramsim_c.specs.CInterface.Texts.{fault_text, written_over, IsTextAnswer};
ghost use Rattle.dramsim_c.specs.declared.c_interface.fault.CallFault.TheVariants as call;

use crate::c_interface::fault::CallFault;
use config_reader::read_config;
use refusal::lines::line_of_fault;
use sim_base::fault::Fault;
use std::alloc::Global;

/// Writes a text to the front of memory, and its length. It is refused as `TooShort` where it does not fit: the memory
/// is as it was then.
fn write_text(text: &[u8], into: &mut [u8], wanted: &mut usize) -> Result<(), CallFault>
    ensures answer { IsTextAnswer text.now (length into.old) result }
    ensures written { OnOk result (into.new ≡ written_over text.now into.old) }
    ensures same { OnErr result (into.new ≡ into.old) }
    ensures short { IfErr result (λ e. e ≡ call.TooShort) }
    ensures wanted { wanted.new ≡ length text.now }
{
    *wanted = text.len();
    if into.len() < text.len() {
        return Err(CallFault::TooShort);
    }
    into[..text.len()].copy_from_slice(text);
    Ok(())
}

/// Writes the line for which the program refuses a configuration, without its end, to the front of memory, and its
/// length; 0 where the configuration is not refused. It is refused as `TooShort` where the line does not fit, or where
/// memory is refused; the memory is as it was then, and in the second case the length is too.
pub fn write_fault(
    alloc: Global,
    text: &[u8],
    into: &mut [u8],
    wanted: &mut usize,
) -> Result<(), CallFault>
    ensures answer { IsTextAnswer (fault_text (document_of text.now)) (length into.old) result }
    ensures written { OnOk result (into.new
        ≡ written_over (fault_text (document_of text.now)) into.old) }
    ensures same { OnErr result (into.new ≡ into.old) }
    ensures wanted { (result ≡ Err (call.Configuration Memory))
        ⊎ (wanted.new ≡ length (fault_text (document_of text.now))) }
    ensures kept { result ≡ Err (call.Configuration Memory) → wanted.new ≡ wanted.old }
{
    match read_config(alloc, text) {
        Ok(_) => {
            *wanted = 0;
            Ok(())
        }
        Err(Fault::Memory) => Err(CallFault::Configuration(Fault::Memory)),
        Err(fault) => write_text(line_of_fault(fault).as_bytes(), into, wanted),
    }
}
