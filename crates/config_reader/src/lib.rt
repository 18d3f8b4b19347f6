//! Reads the document of a configuration.
#![tactic(auto)]

ghost use Rattle.std.specs.Prelude.{◌≡◌, Ok, Err, IfOk, IfErr, IsUtf8};
ghost use Rattle.toml.specs.Parse.{parse_document};
ghost use Rattle.toml.specs.View.{table_view};
ghost use Rattle.sim_base.specs.Values.{values_of};
ghost use Rattle.config_reader.specs.Document.{config_of, config_from, document_of};
ghost use Rattle.sim_base.specs.Faults.{IsFaultOf};

mod draft;
mod end;
mod fields;
mod keys;
mod links;
mod numbers;
mod relations;

use draft::Draft;
use sim_base::config::Config;
use sim_base::fault::Fault;
use std::alloc::Global;
use toml::Table;

/// The configuration that a document's table states.
#[tactic(auto, unfolding(crate::specs::Document::config_of))]
fn read_table(alloc: Global, table: &Table) -> Result<Config, Fault>
    ensures ok { IfOk result (λ c. config_of (table_view table.now) ≡ Ok (values_of c)) }
    ensures refused { IfErr result (IsFaultOf (config_of (table_view table.now))) }
{
    let draft = Draft::read(alloc, table)?;
    draft.check_relations()?;
    Ok(draft.into_config())
}

/// The configuration that a text states.
fn read_text(alloc: Global, text: &str) -> Result<Config, Fault>
    ensures ok { IfOk result (λ c. config_from (parse_document text.now) ≡ Ok (values_of c)) }
    ensures refused { IfErr result (IsFaultOf (config_from (parse_document text.now))) }
{
    match toml::table_from_str(alloc, text) {
        Ok(table) => read_table(alloc, &table),
        Err(e) if e.is_memory() => Err(Fault::Memory),
        Err(_) => Err(Fault::ConfigSyntax),
    }
}

/// Reads a configuration. If the document is refused, the fault is the first one found: the keys are tested one after
/// the other, then comes any key that no configuration has, and then the relations in the order of their numbers. If
/// memory is refused, the fault is `Memory`.
#[tactic(auto, using(crate::proofs::DocumentTexts::document_of_text, crate::proofs::DocumentTexts::document_of_bytes))]
pub fn read_config(alloc: Global, bytes: &[u8]) -> Result<Config, Fault>
    ensures ok { IfOk result (λ c. document_of bytes.now ≡ Ok (values_of c)) }
    ensures refused { IfErr result (IsFaultOf (document_of bytes.now)) }
    ensures no_text { ¬ (IsUtf8 bytes.now) → result ≡ Err Fault.ConfigSyntax }
{
    match str::from_utf8(bytes) {
        Ok(text) => read_text(alloc, text),
        Err(_) => Err(Fault::ConfigSyntax),
    }
}
