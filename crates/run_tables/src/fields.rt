//! The fields of a record.

ghost use Rattle.std.specs.Prelude.{◌≡◌, ◌↔◌, IsTrue};
ghost use Rattle.std.specs.Str.{bytes_eq};
ghost use Rattle.csv.specs.Records.{fields_of};
ghost use Rattle.rule_check.specs.Fields.{text_at};

use csv::ByteRecord;
use rule_check::fields::text_at;

/// Whether a field is this text.
pub(crate) fn is_at(fields: &ByteRecord, k: usize, text: &[u8]) -> bool
    ensures value { result ≡ bytes_eq (text_at (fields_of fields.now) k) text.now }
    ensures same { IsTrue result ↔ (text_at (fields_of fields.now) k ≡ text.now) }
{
    text_at(fields, k) == text
}
