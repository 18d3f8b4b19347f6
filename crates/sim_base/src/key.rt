//! The keys of a configuration, and what is known of each, in one row: the reader, the texts that explain a refusal,
//! `presets/make` and the table of docs/CONFIG.md are made from it or read it. Its name, what it accepts and the number
//! that stands for it are proved to be those of `specs/Keys.antt`; words, group and meaning are for people.

ghost use Rattle.std.specs.Prelude.{◌≡◌, Some};
ghost use Rattle.sim_base.specs.Keys.{numbers_before_fields, numbers_behind_fields};

use Accepts::{End, Fields, Integer, Links, Nothing, PowerOfTwo};
use WhereAbsent::{Number, Refused, Usual};
use std::fmt;

/// A key of a configuration, in the order in which keys are tested; `id` and `latency` are those of an item of `link`.
/// `Unknown` stands for a key that no configuration has.
#[derive(Clone, Copy, PartialEq, Eq)]
pub enum Key {
    Cores,
    Channels,
    Groups,
    Ranks,
    Columns,
    Rows,
    Fields,
    Window,
    Width,
    ReadCredits,
    WriteCredits,
    RequestLatency,
    ReplyLatency,
    CreditLatency,
    NRcd,
    NRp,
    NRas,
    NRc,
    NCl,
    NCwl,
    NCcdS,
    NCcdL,
    NRrdS,
    NRrdL,
    NFaw,
    NRtp,
    NWr,
    NWtrS,
    NWtrL,
    NRtw,
    NRfc,
    NRtrs,
    NRefi,
    WriteHigh,
    WriteLow,
    End,
    Link,
    Id,
    Latency,
    Unknown,
}

/// The keys of a document, beside those of an item of `link`.
pub static DOCUMENT_KEYS: [Key; 37] = [
    Key::Cores,
    Key::Channels,
    Key::Groups,
    Key::Ranks,
    Key::Columns,
    Key::Rows,
    Key::Fields,
    Key::Window,
    Key::Width,
    Key::ReadCredits,
    Key::WriteCredits,
    Key::RequestLatency,
    Key::ReplyLatency,
    Key::CreditLatency,
    Key::NRcd,
    Key::NRp,
    Key::NRas,
    Key::NRc,
    Key::NCl,
    Key::NCwl,
    Key::NCcdS,
    Key::NCcdL,
    Key::NRrdS,
    Key::NRrdL,
    Key::NFaw,
    Key::NRtp,
    Key::NWr,
    Key::NWtrS,
    Key::NWtrL,
    Key::NRtw,
    Key::NRfc,
    Key::NRtrs,
    Key::NRefi,
    Key::WriteHigh,
    Key::WriteLow,
    Key::End,
    Key::Link,
];

/// The keys of numbers that are tested before the order of the fields of an address, one after the other.
pub fn numbers_before_fields() -> &'static [Key]
    ensures { result.now ≡ numbers_before_fields }
{
    &DOCUMENT_KEYS[..6]
}

/// The keys of numbers that are tested behind the order of the fields, one after the other.
pub fn numbers_behind_fields() -> &'static [Key]
    ensures { result.now ≡ numbers_behind_fields }
{
    &DOCUMENT_KEYS[7..35]
}

/// What may stand at a key.
#[derive(Clone, Copy)]
pub enum Accepts {
    /// An integer from the first number to the second.
    Integer(u32, u32),
    /// A power of two from the first number to the second.
    PowerOfTwo(u32, u32),
    /// The order of the fields of an address.
    Fields,
    /// What ends a run.
    End,
    /// Tables of a link's number and its latency.
    Links,
    /// Nothing: no document has the key.
    Nothing,
}

/// What an absent key means.
#[derive(Clone, Copy)]
pub enum WhereAbsent {
    /// The configuration is refused.
    Refused,
    /// It is as if this number stood there.
    Number(u32),
    /// No number stands there: no link has a latency of its own, or the run ends at the limit (`KeyRow::meaning`).
    Usual,
}

/// What is known of a key.
#[derive(Clone, Copy)]
pub struct KeyRow {
    /// Its name in a document.
    pub name: &'static str,
    pub accepts: Accepts,
    /// What it accepts, in words.
    pub words: &'static str,
    pub absent: WhereAbsent,
    /// What part of the machine it sets.
    pub group: &'static str,
    pub meaning: &'static str,
}

/// One row for each key, in the order of `Key`.
pub static KEYS: [KeyRow; 40] = [
    KeyRow {
        name: "cores",
        accepts: Integer(1, 256),
        words: "1 to 256",
        absent: Refused,
        group: "machine",
        meaning: "how many cores there are",
    },
    KeyRow {
        name: "channels",
        accepts: PowerOfTwo(1, 16),
        words: "1, 2, 4, 8 or 16",
        absent: Refused,
        group: "machine",
        meaning: "how many channels there are",
    },
    KeyRow {
        name: "groups",
        accepts: PowerOfTwo(2, 4),
        words: "2 or 4",
        absent: Refused,
        group: "memory",
        meaning: "bank groups of four banks each in a rank",
    },
    KeyRow {
        name: "ranks",
        accepts: PowerOfTwo(1, 4),
        words: "1, 2 or 4",
        absent: Number(1),
        group: "memory",
        meaning: "ranks of a channel",
    },
    KeyRow {
        name: "columns",
        accepts: PowerOfTwo(1, 1024),
        words: "a power of two from 1 to 1024",
        absent: Refused,
        group: "memory",
        meaning: "lines of 64 bytes in a row",
    },
    KeyRow {
        name: "rows",
        accepts: PowerOfTwo(1, 262_144),
        words: "a power of two from 1 to 262144",
        absent: Refused,
        group: "memory",
        meaning: "rows in a bank",
    },
    KeyRow {
        name: "fields",
        accepts: Fields,
        words: "an array of \"channel\", \"column\", \"group\", \"bank\" and \"row\", each once, and \"rank\" where a channel has several",
        absent: Refused,
        group: "memory",
        meaning: "the fields of an address, low end first; `rank` may be left out where a channel has one",
    },
    KeyRow {
        name: "window",
        accepts: Integer(1, 4096),
        words: "1 to 4096",
        absent: Refused,
        group: "core",
        meaning: "entries in flight",
    },
    KeyRow {
        name: "width",
        accepts: Integer(1, 16),
        words: "1 to 16",
        absent: Refused,
        group: "core",
        meaning: "entries that are issued in a cycle, and that are retired in one",
    },
    KeyRow {
        name: "read_credits",
        accepts: Integer(1, 64),
        words: "1 to 64",
        absent: Refused,
        group: "core",
        meaning: "reads in flight from a core to a channel",
    },
    KeyRow {
        name: "write_credits",
        accepts: Integer(1, 64),
        words: "1 to 64",
        absent: Refused,
        group: "core",
        meaning: "writes in flight from a core to a channel",
    },
    KeyRow {
        name: "request_latency",
        accepts: Integer(1, 1_000_000),
        words: "1 to 1000000",
        absent: Refused,
        group: "links",
        meaning: "from a core to a channel",
    },
    KeyRow {
        name: "reply_latency",
        accepts: Integer(1, 1_000_000),
        words: "1 to 1000000",
        absent: Refused,
        group: "links",
        meaning: "of the data of a read, back to its core",
    },
    KeyRow {
        name: "credit_latency",
        accepts: Integer(1, 1_000_000),
        words: "1 to 1000000",
        absent: Refused,
        group: "links",
        meaning: "of a credit, back to its core",
    },
    KeyRow {
        name: "nRCD",
        accepts: Integer(1, 100_000),
        words: "1 to 100000",
        absent: Refused,
        group: "timing",
        meaning: "ACT to RD or WR of the bank",
    },
    KeyRow {
        name: "nRP",
        accepts: Integer(1, 100_000),
        words: "1 to 100000",
        absent: Refused,
        group: "timing",
        meaning: "PRE to ACT of the bank",
    },
    KeyRow {
        name: "nRAS",
        accepts: Integer(1, 100_000),
        words: "1 to 100000",
        absent: Refused,
        group: "timing",
        meaning: "ACT to PRE of the bank",
    },
    KeyRow {
        name: "nRC",
        accepts: Integer(1, 100_000),
        words: "1 to 100000",
        absent: Refused,
        group: "timing",
        meaning: "ACT to ACT of the bank",
    },
    KeyRow {
        name: "nCL",
        accepts: Integer(1, 100_000),
        words: "1 to 100000",
        absent: Refused,
        group: "timing",
        meaning: "RD to its data",
    },
    KeyRow {
        name: "nCWL",
        accepts: Integer(1, 100_000),
        words: "1 to 100000",
        absent: Refused,
        group: "timing",
        meaning: "WR to its data",
    },
    KeyRow {
        name: "nCCD_S",
        accepts: Integer(1, 100_000),
        words: "1 to 100000",
        absent: Refused,
        group: "timing",
        meaning: "RD to RD and WR to WR of another bank group",
    },
    KeyRow {
        name: "nCCD_L",
        accepts: Integer(1, 100_000),
        words: "1 to 100000",
        absent: Refused,
        group: "timing",
        meaning: "RD to RD and WR to WR of the bank group",
    },
    KeyRow {
        name: "nRRD_S",
        accepts: Integer(1, 100_000),
        words: "1 to 100000",
        absent: Refused,
        group: "timing",
        meaning: "ACT to ACT of another bank group",
    },
    KeyRow {
        name: "nRRD_L",
        accepts: Integer(1, 100_000),
        words: "1 to 100000",
        absent: Refused,
        group: "timing",
        meaning: "ACT to ACT of the bank group",
    },
    KeyRow {
        name: "nFAW",
        accepts: Integer(1, 100_000),
        words: "1 to 100000",
        absent: Refused,
        group: "timing",
        meaning: "ACT to the fourth ACT after it in the rank",
    },
    KeyRow {
        name: "nRTP",
        accepts: Integer(1, 100_000),
        words: "1 to 100000",
        absent: Refused,
        group: "timing",
        meaning: "RD to PRE of the bank",
    },
    KeyRow {
        name: "nWR",
        accepts: Integer(1, 100_000),
        words: "1 to 100000",
        absent: Refused,
        group: "timing",
        meaning: "end of a WR's data to PRE of the bank",
    },
    KeyRow {
        name: "nWTR_S",
        accepts: Integer(1, 100_000),
        words: "1 to 100000",
        absent: Refused,
        group: "timing",
        meaning: "end of a WR's data to RD of another bank group",
    },
    KeyRow {
        name: "nWTR_L",
        accepts: Integer(1, 100_000),
        words: "1 to 100000",
        absent: Refused,
        group: "timing",
        meaning: "end of a WR's data to RD of the bank group",
    },
    KeyRow {
        name: "nRTW",
        accepts: Integer(1, 100_000),
        words: "1 to 100000",
        absent: Refused,
        group: "timing",
        meaning: "RD to WR of the rank",
    },
    KeyRow {
        name: "nRFC",
        accepts: Integer(1, 100_000),
        words: "1 to 100000",
        absent: Refused,
        group: "timing",
        meaning: "REF to ACT of the rank",
    },
    KeyRow {
        name: "nRTRS",
        accepts: Integer(0, 100_000),
        words: "0 to 100000",
        absent: Number(0),
        group: "timing",
        meaning: "from one rank's data to another's",
    },
    KeyRow {
        name: "nREFI",
        accepts: Integer(0, 100_000),
        words: "0 to 100000",
        absent: Refused,
        group: "timing",
        meaning: "from one refresh of a rank to the next; 0 means none",
    },
    KeyRow {
        name: "write_high",
        accepts: Integer(0, 8192),
        words: "0 to 8192",
        absent: Number(0),
        group: "drain",
        meaning: "writes in the queue at which a channel begins to drain them; 0 means never",
    },
    KeyRow {
        name: "write_low",
        accepts: Integer(0, 8192),
        words: "0 to 8192",
        absent: Number(0),
        group: "drain",
        meaning: "writes in the queue at which it ends",
    },
    KeyRow {
        name: "end",
        accepts: End,
        words: "\"limit\" or \"drained\"",
        absent: Usual,
        group: "run",
        meaning: "`limit`, also where it is absent, or `drained`: as soon as all is retired, served and delivered",
    },
    KeyRow {
        name: "link",
        accepts: Links,
        words: "tables [[link]] of an id and a latency",
        absent: Usual,
        group: "links",
        meaning: "the latency of one link, a table for each; none where it is absent",
    },
    KeyRow {
        name: "id",
        accepts: Integer(0, 12_287),
        words: "0 to 12287",
        absent: Refused,
        group: "item of link",
        meaning: "the number of the link",
    },
    KeyRow {
        name: "latency",
        accepts: Integer(1, 1_000_000),
        words: "1 to 1000000",
        absent: Refused,
        group: "item of link",
        meaning: "how long a message travels on it",
    },
    KeyRow {
        name: "unknown",
        accepts: Nothing,
        words: "no value",
        absent: Refused,
        group: "none",
        meaning: "any other name",
    },
];

impl Key {
    ghost use Rattle.std.specs.Prelude.{◌↔◌, ℕ, IfSome};
    ghost use Rattle.sim_base.specs.declared.key.WhereAbsent.TheVariants.{Number};
    ghost use Rattle.sim_base.specs.Keys.{key_name, key_accepts, key_default, AcceptedAt};

    /// What is known of the key.
    fn row(self) -> &'static KeyRow
        ensures name { result.now.name.now ≡ key_name self }
        ensures accepts { result.now.accepts ≡ key_accepts self }
        ensures absent { (n : ℕ) → (result.now.absent ≡ Number n) ↔ (key_default self ≡ Some n) }
    {
        &KEYS[self as usize]
    }

    /// The key's name in a document.
    pub fn name(self) -> &'static str
        ensures { result.now ≡ key_name self }
    {
        self.row().name
    }

    /// What may stand at the key.
    pub fn accepts(self) -> Accepts
        ensures { result ≡ key_accepts self }
    {
        self.row().accepts
    }

    /// The number that stands for the key where it is absent, if it may be and means one.
    pub fn default_number(self) -> Option<u32>
        ensures value { result ≡ key_default self }
        ensures accepted { IfSome result (AcceptedAt self) }
    {
        match self.row().absent {
            WhereAbsent::Number(number) => Some(number),
            WhereAbsent::Refused | WhereAbsent::Usual => None,
        }
    }
}

impl fmt::Display for Key {
    ghost use Rattle.sim_base.specs.Keys.{key_name};

    ghost output = { λ k. Some (key_name k) };

    fn fmt<W: fmt::Write>(&self, f: &mut fmt::Formatter<W>) -> fmt::Result {
        f.write_str(self.name())
    }
}

impl fmt::Debug for Key {
    fn fmt<W: fmt::Write>(&self, f: &mut fmt::Formatter<W>) -> fmt::Result {
        fmt::Display::fmt(self, f)
    }
}
