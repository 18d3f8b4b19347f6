//! Texts, put together of fragments.

ghost use Rattle.explain.specs.Fragments.{IsFragmentText};
ghost use Rattle.measures.specs.Texts.{Grows};

use measures::text_builder::TextBuilder;
use measures::text_builder::forms::Append;
use sim_base::key::Key;
use std::alloc::AllocError;
use toml::Value;

/// How many characters of a foreign text are shown.
const MOST: usize = 80;

/// This many bytes hold more characters than are shown, and a cut after them splits none that is shown.
const HEAD: usize = 4 * (MOST + 1);

/// A fragment of a text.
#[derive(Clone, Copy)]
pub(crate) enum Fragment<'a> {
    Words(&'a str),
    Number(u64),
    /// Bytes that someone else wrote: at most 80 characters are shown, and `...` where more follow; `?` for what is not
    /// UTF-8, a space for a tab, and escapes for characters that a terminal does not print.
    Foreign(&'a [u8]),
    /// A key and its value as a document writes them, which are foreign.
    Entry(Key, &'a Value),
    /// The item of `link` with this number, and a colon; of the document itself nothing.
    Place(Option<u64>),
}

impl Append for Fragment<'_> {
    ghost appends = { IsFragmentText };

    fn append_to(self, out: &mut TextBuilder) {
        match self {
            Fragment::Words(words) => out.push_str(words),
            Fragment::Number(number) => write!(out, "{number}"),
            Fragment::Foreign(bytes) => put_foreign(bytes, out),
            Fragment::Entry(key, value) => put_entry(key, value, out),
            Fragment::Place(Some(item)) => write!(out, " item {item} of link:"),
            Fragment::Place(None) => {}
        }
    }
}

fn put_entry(key: Key, value: &Value, out: &mut TextBuilder)
    ensures { Grows out.old out.new }
{
    match value {
        Value::Table(_) => write!(out, "{key} is a table"),
        value => match format!(in out.alloc(); "{key} = {value}") {
            Ok(entry) => put_foreign(entry.as_bytes(), out),
            Err(AllocError) => out.refuse(),
        },
    }
}

fn put_foreign(bytes: &[u8], out: &mut TextBuilder)
    ensures { Grows out.old out.new }
{
    let head = bytes.get(..HEAD).unwrap_or(bytes);
    match String::from_utf8_lossy(out.alloc(), head) {
        Ok(readable) => put_shown(readable.as_str(), out),
        Err(AllocError) => out.refuse(),
    }
}

fn put_shown(readable: &str, out: &mut TextBuilder)
    ensures { Grows out.old out.new }
{
    for (place, character) in readable.chars().enumerate() {
        if place == MOST {
            return out.push_str("...");
        }
        put_character(character, out);
    }
}

fn put_character(character: char, out: &mut TextBuilder)
    ensures { Grows out.old out.new }
{
    match character {
        '"' => out.push_str("\""),
        '\'' => out.push_str("'"),
        '\\' => out.push_str("\\"),
        '\t' => out.push_str(" "),
        char::REPLACEMENT_CHARACTER => out.push_str("?"),
        _ => put_escaped(character, out),
    }
}

// A character as it stands, or its escape if a terminal does not print it.
fn put_escaped(character: char, out: &mut TextBuilder)
    ensures { Grows out.old out.new }
{
    for shown in character.escape_debug() {
        out.push_char(shown);
    }
}
