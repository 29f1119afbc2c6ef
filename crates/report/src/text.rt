ghost use Rattle.std.specs.Prelude.{◌≡◌, ◌++◌, OnOk, codes, encode_utf8_all};
ghost use Rattle.std.specs.Fmt.{decimal};
ghost use Rattle.std.specs.String.{string_bytes};

use mz_base::{NoMemory, Text};

/// Writes a text, character by character. A formatter would cost more than the rest of a line.
pub fn write_text(out: &mut String, text: &Text) -> Result<(), NoMemory>
    ensures { OnOk result (string_bytes out.new ≡ string_bytes out.old ++ encode_utf8_all text.now) }
{
    for letter in text.as_chars() {
        out.push(*letter)?;
    }
    Ok(())
}

/// Writes a word and a name, and ends the line.
pub fn write_named(out: &mut String, word: &str, name: &Text) -> Result<(), NoMemory>
    ensures { OnOk result (string_bytes out.new ≡ string_bytes out.old ++ (word.now ++ (codes "\t" ++ (encode_utf8_all name.now ++ codes "\n")))) }
{
    out.push_str(word)?;
    write!(out, "\t")?;
    write_text(out, name)?;
    write!(out, "\n")?;
    Ok(())
}

/// Writes a word, a name and a number, and ends the line.
pub fn write_numbered(
    out: &mut String,
    word: &str,
    name: &Text,
    number: u64,
) -> Result<(), NoMemory>
    ensures { OnOk result (string_bytes out.new ≡ string_bytes out.old ++ (word.now ++ (codes "\t" ++ (encode_utf8_all name.now ++ (codes "\t" ++ (decimal number ++ codes "\n")))))) }
{
    out.push_str(word)?;
    write!(out, "\t")?;
    write_text(out, name)?;
    write!(out, "\t{number}\n")?;
    Ok(())
}
