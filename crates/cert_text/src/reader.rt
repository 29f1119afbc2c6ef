ghost use Rattle.std.specs.Prelude.{◌≡◌, ◌+◌, ◌<◌, ◌≤◌, IfOk, codes, option_map, option_and_then, slice_get};
ghost use Rattle.std.specs.Option.{option_copied};
ghost use Rattle.mz_base.specs.Lines.{lines_of, pointed, text_line};
ghost use Rattle.mz_base.specs.declared.lattice.TheConstants.{MOST_KEY};
ghost use Rattle.cert_text.specs.Answers.{GivesCertificate};
ghost use Rattle.cert_text.specs.Fields.{after_word, values_of, ordinal_of, potential_of, total_of, bounds_of, RiseWithin};
ghost use Rattle.cert_text.specs.Readings.{fields_at, line_at, certificate_of};

use crate::TextError;
use crate::bounds::bounds_of;
use crate::field::{FromField, values_of};
use mz_base::{Certificate, NoMemory, Seq, cut_fields, cut_lines, narrowed, text_of_line};
use std::alloc::Global;

/// The certificate in a file, for a key of so many characters. Further lines are ignored.
#[tactic(auto, unfolding(crate::specs::Readings::certificate_of))]
pub fn read(alloc: Global, key_length: usize, bytes: &[u8]) -> Result<Certificate, TextError>
    requires { key_length ≤ MOST_KEY }
    ensures given { GivesCertificate (λ certificate. certificate) result (certificate_of key_length (lines_of bytes.now)) }

    // Where it reads, the bounds are bounds of such a key.
    ensures bounds { IfOk result (λ certificate. RiseWithin key_length certificate.bounds) }
{
    let lines = cut_lines(alloc, bytes)?;
    let lines = lines.as_slice();
    let bounds = bounds_line(alloc, lines, key_length)?;
    let path = values_line::<u32>(alloc, lines, 1, "path")?;
    let potentials = values_line::<i64>(alloc, lines, 2, "potentials")?;
    let total = total_line(alloc, lines)?;
    Ok(Certificate {
        bounds: Seq::from_vec(bounds),
        path: Seq::from_vec(path),
        potentials: Seq::from_vec(potentials),
        total,
    })
}

fn bounds_line(alloc: Global, lines: &[&[u8]], key_length: usize) -> Result<Vec<u16>, TextError>
    requires { key_length ≤ MOST_KEY }
    ensures given { GivesCertificate (λ bounds. bounds.items) result (line_at (pointed lines.now) 0 (codes "bounds") (bounds_of key_length)) }
    ensures bounds { IfOk result (λ bounds. RiseWithin key_length bounds.items) }
{
    let fields = fields_at(alloc, lines, 0)?;
    let Some(fields) = after_word(fields.as_slice(), "bounds") else {
        return Err(TextError::Line(1));
    };
    let Some(bounds) = bounds_of(alloc, key_length, fields)? else {
        return Err(TextError::Line(1));
    };
    Ok(narrowed(alloc, bounds.as_slice())?)
}

fn values_line<T: FromField>(
    alloc: Global,
    lines: &[&[u8]],
    place: usize,
    word: &str,
) -> Result<Vec<T>, TextError>
    requires { place < 4 }
    ensures { GivesCertificate (λ values. values.items) result (line_at (pointed lines.now) place word.now (values_of T.value_of)) }
{
    let fields = fields_at(alloc, lines, place)?;
    let Some(fields) = after_word(fields.as_slice(), word) else {
        return Err(TextError::Line(place as u64 + 1));
    };
    match values_of::<T>(alloc, fields)? {
        Some(values) => Ok(values),
        None => Err(TextError::Line(place as u64 + 1)),
    }
}

fn total_line(alloc: Global, lines: &[&[u8]]) -> Result<i64, TextError>
    ensures { GivesCertificate (λ total. total) result (line_at (pointed lines.now) 3 (codes "total") total_of) }
{
    let fields = fields_at(alloc, lines, 3)?;
    match total_after(fields.as_slice()) {
        Some(total) => Ok(total),
        None => Err(TextError::Line(4)),
    }
}

fn total_after(fields: &[&str]) -> Option<i64>
    ensures { result ≡ option_and_then total_of (after_word (codes "total") (pointed fields.now)) }
{
    match after_word(fields, "total")? {
        [field] => i64::from_field(field),
        _ => None,
    }
}

/// The fields of the line at a place; none where there is no such line, or it is no text.
fn fields_at<'a>(alloc: Global, lines: &[&'a [u8]], place: usize) -> Result<Vec<&'a str>, NoMemory>
    ensures { IfOk result (λ fields. pointed fields.items ≡ fields_at (pointed lines.now) place) }
{
    match text_at(lines, place) {
        Some(text) => cut_fields(alloc, text),
        None => Ok(Vec::new(alloc)),
    }
}

fn text_at<'a>(lines: &[&'a [u8]], place: usize) -> Option<&'a str>
    ensures { option_copied result ≡ option_and_then text_line (slice_get (pointed lines.now) place) }
{
    if place < lines.len() {
        text_of_line(lines[place])
    } else {
        None
    }
}

/// The fields after a line's word.
fn after_word<'a, 'b>(fields: &'b [&'a str], word: &str) -> Option<&'b [&'a str]>
    ensures { option_map (λ rest. pointed rest.now) result ≡ after_word word.now (pointed fields.now) }
{
    match fields {
        [first, rest @ ..] => { if *first == word { Some(rest) } else { None } }
        _ => None,
    }
}
