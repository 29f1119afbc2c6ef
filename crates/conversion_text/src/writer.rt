ghost use Rattle.std.specs.Prelude.{◌≡◌, ◌++◌, IfOk, OnOk, encode_utf8_all, slice_range};
ghost use Rattle.std.specs.List.{flat_map};
ghost use Rattle.std.specs.String.{string_bytes};
ghost use Rattle.conversion_text.specs.Texts.{candidate_text, conversion_text, cost_text, segment_text};

use mz_base::{Candidate, Conversion, NoMemory, Segment};
use std::alloc::Global;

/// The text of a key's conversion.
pub fn print(alloc: Global, key: &[char], conversion: &Conversion) -> Result<String, NoMemory>
    ensures { IfOk result (λ text. string_bytes text ≡ conversion_text key.now conversion.now) }
{
    let mut text = String::new(alloc);
    cert_text::print_after(&mut text, &conversion.certificate)?;
    print_segments(&mut text, key, conversion.segments.as_slice())?;
    Ok(text)
}

fn print_segments(out: &mut String, key: &[char], segments: &[Segment]) -> Result<(), NoMemory>
    ensures { OnOk result (string_bytes out.new ≡ string_bytes out.old ++ flat_map (segment_text key.now) segments.now) }
{
    for segment in segments {
        print_segment(out, key, segment)?;
    }
    Ok(())
}

fn print_segment(out: &mut String, key: &[char], segment: &Segment) -> Result<(), NoMemory>
    ensures { OnOk result (string_bytes out.new ≡ string_bytes out.old ++ segment_text key.now segment.now) }
{
    write!(out, "segment\t{}\t{}\t", segment.begin, segment.end)?;
    print_letters(out, part(key, segment.begin as usize, segment.end as usize))?;
    write!(out, "\n")?;
    print_candidates(out, segment.candidates.as_slice())
}

/// The characters of the key from one position to another, as far as there are any.
fn part(key: &[char], begin: usize, end: usize) -> &[char]
    ensures { result.now ≡ slice_range key.now begin end }
{
    let (_, rest) = key.split_at(begin.min(key.len()));
    let (part, _) = rest.split_at(end.saturating_sub(begin).min(rest.len()));
    part
}

fn print_letters(out: &mut String, letters: &[char]) -> Result<(), NoMemory>
    ensures { OnOk result (string_bytes out.new ≡ string_bytes out.old ++ encode_utf8_all letters.now) }
{
    for letter in letters {
        out.push(*letter)?;
    }
    Ok(())
}

fn print_candidates(out: &mut String, candidates: &[Candidate]) -> Result<(), NoMemory>
    ensures { OnOk result (string_bytes out.new ≡ string_bytes out.old ++ flat_map candidate_text candidates.now) }
{
    for candidate in candidates {
        print_candidate(out, candidate)?;
    }
    Ok(())
}

fn print_candidate(out: &mut String, candidate: &Candidate) -> Result<(), NoMemory>
    ensures { OnOk result (string_bytes out.new ≡ string_bytes out.old ++ candidate_text candidate.now) }
{
    write!(out, "candidate\t")?;
    print_cost(out, candidate.cost)?;
    write!(out, "\t{}\n", candidate.value)?;
    Ok(())
}

fn print_cost(out: &mut String, cost: Option<i64>) -> Result<(), NoMemory>
    ensures { OnOk result (string_bytes out.new ≡ string_bytes out.old ++ cost_text cost) }
{
    match cost {
        Some(cost) => write!(out, "{cost}")?,
        None => write!(out, "-")?,
    }
    Ok(())
}
