ghost use Rattle.std.specs.Prelude.{◌≡◌, ◌==◌, ◌∷◌, ◌+◌, ◌≤◌, IfOk, length, position};
ghost use Rattle.std.specs.List.{slice_split};
ghost use Rattle.std.specs.Option.{option_copied};
ghost use Rattle.std.specs.Str.Lines.{strip_carriage_return};
ghost use Rattle.mz_base.specs.Lines.{without_mark, without_last_feed, lines_in, lines_of, text_line, fields_of, is_skipped, pointed, parts_left};

use crate::NoMemory;
use std::alloc::Global;

const BYTE_ORDER_MARK: [u8; 3] = [0xEF, 0xBB, 0xBF];

/// The lines of a file. No byte is copied.
pub fn cut_lines(alloc: Global, bytes: &[u8]) -> Result<Vec<&[u8]>, NoMemory>
    ensures { IfOk result (λ lines. pointed lines.items ≡ lines_of bytes.now) }
{
    let text = skip_mark(bytes);
    if text.is_empty() {
        return Ok(Vec::new(alloc));
    }
    parts_of(alloc, text)
}

fn skip_mark(bytes: &[u8]) -> &[u8]
    ensures { result.now ≡ without_mark bytes.now }
{
    match bytes.strip_prefix(&BYTE_ORDER_MARK) {
        Some(text) => text,
        None => bytes,
    }
}

fn drop_last_feed(text: &[u8]) -> &[u8]
    ensures { result.now ≡ without_last_feed text.now }
{
    match text {
        [front @ .., b'\n'] => front,
        _ => text,
    }
}

fn drop_return(part: &[u8]) -> &[u8]
    ensures { result.now ≡ strip_carriage_return part.now }
{
    match part {
        [front @ .., b'\r'] => front,
        _ => part,
    }
}

fn parts_of(alloc: Global, text: &[u8]) -> Result<Vec<&[u8]>, NoMemory>
    ensures { IfOk result (λ lines. pointed lines.items ≡ lines_in text.now) }
{
    let parts = cut_at_feeds(alloc, drop_last_feed(text))?;
    Ok(parts.iter().map(|part| drop_return(part)).collect(alloc)?)
}

fn cut_at_feeds(alloc: Global, text: &[u8]) -> Result<Vec<&[u8]>, NoMemory>
    ensures { IfOk result (λ parts. pointed parts.items ≡ slice_split (λ b. b == 10) text.now) }
{
    Ok(text.split(|b| *b == b'\n').collect(alloc)?)
}

/// The line as text, where it is UTF-8.
pub fn text_of_line(line: &[u8]) -> Option<&str>
    ensures { option_copied result ≡ text_line line.now }
{
    str::from_utf8(line).ok()
}

/// Whether a line of a manifest or a script says nothing: it is empty, or begins with `#`.
pub fn is_skipped(line: &[u8]) -> bool
    ensures { result ≡ is_skipped line.now }
{
    match line {
        [] => true,
        [first, ..] => *first == b'#',
    }
}

/// The fields of a line, without a copy.
pub fn cut_fields(alloc: Global, line: &str) -> Result<Vec<&str>, NoMemory>
    ensures { IfOk result (λ fields. pointed fields.items ≡ fields_of line.now) }
{
    Ok(line.split('\t').collect(alloc)?)
}

/// The lines of a file one after the other. No byte is copied, and no list of them is made.
#[derive(Drop)]
pub struct FileLines<'a> {
    left: Option<&'a [u8]>,
}

impl<'a> FileLines<'a> {
    ghost use Rattle.mz_base.specs.FileLines.{lines_left};

    pub fn of(bytes: &'a [u8]) -> FileLines<'a>
        ensures lines { lines_left result ≡ lines_of bytes.now }
        ensures few { length (lines_left result) ≤ length bytes.now + 1 }
    {
        let text = skip_mark(bytes);
        if text.is_empty() {
            return FileLines { left: None };
        }
        FileLines {
            left: Some(drop_last_feed(text)),
        }
    }
}

impl<'a> Iterator for FileLines<'a> {
    ghost use Rattle.std.specs.Iterator.{YieldsFirstRef, item_count};
    ghost use Rattle.mz_base.specs.FileLines.{lines_left};

    type Item = &'a [u8];

    ghost next_gives = { YieldsFirstRef lines_left };

    ghost remaining = { item_count lines_left };

    fn next(&mut self) -> Option<&'a [u8]> {
        let (part, left) = cut_part(self.left?);
        self.left = left;
        Some(drop_return(part))
    }
}

/// The text before the first line feed, and the text after it.
fn cut_part(text: &[u8]) -> (&[u8], Option<&[u8]>)
    ensures { slice_split (λ b. b == 10) text.now ≡ result.0.now ∷ parts_left result.1 }
{
    match first_feed(text) {
        Some(end) => (&text[..end], Some(&text[end + 1..])),
        None => (text, None),
    }
}

fn first_feed(text: &[u8]) -> Option<usize>
    ensures { result ≡ position (λ b. b == 10) text.now }
{
    text.iter().position(|b| *b == b'\n')
}
