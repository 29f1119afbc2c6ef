ghost use Rattle.std.specs.Prelude.{◌≡◌, ◌∷◌};
ghost use Rattle.mz_base.specs.Lines.{fields_of, fields_left};

/// The first field of a line, and the text of the fields after it.
pub fn cut_field(line: &str) -> (&str, Option<&str>)
    ensures { fields_of line.now ≡ result.0.now ∷ fields_left result.1 }
{
    match line.split_once('\t') {
        Some((field, rest)) => (field, Some(rest)),
        None => (line, None),
    }
}
