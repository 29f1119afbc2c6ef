ghost use Rattle.std.specs.Prelude.{◌≡◌, ◌++◌, map, codes, IfOk, OnOk};
ghost use Rattle.std.specs.Fmt.{decimal, signed_decimal};
ghost use Rattle.std.specs.String.{string_bytes};
ghost use Rattle.cert_text.specs.Texts.{line_text, certificate_text};

use mz_base::{Certificate, NoMemory};
use std::alloc::Global;

/// The four lines of a certificate.
pub fn print(alloc: Global, certificate: &Certificate) -> Result<String, NoMemory>
    ensures { IfOk result (λ text. string_bytes text ≡ certificate_text certificate.now) }
{
    let mut text = String::new(alloc);
    print_after(&mut text, certificate)?;
    Ok(text)
}

/// The four lines of a certificate, after what is there. Where memory runs out a part of them may stand there.
pub fn print_after(out: &mut String, certificate: &Certificate) -> Result<(), NoMemory>
    ensures { OnOk result (string_bytes out.new ≡ string_bytes out.old ++ certificate_text certificate.now) }
{
    print_bounds(out, certificate.bounds.as_slice())?;
    print_path(out, certificate.path.as_slice())?;
    print_potentials(out, certificate.potentials.as_slice())?;
    write!(out, "total\t{}\n", certificate.total)?;
    Ok(())
}

fn print_bounds(out: &mut String, bounds: &[u16]) -> Result<(), NoMemory>
    ensures { OnOk result (string_bytes out.new ≡ string_bytes out.old ++ line_text (codes "bounds") (map decimal bounds.now)) }
{
    write!(out, "bounds")?;
    for bound in bounds {
        write!(out, "\t{bound}")?;
    }
    write!(out, "\n")?;
    Ok(())
}

fn print_path(out: &mut String, path: &[u32]) -> Result<(), NoMemory>
    ensures { OnOk result (string_bytes out.new ≡ string_bytes out.old ++ line_text (codes "path") (map decimal path.now)) }
{
    write!(out, "path")?;
    for ordinal in path {
        write!(out, "\t{ordinal}")?;
    }
    write!(out, "\n")?;
    Ok(())
}

fn print_potentials(out: &mut String, potentials: &[i64]) -> Result<(), NoMemory>
    ensures { OnOk result (string_bytes out.new ≡ string_bytes out.old ++ line_text (codes "potentials") (map signed_decimal potentials.now)) }
{
    write!(out, "potentials")?;
    for potential in potentials {
        write!(out, "\t{potential}")?;
    }
    write!(out, "\n")?;
    Ok(())
}
