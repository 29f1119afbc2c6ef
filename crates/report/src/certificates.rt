ghost use Rattle.std.specs.Prelude.{◌≡◌, ◌++◌, OnOk};
ghost use Rattle.std.specs.List.{flat_map};
ghost use Rattle.std.specs.String.{string_bytes};
ghost use Rattle.report.specs.Names.{AreCertificatesNamed, IsOneOf, AreAllNamed};
ghost use Rattle.report.specs.Printed.{Adds};
ghost use Rattle.report.specs.Texts.{certificate_entry_text, certificates_section};

use crate::PrintError;
use crate::names::client_name;
use crate::room::within;
use cert_text::print_after;
use mz_base::{CertEntry, Logs, NoMemory};

/// The certificates, where the logs keep them.
pub fn print_certificates(out: &mut String, logs: &Logs) -> Result<(), PrintError>
    requires { AreCertificatesNamed logs.now }
    ensures { Adds (string_bytes out.old) (certificates_section logs.now) result (string_bytes out.new) }
{
    match &logs.certificates {
        Some(entries) => {
            write!(out, "certificates\n")?;
            print_entries(out, logs, entries.as_slice())
        }
        None => within(out),
    }
}

fn print_entries(out: &mut String, logs: &Logs, entries: &[CertEntry]) -> Result<(), PrintError>
    requires { AreAllNamed logs.now entries.now }
    ensures { Adds (string_bytes out.old) (flat_map (certificate_entry_text logs.now) entries.now) result (string_bytes out.new) }
{
    for entry in entries {
        write_certificate(out, logs, entry)?;
        within(out)?;
    }
    within(out)
}

fn write_certificate(out: &mut String, logs: &Logs, entry: &CertEntry) -> Result<(), NoMemory>
    requires { IsOneOf logs.now.clients entry.now.client }
    ensures { OnOk result (string_bytes out.new ≡ string_bytes out.old ++ certificate_entry_text logs.now entry.now) }
{
    let name = client_name(logs, entry.client);
    let number = entry.number;
    let version = entry.version;
    write!(out, "cert\t{name}\t{number}\t{version}\t{}\n", entry.key)?;
    print_after(out, &entry.cert)
}
