ghost use Rattle.std.specs.Prelude.{◌≡◌, ◌++◌, OnOk};
ghost use Rattle.std.specs.List.{flat_map};
ghost use Rattle.std.specs.String.{string_bytes};
ghost use Rattle.report.specs.Names.{IsOneOf, AreClientsNamed};
ghost use Rattle.report.specs.Printed.{Adds};
ghost use Rattle.report.specs.Texts.{line_text, client_text};

use crate::PrintError;
use crate::names::user_name;
use crate::room::within;
use crate::text::write_text;
use mz_base::{ClientLog, Line, Logs, NoMemory};

/// Each client, and a line for each of its commands.
pub fn print_clients(out: &mut String, logs: &Logs) -> Result<(), PrintError>
    requires { AreClientsNamed logs.now }
    ensures { Adds (string_bytes out.old) (flat_map (client_text logs.now) logs.now.clients) result (string_bytes out.new) }
{
    for client in logs.clients.as_slice() {
        print_client(out, logs, client)?;
    }
    within(out)
}

fn print_client(out: &mut String, logs: &Logs, client: &ClientLog) -> Result<(), PrintError>
    requires { IsOneOf logs.now.users client.now.user }
    ensures { Adds (string_bytes out.old) (client_text logs.now client.now) result (string_bytes out.new) }
{
    write!(
        out,
        "client\t{}\t{}\n",
        client.name,
        user_name(logs, client.user)
    )?;
    for (index, line) in client.lines.as_slice().iter().enumerate() {
        write_line(out, index as u64 + 1, line)?;
        within(out)?;
    }
    within(out)
}

fn write_line(out: &mut String, number: u64, line: &Line) -> Result<(), NoMemory>
    ensures { OnOk result (string_bytes out.new ≡ string_bytes out.old ++ line_text number line.now) }
{
    let word = line.word;
    let mode = line.mode;
    let version = line.version;
    write!(out, "{number}\t{word}\t{mode}\t{version}\t")?;
    write_text(out, &line.result)?;
    for text in line.rest.as_slice() {
        write!(out, "\t")?;
        write_text(out, text)?;
    }
    write!(out, "\n")?;
    Ok(())
}
