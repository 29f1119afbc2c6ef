ghost use Rattle.std.specs.Prelude.{◌≡◌, ◌<◌, ◌≤◌, Err, IfOk, OnOk, length};
ghost use Rattle.report.specs.Names.{AreNamed};
ghost use Rattle.report.specs.Texts.{report_text};
ghost use Rattle.report.specs.declared.error.PrintError.TheVariants.{TooLarge};
ghost use Rattle.report.specs.declared.room.TheConstants.{MOST_REPORT_BYTES};

use crate::PrintError;
use crate::certificates::print_certificates;
use crate::clients::print_clients;
use crate::events::print_schedule;
use crate::jobs::print_jobs;
use crate::journals::print_journals;
use mz_base::Logs;
use std::alloc::Global;

/// The report of what the logs note. It ends at the line that passes the limit.
pub fn print(alloc: Global, logs: &Logs) -> Result<Vec<u8>, PrintError>
    requires { AreNamed logs.now }
    ensures ok { IfOk result (λ bytes. bytes.items ≡ report_text logs.now) }

    // `TooLarge` comes exactly past the limit, unless memory runs out.
    ensures room { OnOk result (length (report_text logs.now) ≤ MOST_REPORT_BYTES) }
    ensures large { result ≡ Err TooLarge → MOST_REPORT_BYTES < length (report_text logs.now) }
{
    let mut out = String::new(alloc);
    print_clients(&mut out, logs)?;
    print_jobs(&mut out, logs.jobs.as_slice())?;
    print_journals(&mut out, logs)?;
    print_schedule(&mut out, logs)?;
    print_certificates(&mut out, logs)?;
    Ok(out.into_bytes())
}
