ghost use Rattle.std.specs.Prelude.{◌≡◌, ◌<◌, ◌≤◌, OnErr, OnOk, Err, length};
ghost use Rattle.std.specs.String.{string_bytes};
ghost use Rattle.report.specs.declared.error.PrintError.TheVariants.{TooLarge};

use crate::PrintError;

/// The most bytes of a report.
pub const MOST_REPORT_BYTES: usize = 1 << 30;

/// Whether what is written is within the limit.
pub fn within(out: &String) -> Result<(), PrintError>
    ensures ok { OnOk result (length (string_bytes out.now) ≤ MOST_REPORT_BYTES) }
    ensures large { OnErr result (MOST_REPORT_BYTES < length (string_bytes out.now)) }
    ensures cause { OnErr result (result ≡ Err TooLarge) }
{
    if MOST_REPORT_BYTES < out.len() {
        return Err(PrintError::TooLarge);
    }
    Ok(())
}
