ghost use Rattle.std.specs.Prelude.{◌≡◌, ℕ, ◌-◌, ◌^◌, ◌≤◌, Ok};
ghost use Rattle.mz_base.specs.Lines.{lines_of};
ghost use Rattle.mz_base.specs.declared.lattice.Certificate.{Certificate};
ghost use Rattle.mz_base.specs.declared.lattice.TheConstants.{MOST_KEY};
ghost use Rattle.cert_text.specs.Readings.{certificate_of};
ghost use Rattle.cert_text.specs.Texts.{certificate_text};
ghost use Rattle.cert_text.specs.Written.{CanBeWritten};

use crate::field::MOST_ORDINAL;

/// What is written of a certificate reads as that certificate.
pub fn written_certificates_read()
    ensures { (key_length : ℕ) (certificate : Certificate) → key_length ≤ MOST_KEY → CanBeWritten key_length certificate →
        certificate_of key_length (lines_of (certificate_text certificate)) ≡ Ok certificate }
{}

/// The highest ordinal. The definition cites the constant, so a wrong one would move it along.
pub fn limits_are()
    ensures ordinal { MOST_ORDINAL ≡ 2 ^ 32 - 1 }
{}
