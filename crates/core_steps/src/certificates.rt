ghost use Rattle.std.specs.Prelude.{◌≡◌, ◌<◌, ◌+◌, ◌-◌, ℕ, IfOk, Some, is_some, length, slice_index_or};
ghost use Rattle.mz_base.specs.declared.logs.Logs.{Logs};
ghost use Rattle.run_meaning.specs.Deeds.{Steps, certificate_after, certified_by};
ghost use Rattle.run_meaning.specs.States.{client_at, no_client_log};
ghost use Rattle.core_steps.specs.Additions.{beside_certificate, with_beside};
ghost use Rattle.core_steps.specs.Helds.{stepped_by};
ghost use Rattle.core_steps.specs.Kepts.{IsKept, MayDo, progress_at};

use crate::addition::Beside;
use crate::progress::Stepped;
use crate::running::Running;
use mz_base::{CertEntry, Certificate, ClientLog, DataSet, NoMemory, Seq, Text};
use session::Session;
use std::alloc::Global;
use user_dict::UserDict;

/// The certificate of the conversion that a command made, if it made one, with the number of the command from 1.
pub fn certificate_after<D: DataSet + Drop>(
    alloc: Global,
    client: u32,
    number: u32,
    session: &Session<D, UserDict>,
) -> Result<Option<CertEntry>, NoMemory>
    ensures { IfOk result (λ made. made ≡ certificate_after client number session.now) }
{
    match session.converted() {
        None => Ok(None),
        Some((key, conversion)) => Ok(Some(CertEntry {
            client,
            number,
            version: session.version(),
            key: Text::from_chars(alloc, key)?,
            cert: copy_certificate(alloc, &conversion.certificate)?,
        })),
    }
}

fn copy_certificate(alloc: Global, certificate: &Certificate) -> Result<Certificate, NoMemory>
    ensures { IfOk result (λ copy. copy ≡ certificate.now) }
{
    Ok(Certificate {
        bounds: copy_items(alloc, certificate.bounds.as_slice())?,
        path: copy_items(alloc, certificate.path.as_slice())?,
        potentials: copy_items(alloc, certificate.potentials.as_slice())?,
        total: certificate.total,
    })
}

fn copy_items<T: Copy>(alloc: Global, items: &[T]) -> Result<Seq<T>, NoMemory>
    ensures { IfOk result (λ copy. copy ≡ items.now) }
{
    Ok(Seq::from_vec(Vec::from_slice(alloc, items)?))
}

impl<D: DataSet + Drop> Running<D> {
    /// What a step adds beside the lines: the certificate of the conversion that it made, where certificates are kept.
    pub fn certificate(
        &self,
        client: u32,
        place: usize,
        made: &Stepped<D>,
    ) -> Result<Beside, NoMemory>
        requires kept { IsKept self.now }
        requires may { MayDo self.now client place Steps }
        requires made { stepped_by (progress_at self.now place) ≡ Some (record { session = made.now.session; line = made.now.line }) }
        ensures { IfOk result (λ beside. (logs : Logs) (user : ℕ) → is_some logs.certificates ≡ is_some self.now.state.logs.certificates → with_beside logs user beside ≡ with_beside logs user (beside_certificate (certified_by (client_at self.now.state client) (progress_at self.now place).rest))) }
    {
        if self.logs.certificates.is_none() {
            return Ok(Beside::Nothing);
        }
        let number = self.command_number(place);
        let certificate = certificate_after(self.alloc, client, number, &made.session)?;
        Ok(beside_certificate(certificate))
    }

    /// The number of the next command of the client at a place.
    fn command_number(&self, place: usize) -> u32
        requires kept { IsKept self.now }
        requires within { place < length self.now.state.clients }
        requires next { 0 < length (progress_at self.now place).rest }
        ensures { result ≡ length (slice_index_or self.now.state.logs.clients place no_client_log).lines + 1 }
    {
        self.client_log(place).lines.as_slice().len() as u32 + 1
    }

    fn client_log(&self, place: usize) -> &ClientLog
        requires kept { IsKept self.now }
        requires within { place < length self.now.state.clients }
        ensures { result.now ≡ slice_index_or self.now.state.logs.clients place no_client_log }
    {
        &self.logs.clients.as_slice()[place]
    }
}

fn beside_certificate(made: Option<CertEntry>) -> Beside
    ensures { result ≡ beside_certificate made }
{
    match made {
        Some(certificate) => Beside::Certificate(certificate),
        None => Beside::Nothing,
    }
}
