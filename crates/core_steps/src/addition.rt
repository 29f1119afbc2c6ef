ghost use Rattle.std.specs.Prelude.{◌≡◌, ◌<◌, List, Option, Some, IfSome, OnErr, OnOk, is_some, length};
ghost use Rattle.mz_base.specs.declared.logs.ClientLog.{ClientLog};
ghost use Rattle.mz_base.specs.declared.logs.Own.{Own};
ghost use Rattle.mz_base.specs.declared.report.Line.{Line};
ghost use Rattle.run_meaning.specs.Plays.{certificates_with, certified};
ghost use Rattle.core_steps.specs.Additions.{added, entered_at, noted_at, noted_in, with_beside};
ghost use Rattle.core_steps.specs.Certificates.{AreByClient};

use mz_base::{CertEntry, ClientLog, Line, Logs, NoMemory, Own, Seq, UserEntry, UserLog};

/// What a deed of a client adds beside the client's own log.
#[derive(Drop)]
pub enum Beside {
    Nothing,
    /// To the journal of its user.
    Entry(UserEntry),
    /// To the certificates, where such are kept.
    Certificate(CertEntry),
}

/// Adds an event of the client at a place, with its line, where there is one, and what comes beside it. Where memory is
/// refused, nothing is added.
pub fn add(
    logs: &mut Logs,
    client: usize,
    user: usize,
    own: Own,
    line: Option<Line>,
    beside: Beside,
) -> Result<(), NoMemory>
    requires client { client < length logs.old.clients }
    requires user { user < length logs.old.users }
    requires sorted { IfSome logs.old.certificates AreByClient }
    ensures ok { OnOk result (logs.new ≡ added logs.old client user own line beside) }
    ensures err { OnErr result (logs.new ≡ logs.old) }
{
    let has_line = line.is_some();
    logs.events.push(own.event)?;
    if note(&mut logs.clients, client, own, line).is_err() {
        logs.events.pop();
        return Err(NoMemory);
    }
    if add_beside(logs, user, beside).is_err() {
        take_back(&mut logs.clients, client, has_line);
        logs.events.pop();
        return Err(NoMemory);
    }
    Ok(())
}

fn add_beside(logs: &mut Logs, user: usize, beside: Beside) -> Result<(), NoMemory>
    requires user { user < length logs.old.users }
    requires sorted { IfSome logs.old.certificates AreByClient }
    ensures ok { OnOk result (logs.new ≡ with_beside logs.old user beside) }
    ensures err { OnErr result (logs.new ≡ logs.old) }
{
    match beside {
        Beside::Nothing => Ok(()),
        Beside::Entry(entry) => enter(&mut logs.users, user, entry),
        Beside::Certificate(made) => certify(&mut logs.certificates, made),
    }
}

/// Notes an own event of the client at this place, and a line, where there is one.
fn note(
    clients: &mut Seq<ClientLog>,
    place: usize,
    own: Own,
    line: Option<Line>,
) -> Result<(), NoMemory>
    requires { place < length clients.old }
    ensures ok { OnOk result (clients.new ≡ noted_at clients.old place own line) }
    ensures err { OnErr result (clients.new ≡ clients.old) }
{
    note_in(clients.at_mut(place), own, line)
}

fn note_in(log: &mut ClientLog, own: Own, line: Option<Line>) -> Result<(), NoMemory>
    ensures ok { OnOk result (log.new ≡ noted_in log.old own line) }
    ensures err { OnErr result (log.new ≡ log.old) }
{
    log.own.push(own)?;
    if let Some(line) = line {
        if log.lines.push(line).is_err() {
            log.own.pop();
            return Err(NoMemory);
        }
    }
    Ok(())
}

/// Takes back what was noted last of the client at this place.
fn take_back(clients: &mut Seq<ClientLog>, place: usize, has_line: bool)
    requires { place < length clients.old }
    ensures { (before : List ClientLog) (own : Own) (line : Option Line) → is_some line ≡ has_line → place < length before → clients.old ≡ noted_at before place own line → clients.new ≡ before }
{
    take_back_in(clients.at_mut(place), has_line);
}

fn take_back_in(log: &mut ClientLog, has_line: bool)
    ensures { (before : ClientLog) (own : Own) (line : Option Line) → is_some line ≡ has_line → log.old ≡ noted_in before own line → log.new ≡ before }
{
    log.own.pop();
    if has_line {
        log.lines.pop();
    }
}

/// Enters what comes into the journal of the user at this place.
pub fn enter(users: &mut Seq<UserLog>, place: usize, entry: UserEntry) -> Result<(), NoMemory>
    requires { place < length users.old }
    ensures ok { OnOk result (users.new ≡ entered_at users.old place entry) }
    ensures err { OnErr result (users.new ≡ users.old) }
{
    users.at_mut(place).entries.push(entry)
}

/// Puts a certificate behind those of its client and of all clients before it.
fn certify(certificates: &mut Option<Seq<CertEntry>>, made: CertEntry) -> Result<(), NoMemory>
    requires { IfSome certificates.old AreByClient }
    ensures ok { OnOk result (certificates.new ≡ certified certificates.old (Some made)) }
    ensures err { OnErr result (certificates.new ≡ certificates.old) }
{
    match certificates.take() {
        None => Ok(()),
        Some(kept) => {
            let mut entries = kept.into_vec();
            let inserted = insert_by_client(&mut entries, made);
            *certificates = Some(Seq::from_vec(entries));
            inserted
        }
    }
}

fn insert_by_client(entries: &mut Vec<CertEntry>, made: CertEntry) -> Result<(), NoMemory>
    requires { AreByClient entries.old.items }
    ensures ok { OnOk result (entries.new.items ≡ certificates_with entries.old.items made) }
    ensures err { OnErr result (entries.new.items ≡ entries.old.items) }
{
    let client = made.client;
    let place = entries
        .as_slice()
        .partition_point(|entry| entry.client <= client);
    Ok(entries.insert(place, made)?)
}
