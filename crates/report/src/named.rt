ghost use Rattle.std.specs.Prelude.{◌≡◌, true};
ghost use Rattle.report.specs.Names.{AreNamed, AreAllNamed, AreCertificatesNamed, AreClientsNamed, AreEntriesNamed, AreEventsNamed, AreUsersNamed, IsEntryNamed, IsEventNamed, IsOneOf};

use mz_base::{CertEntry, Event, Logs, UserEntry, UserLog};

/// Whether each number of a user, a client or a reload names one that is there, as [`print`](crate::print) asks.
pub fn are_named(logs: &Logs) -> bool
    ensures yes { result ≡ true → AreNamed logs.now }
    ensures no { AreNamed logs.now → result ≡ true }
{
    are_clients_named(logs)
        && are_users_named(logs)
        && are_events_named(logs)
        && are_certificates_named(logs)
}

fn are_clients_named(logs: &Logs) -> bool
    ensures yes { result ≡ true → AreClientsNamed logs.now }
    ensures no { AreClientsNamed logs.now → result ≡ true }
{
    for client in logs.clients.as_slice() {
        if !is_one_of(logs.users.as_slice(), client.user) {
            return false;
        }
    }
    true
}

fn are_users_named(logs: &Logs) -> bool
    ensures yes { result ≡ true → AreUsersNamed logs.now }
    ensures no { AreUsersNamed logs.now → result ≡ true }
{
    for user in logs.users.as_slice() {
        if !are_entries_named(logs, user) {
            return false;
        }
    }
    true
}

fn are_entries_named(logs: &Logs, user: &UserLog) -> bool
    ensures yes { result ≡ true → AreEntriesNamed logs.now user.now }
    ensures no { AreEntriesNamed logs.now user.now → result ≡ true }
{
    for entry in user.entries.as_slice() {
        if !is_entry_named(logs, user, entry) {
            return false;
        }
    }
    true
}

fn is_entry_named(logs: &Logs, user: &UserLog, entry: &UserEntry) -> bool
    ensures yes { result ≡ true → IsEntryNamed logs.now user.now entry.now }
    ensures no { IsEntryNamed logs.now user.now entry.now → result ≡ true }
{
    match entry {
        UserEntry::Learn { client, .. } => is_one_of(logs.clients.as_slice(), *client),
        UserEntry::Dict { reload } => is_one_of(user.dicts.as_slice(), *reload),
        UserEntry::End { client, .. } => is_one_of(logs.clients.as_slice(), *client),
    }
}

fn are_events_named(logs: &Logs) -> bool
    ensures yes { result ≡ true → AreEventsNamed logs.now }
    ensures no { AreEventsNamed logs.now → result ≡ true }
{
    for event in logs.events.as_slice() {
        if !is_event_named(logs, *event) {
            return false;
        }
    }
    true
}

fn is_event_named(logs: &Logs, event: Event) -> bool
    ensures yes { result ≡ true → IsEventNamed logs.now event }
    ensures no { IsEventNamed logs.now event → result ≡ true }
{
    match event {
        Event::Job { .. } | Event::Close => true,
        Event::Dict { user, .. } => is_one_of(logs.users.as_slice(), user),
        Event::Learn { client }
        | Event::Take { client, .. }
        | Event::Await { client, .. }
        | Event::NotYet { client }
        | Event::Step { client }
        | Event::End { client } => is_one_of(logs.clients.as_slice(), client),
    }
}

fn are_certificates_named(logs: &Logs) -> bool
    ensures yes { result ≡ true → AreCertificatesNamed logs.now }
    ensures no { AreCertificatesNamed logs.now → result ≡ true }
{
    match &logs.certificates {
        Some(entries) => are_all_named(logs, entries.as_slice()),
        None => true,
    }
}

fn are_all_named(logs: &Logs, entries: &[CertEntry]) -> bool
    ensures yes { result ≡ true → AreAllNamed logs.now entries.now }
    ensures no { AreAllNamed logs.now entries.now → result ≡ true }
{
    for entry in entries {
        if !is_one_of(logs.clients.as_slice(), entry.client) {
            return false;
        }
    }
    true
}

fn is_one_of<T>(list: &[T], number: u32) -> bool
    ensures yes { result ≡ true → IsOneOf list.now number }
    ensures no { IsOneOf list.now number → result ≡ true }
{
    1 <= number && number as usize <= list.len()
}
