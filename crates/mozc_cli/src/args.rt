ghost use Rattle.std.specs.Prelude.{◌≡◌, ◌<◌, map, IfSome, length};
ghost use Rattle.std.specs.String.{string_bytes};
ghost use Rattle.cert_text.specs.Fields.{bounds_in};
ghost use Rattle.mozc_cli.specs.Args.{IsFit, parse, parse_manifest, parse_key, parse_last, parse_schedule, query, with_bounds};

use world_files::{Bounds, Name, Query};

/// What the words of the command line ask for.
#[derive(Drop)]
pub enum Request<'a> {
    /// To run the clients of a manifest.
    Run(Name<'a>),
    /// To run the clients of a manifest by the schedule in a file.
    Replay(Name<'a>, Name<'a>),
    /// To list the data sets of a manifest.
    Check(Name<'a>),
    /// To convert a key, within bounds.
    Convert(Query<'a>, Bounds<'a>),
    /// To verify the certificate in a file.
    Verify(Query<'a>, Name<'a>),
}

/// What the words ask for, where they are a command. It takes no memory.
pub fn parse(words: &[String]) -> Option<Request<'_>>
    ensures told { result ≡ parse (map string_bytes words.now) }
    ensures fit { IfSome result IsFit }
{
    match words {
        [command, manifest] => parse_manifest(command.as_str(), manifest.as_str()),
        [command, manifest, schedule] => {
            parse_schedule(command.as_str(), manifest.as_str(), schedule.as_str())
        }
        [command, manifest, set, key] => parse_key(command.as_str(), query(manifest, set, key)),
        [command, manifest, set, key, last] => {
            parse_last(command.as_str(), query(manifest, set, key), last.as_str())
        }
        _ => None,
    }
}

fn query<'a>(manifest: &'a String, set: &'a String, key: &'a String) -> Query<'a>
    ensures { result ≡ query (string_bytes manifest.now) (string_bytes set.now) (string_bytes key.now) }
{
    Query {
        manifest: Name::new(manifest.as_str()),
        set: Name::new(set.as_str()),
        key: Name::new(key.as_str()),
    }
}

fn parse_manifest<'a>(command: &str, manifest: &'a str) -> Option<Request<'a>>
    ensures told { result ≡ parse_manifest command.now manifest.now }
    ensures fit { IfSome result IsFit }
{
    if command == "run" {
        return Some(Request::Run(Name::new(manifest)));
    }
    if command == "check" {
        return Some(Request::Check(Name::new(manifest)));
    }
    None
}

fn parse_schedule<'a>(command: &str, manifest: &'a str, schedule: &'a str) -> Option<Request<'a>>
    ensures told { result ≡ parse_schedule command.now manifest.now schedule.now }
    ensures fit { IfSome result IsFit }
{
    if command == "replay" {
        return Some(Request::Replay(Name::new(manifest), Name::new(schedule)));
    }
    None
}

fn parse_key<'a>(command: &str, query: Query<'a>) -> Option<Request<'a>>
    ensures told { result ≡ parse_key command.now query.entry }
    ensures fit { IfSome result IsFit }
{
    if 0 < query.key.count() && command == "convert" {
        Some(Request::Convert(query, Bounds::none()))
    } else {
        None
    }
}

fn parse_last<'a>(command: &str, query: Query<'a>, last: &'a str) -> Option<Request<'a>>
    ensures told { result ≡ parse_last command.now query.entry last.now }
    ensures fit { IfSome result IsFit }
{
    if query.key.count() == 0 {
        return None;
    }
    if command == "convert" {
        return with_bounds(query, last);
    }
    if command == "verify" {
        return Some(Request::Verify(query, Name::new(last)));
    }
    None
}

fn with_bounds<'a>(query: Query<'a>, last: &'a str) -> Option<Request<'a>>
    requires { 0 < length query.key }
    ensures told { result ≡ with_bounds query.entry (bounds_in (length query.entry.key) last.now) }
    ensures fit { IfSome result IsFit }
{
    match Bounds::read(query.key.count(), last) {
        Some(bounds) => Some(Request::Convert(query, bounds)),
        None => None,
    }
}
