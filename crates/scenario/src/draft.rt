ghost use Rattle.std.specs.Prelude.{◌≡◌, ◌+◌, ◌≤◌, IfOk, OnOk, length};
ghost use Rattle.mz_base.specs.Lines.{pointed};
ghost use Rattle.scenario.specs.ManifestAnswers.{Gives};
ghost use Rattle.scenario.specs.declared.manifest.TheConstants.{MOST_SETS};
ghost use Rattle.scenario.specs.Manifests.{nothing_told, dicts_of, have_romaji, with_set, with_file, with_user, with_dict, with_client, with_loaders, with_certificates, with_word, with_fields, with_line, manifest_from, finished};

use crate::entries::{client_of, dict_of, file_of, has_file, loaders_of, name_of, turns_on};
use crate::manifest::{
    ClientLine, DictLine, FileLine, MOST_CLIENTS, MOST_DICTIONARIES, MOST_SETS, MOST_USERS,
    Manifest, ManifestError,
};
use mz_base::{Limit, Role, Seq, Text, cut_fields, is_skipped, text_of_line};
use std::alloc::Global;
use std::marker::Model;

/// What the lines of a manifest have told so far. It allocates where it was made.
#[derive(Drop)]
pub struct Draft {
    alloc: Global,
    sets: Vec<Text>,
    files: Vec<FileLine>,
    users: Vec<Text>,
    dicts: Vec<DictLine>,
    clients: Vec<ClientLine>,
    loaders: Option<u32>,
    certificates: bool,
}

impl Model for Draft {
    ghost use Rattle.std.specs.Prelude.{◌≤◌, length};
    ghost use Rattle.scenario.specs.Manifests.{Told};
    ghost use Rattle.scenario.specs.declared.manifest.TheConstants.{MOST_SETS, MOST_USERS};

    ghost Value = { Told };

    ghost view = { λ d. record { sets = d.sets.items; files = d.files.items; users = d.users.items; dicts = d.dicts.items; clients = d.clients.items; loaders = d.loaders; certificates = d.certificates } };

    ghost invariant = { λ d. (length d.sets.items ≤ MOST_SETS) × (length d.users.items ≤ MOST_USERS) };
}

impl Draft {
    pub fn new(alloc: Global) -> Draft
        ensures { result ≡ nothing_told }
    {
        Draft {
            alloc,
            sets: Vec::new(alloc),
            files: Vec::new(alloc),
            users: Vec::new(alloc),
            dicts: Vec::new(alloc),
            clients: Vec::new(alloc),
            loaders: None,
            certificates: false,
        }
    }

    /// Reads the line of this number.
    #[tactic(auto, unfolding(crate::specs::Manifests::with_line))]
    pub fn read_line(&mut self, number: u64, line: &[u8]) -> Result<(), ManifestError>
        ensures told { Gives (λ _. self.new) result (with_line number self.old line.now) }
        ensures few { OnOk result (length self.new.files ≤ length self.old.files + 1) }
    {
        let Some(text) = text_of_line(line) else {
            return Err(ManifestError::Bad(number));
        };
        if is_skipped(line) {
            return Ok(());
        }
        let fields = cut_fields(self.alloc, text)?;
        self.read_fields(number, fields.as_slice())
    }

    /// The manifest, where nothing is missing; else the line after the last, which has this number, is bad.
    pub fn finish(self, number: u64) -> Result<Manifest, ManifestError>
        ensures told { Gives (λ manifest. manifest) result (finished number self) }
        ensures sets { IfOk result (λ manifest. length manifest.sets ≤ MOST_SETS) }
        ensures files { IfOk result (λ manifest. length manifest.files ≤ length self.files) }
    {
        if self.sets.is_empty() || !self.have_romaji() {
            return Err(ManifestError::Bad(number));
        }
        Ok(self.into_manifest())
    }

    fn into_manifest(self) -> Manifest
        ensures told { result ≡ manifest_from self }
        ensures sets { length result.sets ≤ MOST_SETS }
        ensures files { length result.files ≤ length self.files }
    {
        Manifest {
            sets: Seq::from_vec(self.sets),
            files: Seq::from_vec(self.files),
            users: Seq::from_vec(self.users),
            dicts: Seq::from_vec(self.dicts),
            clients: Seq::from_vec(self.clients),
            loaders: self.loaders.unwrap_or(1),
            certificates: self.certificates,
        }
    }

    /// Whether each set has a romaji file.
    fn have_romaji(&self) -> bool
        ensures { result ≡ have_romaji self.now }
    {
        for set in 1..self.sets.len() as u32 + 1 {
            if !has_file(self.files.as_slice(), set, Role::Romaji) {
                return false;
            }
        }
        true
    }

    fn read_fields(&mut self, number: u64, fields: &[&str]) -> Result<(), ManifestError>
        ensures told { Gives (λ _. self.new) result (with_fields number self.old (pointed fields.now)) }
        ensures few { OnOk result (length self.new.files ≤ length self.old.files + 1) }
    {
        match fields {
            [word, rest @ ..] => self.read_word(number, word, rest),
            [] => Err(ManifestError::Bad(number)),
        }
    }

    #[tactic(auto, unfolding(crate::specs::Manifests::with_word))]
    fn read_word(&mut self, number: u64, word: &str, rest: &[&str]) -> Result<(), ManifestError>
        ensures told { Gives (λ _. self.new) result (with_word number self.old word.now (pointed rest.now)) }
        ensures few { OnOk result (length self.new.files ≤ length self.old.files + 1) }
    {
        if word == "DATASET" {
            return self.add_set(number, rest);
        }
        if word == "FILE" {
            return self.add_file(number, rest);
        }
        if word == "USER" {
            return self.add_user(number, rest);
        }
        if word == "USERDICT" {
            return self.add_dict(number, rest);
        }
        if word == "CLIENT" {
            return self.add_client(number, rest);
        }
        if word == "LOADERS" {
            return self.set_loaders(number, rest);
        }
        if word == "CERTIFICATES" {
            return self.set_certificates(number, rest);
        }
        Err(ManifestError::Bad(number))
    }

    #[tactic(auto, unfolding(crate::specs::Manifests::with_set))]
    fn add_set(&mut self, number: u64, fields: &[&str]) -> Result<(), ManifestError>
        ensures told { Gives (λ _. self.new) result (with_set number self.old (pointed fields.now)) }
        ensures few { OnOk result (length self.new.files ≤ length self.old.files + 1) }
    {
        let Some(name) = name_of(self.alloc, self.sets.as_slice(), fields)? else {
            return Err(ManifestError::Bad(number));
        };
        if MOST_SETS <= self.sets.len() {
            return Err(ManifestError::TooLarge(Limit::Sets, number));
        }
        self.sets.push(name)?;
        Ok(())
    }

    #[tactic(auto, unfolding(crate::specs::Manifests::with_file))]
    fn add_file(&mut self, number: u64, fields: &[&str]) -> Result<(), ManifestError>
        ensures told { Gives (λ _. self.new) result (with_file number self.old (pointed fields.now)) }
        ensures few { OnOk result (length self.new.files ≤ length self.old.files + 1) }
    {
        let sets = self.sets.as_slice();
        let Some(file) = file_of(self.alloc, sets, self.files.as_slice(), fields)? else {
            return Err(ManifestError::Bad(number));
        };
        self.files.push(file)?;
        Ok(())
    }

    #[tactic(auto, unfolding(crate::specs::Manifests::with_user))]
    fn add_user(&mut self, number: u64, fields: &[&str]) -> Result<(), ManifestError>
        ensures told { Gives (λ _. self.new) result (with_user number self.old (pointed fields.now)) }
        ensures few { OnOk result (length self.new.files ≤ length self.old.files + 1) }
    {
        let Some(name) = name_of(self.alloc, self.users.as_slice(), fields)? else {
            return Err(ManifestError::Bad(number));
        };
        if MOST_USERS <= self.users.len() {
            return Err(ManifestError::TooLarge(Limit::Users, number));
        }
        self.users.push(name)?;
        Ok(())
    }

    #[tactic(auto, unfolding(crate::specs::Manifests::with_dict))]
    fn add_dict(&mut self, number: u64, fields: &[&str]) -> Result<(), ManifestError>
        ensures told { Gives (λ _. self.new) result (with_dict number self.old (pointed fields.now)) }
        ensures few { OnOk result (length self.new.files ≤ length self.old.files + 1) }
    {
        let Some(dict) = dict_of(self.alloc, self.users.as_slice(), fields)? else {
            return Err(ManifestError::Bad(number));
        };
        if MOST_DICTIONARIES <= count_of(dict.user, self.dicts.as_slice()) {
            return Err(ManifestError::TooLarge(Limit::Dictionaries, number));
        }
        self.dicts.push(dict)?;
        Ok(())
    }

    #[tactic(auto, unfolding(crate::specs::Manifests::with_client))]
    fn add_client(&mut self, number: u64, fields: &[&str]) -> Result<(), ManifestError>
        ensures told { Gives (λ _. self.new) result (with_client number self.old (pointed fields.now)) }
        ensures few { OnOk result (length self.new.files ≤ length self.old.files + 1) }
    {
        let users = self.users.as_slice();
        let Some(client) = client_of(self.alloc, users, self.clients.as_slice(), fields)? else {
            return Err(ManifestError::Bad(number));
        };
        if MOST_CLIENTS <= self.clients.len() {
            return Err(ManifestError::TooLarge(Limit::Clients, number));
        }
        self.clients.push(client)?;
        Ok(())
    }

    #[tactic(auto, unfolding(crate::specs::Manifests::with_loaders))]
    fn set_loaders(&mut self, number: u64, fields: &[&str]) -> Result<(), ManifestError>
        ensures told { Gives (λ _. self.new) result (with_loaders number self.old (pointed fields.now)) }
        ensures few { OnOk result (length self.new.files ≤ length self.old.files + 1) }
    {
        let Some(loaders) = loaders_of(self.loaders, fields) else {
            return Err(ManifestError::Bad(number));
        };
        self.loaders = Some(loaders);
        Ok(())
    }

    #[tactic(auto, unfolding(crate::specs::Manifests::with_certificates))]
    fn set_certificates(&mut self, number: u64, fields: &[&str]) -> Result<(), ManifestError>
        ensures told { Gives (λ _. self.new) result (with_certificates number self.old (pointed fields.now)) }
        ensures few { OnOk result (length self.new.files ≤ length self.old.files + 1) }
    {
        if !turns_on(self.certificates, fields) {
            return Err(ManifestError::Bad(number));
        }
        self.certificates = true;
        Ok(())
    }
}

/// How many dictionaries the user has.
fn count_of(user: u32, dicts: &[DictLine]) -> usize
    ensures { result ≡ length (dicts_of user dicts.now) }
{
    dicts.iter().filter(|dict| dict.user == user).count()
}
