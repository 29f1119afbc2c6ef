ghost use Rattle.std.specs.Prelude.{◌≡◌, ◌<◌, ◌^◌, [], ◌∷◌, IfOk, length};
ghost use Rattle.mz_base.specs.Lines.{pointed};
ghost use Rattle.scenario.specs.Entries.{name_of, is_file, has_file, may_have, file_of, dict_of, has_client, client_of, few_loaders, loaders_of, turns_on};

use crate::manifest::{ClientLine, DictLine, FileLine, MOST_LOADERS};
use crate::names::{is_name, is_path, new_name, number_among, role_of};
use mz_base::{NoMemory, Role, Text, number, same_role};
use std::alloc::Global;

/// `DATASET name` and `USER name`.
pub fn name_of(alloc: Global, names: &[Text], fields: &[&str]) -> Result<Option<Text>, NoMemory>
    ensures { IfOk result (λ name. name ≡ name_of names.now (pointed fields.now)) }
{
    match fields {
        [name] => new_name(alloc, names, name),
        _ => Ok(None),
    }
}

/// `FILE set role path`.
pub fn file_of(
    alloc: Global,
    sets: &[Text],
    files: &[FileLine],
    fields: &[&str],
) -> Result<Option<FileLine>, NoMemory>
    requires { length sets.now < 2 ^ 32 }
    ensures { IfOk result (λ file. file ≡ file_of sets.now files.now (pointed fields.now)) }
{
    match fields {
        [set, role, path] => file_from(alloc, sets, files, set, role, path),
        _ => Ok(None),
    }
}

fn file_from(
    alloc: Global,
    sets: &[Text],
    files: &[FileLine],
    set: &str,
    role: &str,
    path: &str,
) -> Result<Option<FileLine>, NoMemory>
    requires { length sets.now < 2 ^ 32 }
    ensures { IfOk result (λ file. file ≡ file_of sets.now files.now (set.now ∷ role.now ∷ path.now ∷ [])) }
{
    let Some(set) = number_among(alloc, sets, set)? else {
        return Ok(None);
    };
    let Some(role) = role_of(role) else {
        return Ok(None);
    };
    if !may_have(files, set, role) || !is_path(path) {
        return Ok(None);
    }
    let path = Text::from_str(alloc, path)?;
    Ok(Some(FileLine { set, role, path }))
}

/// Whether a set has many files of this role, or has none yet.
fn may_have(files: &[FileLine], set: u32, role: Role) -> bool
    ensures { result ≡ may_have files.now set role }
{
    same_role(role, Role::Dictionary) || !has_file(files, set, role)
}

pub fn has_file(files: &[FileLine], set: u32, role: Role) -> bool
    ensures { result ≡ has_file files.now set role }
{
    files.iter().any(|file| is_file(set, role, file))
}

fn is_file(set: u32, role: Role, file: &FileLine) -> bool
    ensures { result ≡ is_file set role file.now }
{
    file.set == set && same_role(file.role, role)
}

/// `USERDICT user path`.
pub fn dict_of(alloc: Global, users: &[Text], fields: &[&str]) -> Result<Option<DictLine>, NoMemory>
    requires { length users.now < 2 ^ 32 }
    ensures { IfOk result (λ dict. dict ≡ dict_of users.now (pointed fields.now)) }
{
    match fields {
        [user, path] => dict_from(alloc, users, user, path),
        _ => Ok(None),
    }
}

fn dict_from(
    alloc: Global,
    users: &[Text],
    user: &str,
    path: &str,
) -> Result<Option<DictLine>, NoMemory>
    requires { length users.now < 2 ^ 32 }
    ensures { IfOk result (λ dict. dict ≡ dict_of users.now (user.now ∷ path.now ∷ [])) }
{
    if !is_path(path) {
        return Ok(None);
    }
    let Some(user) = number_among(alloc, users, user)? else {
        return Ok(None);
    };
    let path = Text::from_str(alloc, path)?;
    Ok(Some(DictLine { user, path }))
}

/// `CLIENT name user script`.
pub fn client_of(
    alloc: Global,
    users: &[Text],
    clients: &[ClientLine],
    fields: &[&str],
) -> Result<Option<ClientLine>, NoMemory>
    requires { length users.now < 2 ^ 32 }
    ensures { IfOk result (λ client. client ≡ client_of users.now clients.now (pointed fields.now)) }
{
    match fields {
        [name, user, script] => client_from(alloc, users, clients, name, user, script),
        _ => Ok(None),
    }
}

fn client_from(
    alloc: Global,
    users: &[Text],
    clients: &[ClientLine],
    name: &str,
    user: &str,
    script: &str,
) -> Result<Option<ClientLine>, NoMemory>
    requires { length users.now < 2 ^ 32 }
    ensures { IfOk result (λ client. client ≡ client_of users.now clients.now (name.now ∷ user.now ∷ script.now ∷ [])) }
{
    let text = Text::from_str(alloc, name)?;
    if !is_name(name) || has_client(clients, text.as_chars()) || !is_path(script) {
        return Ok(None);
    }
    let Some(user) = number_among(alloc, users, user)? else {
        return Ok(None);
    };
    let script = Text::from_str(alloc, script)?;
    Ok(Some(ClientLine {
        name: text,
        user,
        script,
    }))
}

fn has_client(clients: &[ClientLine], name: &[char]) -> bool
    ensures { result ≡ has_client clients.now name.now }
{
    clients.iter().any(|client| client.name.as_chars() == name)
}

/// `LOADERS n`, after what an earlier such line told.
pub fn loaders_of(before: Option<u32>, fields: &[&str]) -> Option<u32>
    ensures { result ≡ loaders_of before (pointed fields.now) }
{
    match (before, fields) {
        (None, [loaders]) => few_loaders(number(loaders)),
        _ => None,
    }
}

fn few_loaders(loaders: Option<u64>) -> Option<u32>
    ensures { result ≡ few_loaders loaders }
{
    let loaders = loaders?;
    if 1 <= loaders && loaders <= MOST_LOADERS as u64 {
        Some(loaders as u32)
    } else {
        None
    }
}

/// `CERTIFICATES on`, where no such line came before.
pub fn turns_on(before: bool, fields: &[&str]) -> bool
    ensures { result ≡ turns_on before (pointed fields.now) }
{
    match fields {
        [word] => *word == "on" && !before,
        _ => false,
    }
}
