ghost use Rattle.std.specs.Prelude.{◌≡◌, ◌<◌, ◌^◌, ℕ, List, Some, IfOk, OnOk, bytes_eq, encode_utf8_all, if◌then◌else◌, length};
ghost use Rattle.schedule.specs.Names.{noted, number_of_name, who_is, who_in};

use mz_base::{Names, NoMemory, Text};
use std::alloc::Global;
use std::collections::HashMap;

/// The numbers of users and clients by their names, in tables that are made once.
#[derive(Drop)]
pub struct Directory {
    pub users: Numbers,
    pub clients: Numbers,
}

impl Directory {
    pub fn of(alloc: Global, names: &Names) -> Result<Directory, NoMemory>
        requires users { length names.now.users < 2 ^ 32 }
        requires clients { length names.now.clients < 2 ^ 32 }
        ensures { IfOk result (λ directory. who_in directory ≡ who_is names.now) }
    {
        Ok(Directory {
            users: Numbers::of(alloc, names.users.as_slice())?,
            clients: Numbers::of(alloc, names.clients.as_slice())?,
        })
    }
}

/// The number of each name.
#[derive(Drop)]
pub struct Numbers {
    by_name: HashMap<String, u32>,
}

impl Numbers {
    /// The places of these names, from 1. Of a name that stands twice the first place counts.
    pub fn of(alloc: Global, names: &[Text]) -> Result<Numbers, NoMemory>
        requires { length names.now < 2 ^ 32 }
        ensures { IfOk result (λ numbers. (field : List ℕ) → noted numbers field ≡ number_of_name names.now field) }
    {
        let mut numbers = Numbers {
            by_name: HashMap::new(alloc),
        };
        for place in (0..names.len()).rev() {
            numbers.put(alloc, &names[place], place as u32 + 1)?;
        }
        Ok(numbers)
    }

    /// The number of the name that a field spells.
    pub fn number(&self, field: &str) -> Option<u32>
        ensures { result ≡ noted self.now field.now }
    {
        self.by_name.get(field).copied()
    }

    fn put(&mut self, alloc: Global, name: &Text, number: u32) -> Result<(), NoMemory>
        ensures { OnOk result ((field : List ℕ) → noted self.new field ≡ (if bytes_eq (encode_utf8_all name.now) field then Some number else noted self.old field)) }
    {
        let key = format!(in alloc; "{name}")?;
        self.by_name.insert(key, number)?;
        Ok(())
    }
}
