//! Files by name, in the order in which they were added.
ghost use Rattle.std.specs.Prelude.{◌≡◌, ◌≢◌, List, [], ◌∷◌, ◌++◌, IfOk, OnOk, OnErr, IsErrOf, string_bytes, option_copied, bytes_eq, find};
ghost use Rattle.mz_outside.specs.FileList.{NamedFile, file_named};

use crate::StoreFault;
use std::alloc::{AllocError, Global};
use std::marker::Model;

#[derive(Drop)]
struct File {
    name: String,
    bytes: Vec<u8>,
}

impl Model for File {
    ghost Value = { NamedFile };

    ghost view = { λ f. record { name = string_bytes f.name; bytes = f.bytes.items } };
}

#[derive(Drop)]
pub(crate) struct FileList {
    alloc: Global,
    files: Vec<File>,
}

impl Model for FileList {
    ghost Value = { List NamedFile };

    ghost view = { λ l. l.files.items };
}

impl FileList {
    pub(crate) fn new(alloc: Global) -> Self
        ensures { result ≡ [] }
    {
        FileList {
            alloc,
            files: Vec::new(alloc),
        }
    }

    pub(crate) fn add(&mut self, name: &str, bytes: &[u8]) -> Result<(), AllocError>
        ensures ok { OnOk result (self.new ≡ self.old ++ record { name = name.now; bytes = bytes.now } ∷ []) }
        ensures err { OnErr result (self.new ≡ self.old) }
    {
        let name = String::from_str(self.alloc, name)?;
        let bytes = Vec::from_slice(self.alloc, bytes)?;
        self.files.push(File { name, bytes })?;
        Ok(())
    }

    pub(crate) fn read(&self, name: &str) -> Result<Vec<u8>, StoreFault>
        ensures found { IfOk result (λ bytes. file_named self.now name.now ≡ Some bytes.items) }
        ensures absent { IsErrOf result StoreFault.Absent → file_named self.now name.now ≡ None }
        ensures sure { result ≢ Err StoreFault.Failed }
    {
        match self.find(name) {
            Some(file) => Ok(Vec::from_slice(self.alloc, &file.bytes)?),
            None => Err(StoreFault::Absent),
        }
    }

    fn find(&self, name: &str) -> Option<&File>
        ensures { option_copied result ≡ find (λ file. bytes_eq file.name name.now) self.now }
    {
        self.files.iter().find(|file| file.name.as_str() == name)
    }
}
