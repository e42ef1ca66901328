//! The files of the system.

use crate::files::{Files, Kind, STREAM};
use crate::limited::{Limited, file_limit};
use std::fs::{Metadata, OpenFile, OpenOptions};
use std::os::unix::fs::MetadataExt;
use std::rt::Files as FileRuntime;
use std::{fs, io};

/// Opens the system's files.
#[derive(Drop)]
pub struct HostFiles<'a, R: FileRuntime> {
    pub rt: &'a R,
    /// The number of the process.
    pub process: u32,
}

/// A file among all of the system: its device and its number there.
#[derive(Clone, Copy, PartialEq, Eq)]
struct Node {
    device: u64,
    number: u64,
}

fn node_of(found: &Metadata) -> Node {
    Node {
        device: found.dev(),
        number: found.ino(),
    }
}

/// Where a path leads.
#[derive(Clone, Copy, PartialEq, Eq)]
enum Place<'p> {
    /// To an ordinary file.
    File(Node),
    /// To no file yet, but to this name in a folder.
    Free { folder: Node, name: &'p str },
    /// To something else, or to no place.
    Elsewhere,
}

// The folder of a path, and its name there.
fn folder_and_name(path: &str) -> (&str, &str) {
    match path.rsplit_once('/') {
        Some(("", name)) => ("/", name),
        Some((folder, name)) => (folder, name),
        None => (".", path),
    }
}

// The place of a path at which nothing is.
fn free_place<'p, R: FileRuntime>(rt: &R, path: &'p str) -> Place<'p> {
    let (folder, name) = folder_and_name(path);
    match fs::metadata(rt, folder) {
        Ok(found) => Place::Free {
            folder: node_of(&found),
            name,
        },
        Err(_) => Place::Elsewhere,
    }
}

fn place_of<'p, R: FileRuntime>(rt: &R, path: &'p str) -> Place<'p> {
    match fs::metadata(rt, path) {
        Ok(found) if found.is_file() => Place::File(node_of(&found)),
        Ok(_) => Place::Elsewhere,
        Err(_) => free_place(rt, path),
    }
}

fn kind_of(found: &Metadata) -> Kind {
    if found.is_file() {
        Kind::File
    } else if found.is_dir() {
        Kind::Folder
    } else {
        Kind::Special
    }
}

impl<'a, R: FileRuntime> HostFiles<'a, R> {
    // A file that is to be written, by these options.
    fn opened(&self, options: &OpenOptions, path: &str) -> io::Result<Limited<R::File>> {
        let file = options.open(self.rt, path)?;
        Ok(Limited {
            file,
            left: file_limit(self.rt),
        })
    }
}

impl<'a, R: FileRuntime> Files for HostFiles<'a, R> {
    type Reader = R::File;

    type Writer = Limited<R::File>;

    fn open(&mut self, path: &str) -> io::Result<R::File> {
        if path == STREAM {
            return fs::open(self.rt, "/dev/stdin");
        }
        fs::open(self.rt, path)
    }

    fn create(&mut self, path: &str) -> io::Result<Limited<R::File>> {
        let mut options = OpenOptions::new();
        if path == STREAM {
            options.append(true);
            let file = options.open(self.rt, "/dev/stdout")?;
            return Ok(Limited { file, left: None });
        }
        options.write(true).create(true).truncate(true);
        self.opened(&options, path)
    }

    fn create_new(&mut self, path: &str) -> io::Result<Limited<R::File>> {
        let mut options = OpenOptions::new();
        options.write(true).create_new(true);
        self.opened(&options, path)
    }

    fn process(&mut self) -> u32 {
        self.process
    }

    fn take_permissions(&mut self, from: &str, to: &str) {
        if let Ok(found) = fs::metadata(self.rt, from) {
            let _set = fs::set_permissions(self.rt, to, found.permissions());
        }
    }

    fn kind(&mut self, path: &str) -> Kind {
        match fs::metadata(self.rt, path) {
            Ok(found) => kind_of(&found),
            Err(_) => Kind::Absent,
        }
    }

    fn is_same_file(&mut self, first: &str, second: &str) -> bool {
        let place = place_of(self.rt, first);
        place != Place::Elsewhere && place == place_of(self.rt, second)
    }

    fn is_special(&mut self, path: &str) -> bool {
        if path == STREAM {
            return true;
        }
        match fs::symlink_metadata(self.rt, path) {
            Ok(found) => !found.is_file(),
            Err(_) => false,
        }
    }

    fn rename(&mut self, from: &str, to: &str) -> io::Result<()> {
        fs::rename(self.rt, from, to)
    }

    fn remove(&mut self, path: &str) -> io::Result<()> {
        fs::remove_file(self.rt, path)
    }

    fn create_folder(&mut self, path: &str) -> io::Result<()> {
        fs::create_dir_all(self.rt, path)
    }
}
