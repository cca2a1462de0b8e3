//! A name in a folder.

ghost use Rattle.std.specs.Prelude.{◌≡◌, IfOk};
ghost use Rattle.std.specs.Path.{path_join};
ghost use Rattle.std.specs.String.{string_bytes};

use std::alloc::{AllocError, Global};
use std::path::Path;

/// A name in a folder, and no link: what a path led to. Those of one folder have the same path of it.
#[derive(Drop)]
pub struct Location {
    folder: String,
    name: String,
    // made at once, so that a file can be removed when there is no memory
    path: String,
    ghost joined: { string_bytes path ≡ path_join (string_bytes folder) (string_bytes name) },
}

impl Location {
    ghost use Rattle.ix_files.specs.Locations.{place_of};

    /// The name in the folder of this path, which leads through no links and dots, and is the same for each name in it.
    pub fn new(alloc: Global, folder: String, name: String) -> Result<Location, AllocError>
        ensures folder { IfOk result (λ location.
            (place_of location).folder ≡ string_bytes folder) }
        ensures name { IfOk result (λ location. (place_of location).name ≡ string_bytes name) }
    {
        let path = Path::new(folder.as_str())
            .join(alloc, name.as_str())?
            .into_string();
        Ok(Location { folder, name, path })
    }

    /// The path of the folder.
    pub fn folder(&self) -> &str
        ensures { result.now ≡ (place_of self.now).folder }
    {
        self.folder.as_str()
    }

    /// The name.
    pub fn name(&self) -> &str
        ensures { result.now ≡ (place_of self.now).name }
    {
        self.name.as_str()
    }

    /// The path: that of the folder, and the name.
    pub fn path(&self) -> &str
        ensures { result.now ≡ path_join (place_of self.now).folder (place_of self.now).name }
    {
        self.path.as_str()
    }

    /// Another name in the same folder.
    pub fn beside(&self, alloc: Global, name: String) -> Result<Location, AllocError>
        ensures folder { IfOk result (λ beside.
            (place_of beside).folder ≡ (place_of self.now).folder) }
        ensures name { IfOk result (λ beside. (place_of beside).name ≡ string_bytes name) }
    {
        let folder = String::from_str(alloc, self.folder.as_str())?;
        Location::new(alloc, folder, name)
    }
}

/// The folder of a path, and the name in it.
pub(crate) fn split(path: &str) -> (&str, &str) {
    match path.rsplit_once('/') {
        Some(("", name)) => ("/", name),
        Some((folder, name)) => (folder, name),
        None => (".", path),
    }
}
