//! Where the files of a log stand.
ghost use Rattle.std.specs.Prelude.{◌≡◌, IfOk};
ghost use Rattle.nl_os.specs.Paths.{ArePathsOf, folder_path_of};

use std::alloc::{AllocError, Global};

#[derive(Drop)]
pub struct Paths {
    pub log: String,
    pub scratch: String,
    pub folder: String,
}

impl Paths {
    pub fn new(alloc: Global, path: &str) -> Result<Paths, AllocError>
        ensures value { IfOk result (ArePathsOf path.now) }
    {
        let mut scratch = String::from_str(alloc, path)?;
        scratch.push_str(".recompact")?;
        Ok(Paths {
            log: String::from_str(alloc, path)?,
            scratch,
            folder: String::from_str(alloc, folder_part(path))?,
        })
    }
}

pub fn folder_part(path: &str) -> &str
    ensures value { result.now ≡ folder_path_of path.now }
{
    match path.rfind('/') {
        None => ".",
        Some(0) => "/",
        Some(slash) => &path[..slash],
    }
}
