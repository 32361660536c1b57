//! How a run is stopped by hand: by a file, which the script `tools/terminal` makes at Ctrl-C.
use std::{env, fs};

/// The environment variable that names the file.
const NAME: &str = "RVLAB_STOP";

/// A file that stops a run once it is there.
#[derive(Drop)]
pub struct StopFile {
    path: Option<String>,
}

impl StopFile {
    /// Returns the file that the environment names. Without a name none stops a run.
    pub fn from_env(rt: &HostRuntime) -> StopFile {
        StopFile {
            path: env::var(rt, NAME).ok(),
        }
    }

    /// Removes the file, and returns whether it was there.
    pub fn take(&self, rt: &HostRuntime) -> bool {
        match &self.path {
            Some(path) => fs::remove_file(rt, path.as_str()).is_ok(),
            None => false,
        }
    }
}
