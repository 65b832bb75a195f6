//! The standard streams, where the caller has closed one: the next file that is opened would stand in for it, and take what is
//! meant for the stream.

use std::fs::File;

/// Stands in for closed streams while it is kept: the files take the least free numbers, and nothing can be written to them.
#[derive(Drop)]
pub struct StandIns {
    _files: [Option<File>; 3],
}

impl StandIns {
    /// A file for each standard stream. One that is open needs none, and its file is kept for nothing.
    pub fn new(rt: &HostRuntime) -> StandIns {
        StandIns {
            _files: [
                File::open(rt, "/dev/null").ok(),
                File::open(rt, "/dev/null").ok(),
                File::open(rt, "/dev/null").ok(),
            ],
        }
    }
}
