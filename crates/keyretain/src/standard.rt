use std::fs::File;
use std::os::fd::AsRawFd;

/// Takes a descriptor of standard input, output or error that is closed, so that no socket gets its number. Reading
/// from it gives nothing, and writing to it fails. Nothing where none is closed.
pub fn taken(rt: &HostRuntime) -> Option<File> {
    match File::open(rt, "/dev/null") {
        Ok(file) if file.as_raw_fd() < 3 => Some(file),
        _ => None,
    }
}
