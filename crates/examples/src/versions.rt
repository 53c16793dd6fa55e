// Versions as text.
use cases::case::field;
use cases::show;
use std::io;
use text::version::whole_version;
use text::write::{put_version, version_length};

// Reads a version, and prints how many bytes it takes and the version written in a buffer of dashes.
pub fn read(rt: &HostRuntime, case: &[u8]) -> io::Result<()> {
    let Some((version, _)) = whole_version(field(case, 1)) else {
        return show::ill_formed(rt);
    };
    show::length(rt, version_length(version))?;
    show::byte(rt, b' ')?;
    let mut buffer = [b'-'; 30];
    put_version(&mut buffer, 1, version);
    show::bytes(rt, &buffer)?;
    show::byte(rt, b'\n')
}
