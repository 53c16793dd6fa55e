// Cluster lists, read and written again.
use cases::case::field;
use cases::show;
use cluster_list::limits::{WRITTEN_LIST_MOST, longest_read, longest_written};
use cluster_list::read::read_list;
use cluster_list_writer::length::list_length;
use cluster_list_writer::write::write_list;
use std::io;

// Reads the list in the field behind what the case is of, and prints its length known beforehand and the list that our writer writes.
pub fn list(rt: &HostRuntime, case: &[u8]) -> io::Result<()> {
    let Some(table) = read_list(field(case, 2)) else {
        return show::ill_formed(rt);
    };
    show::length(rt, list_length(table))?;
    show::byte(rt, b'\n')?;
    let mut buffer = [0u8; WRITTEN_LIST_MOST];
    let end = write_list(&mut buffer, table);
    show::bytes(rt, &buffer[..end])
}

// Prints how long a list can be that is written, and one that can be read.
pub fn longest(rt: &HostRuntime) -> io::Result<()> {
    show::length(rt, longest_written())?;
    show::bytes(rt, b" written,")?;
    show::length(rt, longest_read())?;
    show::bytes(rt, b" read\n")
}
