// Loads a cluster list from standard input with first transfer id 1 and prints ClusterInfo, or `refused 20`. Where a read or a write fails,
// standard error says why; a read that fails is answered by nothing on standard output.
#![tactic(auto)]

mod input;
mod print;

use crate::input::read_parts;
use crate::print::put_answer_to_read;
use cluster_list::limits::{READ_LIST_MOST, WRITTEN_LIST_MOST};
use std::io;

fn main(rt: HostRuntime) -> io::Result<()> {
    // one byte more than a list can have, so that a longer input shows
    let mut read = [0u8; READ_LIST_MOST + 1];
    let mut part = [0u8; 4096];
    let count = match read_parts(&rt, &mut read, &mut part) {
        Ok(count) => count,
        Err(e) => return rt.eprintln(format_args!("clist: standard input: {e}")),
    };
    let mut answer = [0u8; WRITTEN_LIST_MOST];
    let end = put_answer_to_read(&read, count, &mut answer);
    match rt.write_all(&answer[..end]) {
        Ok(()) => Ok(()),
        Err(e) => rt.eprintln(format_args!("clist: standard output: {e}")),
    }
}
