// The records of Packages.
use crate::packages_by_value::PackagesByValue;
use crate::reading::show_reply;
use packages_report::Record;
use reading_reply::ReadingReply;
use script_answers::named::put_record;
use std::io;

// Writes a record.
fn show_record(rt: &HostRuntime, record: Record) -> io::Result<()> {
    let mut line = [0u8; 44];
    let end = put_record(
        &mut line,
        record.id,
        record.size,
        record.received,
        record.state,
    );
    rt.write_all(&line[..end])
}

// Writes the first records of a list, so many as are asked for, and at most all.
fn show_records(rt: &HostRuntime, list: &[Record], count: usize) -> io::Result<()> {
    for record in list.iter().take(count) {
        show_record(rt, *record)?;
    }
    Ok(())
}

// Writes the reply, and the records where there are some.
pub fn show_packages(rt: &HostRuntime, report: PackagesByValue) -> io::Result<()> {
    show_reply(rt, b"packages ", report.answer)?;
    match report.answer {
        ReadingReply::Given(n) => show_records(rt, &report.list, n),
        _ => Ok(()),
    }
}
