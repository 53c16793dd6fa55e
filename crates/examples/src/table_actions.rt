// Actions on a table.
use actions::action::{Action, apply};
use actions::refusals::action_refusal;
use cases::case::field;
use cases::show;
use cases::values::{number_of, version_of};
use cluster_list::read::read_list;
use clusters::cluster::{Cluster, new_cluster, with_mark};
use clusters::table::{CLUSTERS_MOST, Table, empty_table};
use package_heading::change::change_of;
use std::io;

// Prints the part number and the last part of the version of a cluster, and whether it stays.
fn show_cluster(rt: &HostRuntime, cluster: Cluster) -> io::Result<()> {
    show::byte(rt, b' ')?;
    show::number(rt, cluster.part)?;
    show::byte(rt, b':')?;
    show::number(rt, cluster.version.fourth)?;
    if cluster.stays {
        return show::bytes(rt, b" stays");
    }
    Ok(())
}

// Prints each cluster of a table.
fn show_table(rt: &HostRuntime, table: Table) -> io::Result<()> {
    for cluster in table.clusters.iter().take(table.count) {
        show_cluster(rt, *cluster)?;
    }
    show::byte(rt, b'\n')
}

// Prints the refusal of an action on a table, or the table with it applied.
fn act(rt: &HostRuntime, table: Table, action: Action) -> io::Result<()> {
    if table.count > CLUSTERS_MOST {
        return Ok(());
    }
    if let Err(refusal) = action_refusal(table, false, action) {
        return show::refused(rt, refusal.number());
    }
    show_table(rt, apply(table, action))
}

// Reads an action as word, part number and version, and the list that says the table. The mark of the action's own cluster is 1: it plays
// no part.
pub fn action(rt: &HostRuntime, case: &[u8]) -> io::Result<()> {
    let Some((change, _)) = change_of(field(case, 1)) else {
        return show::ill_formed(rt);
    };
    let cluster = with_mark(
        new_cluster(number_of(field(case, 2)), version_of(field(case, 3))),
        true,
    );
    let table = read_list(field(case, 4)).unwrap_or(empty_table());
    act(rt, table, Action { change, cluster })
}
