// Writes a table as a list.
ghost use Rattle.std.specs.Prelude.{◌≡◌, true, ◌+◌, ◌≤◌, length};
ghost use Rattle.text.specs.Put.{Put};
ghost use Rattle.clusters.specs.Table.{table_within};
ghost use Rattle.clusters.specs.View.{view_table};
ghost use Rattle.cluster_list.specs.Write.{five_names, clusters_text, write_list};

use crate::put::put_cluster;
use clusters::table::Table;
use text::write::put_bytes;

// Puts the lines of the clusters. Precondition: the table is within its limits, and the lines fit into the buffer from the place on;
// `write_list` requires both of the whole list.
fn put_clusters(buf: &mut [u8], from: usize, t: Table) -> usize
    requires { (table_within (view_table t) ≡ true) × (from + length (clusters_text five_names (view_table t)) ≤ length buf.old) }
    ensures { Put buf.old from (clusters_text five_names (view_table t)) result buf.new }
{
    let mut at = from;
    for c in &t.clusters[..t.count] {
        at = put_cluster(buf, at, *c);
    }
    at
}

// Writes the list at the start of the buffer and gives its length. Precondition: the table is within its limits, and the buffer has room
// for the list; a table that was read is within them, and so are those of a sound state, and callers compare the length of the list, known
// beforehand, with the buffer's, or lend a buffer for the longest.
pub fn write_list(buf: &mut [u8], t: Table) -> usize
    requires { (table_within (view_table t) ≡ true) × (length (write_list (view_table t)) ≤ length buf.old) }
    ensures { Put buf.old 0 (write_list (view_table t)) result buf.new }
{
    let behind_names = put_bytes(buf, 0, b"cluster,version,needs,least,stays\n");
    put_clusters(buf, behind_names, t)
}
