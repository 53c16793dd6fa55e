// Counts the bytes of a table as a list.
ghost use Rattle.std.specs.Prelude.{◌≡◌, true, [], ◌∷◌, ◌≤◌, length, drop};
ghost use Rattle.clusters.specs.Cluster.{cluster_within};
ghost use Rattle.clusters.specs.Table.{table_within};
ghost use Rattle.clusters.specs.View.{view_cluster, view_table};
ghost use Rattle.cluster_list.specs.Write.{five_names, need_cells, need_lines_text, cluster_lines, write_list};
ghost use Rattle.cluster_list_writer.specs.Fields.{fields_text};

use clusters::cluster::{Cluster, Need};
use clusters::table::Table;
use text::write::{number_length, version_length};

// Counts the bytes of the fields needs and least of a need, a comma behind each.
fn need_length(n: Need) -> usize
    ensures { result ≡ length (fields_text (need_cells (n ∷ []))) }
{
    number_length(n.part) + version_length(n.least) + 2
}

// Counts the same of the first need of a cluster, or of two empty fields. Precondition: the cluster has at most 4 needs; `cluster_length`
// requires a cluster within its limits.
fn first_need_length(c: Cluster) -> usize
    requires { c.need_count ≤ 4 }
    ensures { result ≡ length (fields_text (need_cells (view_cluster c).needs)) }
{
    if c.need_count < 1 {
        return 2;
    }
    need_length(c.needs[0])
}

// Counts the bytes of the lines of the needs behind the first, each with two empty fields in front, and LF behind the empty mark.
// Precondition: the cluster is within its limits; `cluster_length` requires the same.
fn need_lines_length(c: Cluster) -> usize
    requires { cluster_within (view_cluster c) ≡ true }
    ensures { result ≡ length (need_lines_text five_names (drop 1 (view_cluster c).needs)) }
{
    let mut total = 0;
    for i in 1..c.need_count {
        total += need_length(c.needs[i]) + 3;
    }
    total
}

// Counts the bytes of the lines of a cluster. Its part number and its version have a comma behind each, and its mark is one byte with LF
// behind it. Precondition: the cluster is within its limits; `list_length` requires a table within its limits.
fn cluster_length(c: Cluster) -> usize
    requires { cluster_within (view_cluster c) ≡ true }
    ensures { result ≡ length (cluster_lines five_names (view_cluster c)) }
{
    number_length(c.part)
        + version_length(c.version)
        + 4
        + first_need_length(c)
        + need_lines_length(c)
}

// Counts the bytes of the list. Precondition: the table is within its limits; one that was read is, and so are those of a sound state.
pub fn list_length(t: Table) -> usize
    requires { table_within (view_table t) ≡ true }
    ensures { result ≡ length (write_list (view_table t)) }
{
    let mut total = 34;
    for c in &t.clusters[..t.count] {
        total += cluster_length(*c);
    }
    total
}
