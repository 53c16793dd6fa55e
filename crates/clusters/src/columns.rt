// The part numbers, versions and marks of a table, taken out once: a search passes a column of 256 bytes and not the table.
ghost use Rattle.std.specs.Prelude.{◌≡◌, ◌≤◌, length, take};
ghost use Rattle.clusters.specs.Table.{clusters_most};
ghost use Rattle.clusters.specs.Place.{place_among};

use crate::table::{CLUSTERS_MOST, Table};
use text::version::{NO_VERSION, Version};

// The first count places of each column count; the places behind them are unused.
#[derive(Clone, Copy)]
pub struct Columns {
    pub parts: [u32; CLUSTERS_MOST],
    pub versions: [Version; CLUSTERS_MOST],
    pub marks: [bool; CLUSTERS_MOST],
    pub count: usize,
    pub ghost few: { count ≤ clusters_most },
}

impl Columns {
    ghost use Rattle.clusters.specs.View.{view_table};
    ghost use Rattle.clusters.specs.Columns.{ColumnsOf};

    // Takes out the columns of a table. Precondition: the table has at most 64 clusters; callers have checked the limits of the table, or
    // require them.
    pub fn of(t: Table) -> Columns
        requires { t.count ≤ clusters_most }
        ensures { ColumnsOf result (view_table t) }
    {
        let mut parts = [0u32; CLUSTERS_MOST];
        let mut versions = [NO_VERSION; CLUSTERS_MOST];
        let mut marks = [false; CLUSTERS_MOST];
        for i in 0..t.count {
            let c = t.clusters[i];
            parts[i] = c.part;
            versions[i] = c.version;
            marks[i] = c.stays;
        }
        Columns {
            parts,
            versions,
            marks,
            count: t.count,
        }
    }
}

// Finds where a part number stands among the first of a column. Precondition: the column has 64 places, and at most so many count;
// `Columns::of` gives such columns.
pub fn place_of(parts: &[u32; CLUSTERS_MOST], count: usize, part: u32) -> Option<usize>
    requires { (count ≤ clusters_most) × (length parts.now ≡ clusters_most) }
    ensures { result ≡ place_among 0 part (take count parts.now) }
{
    place_in_list::place_of(parts, count, part)
}
