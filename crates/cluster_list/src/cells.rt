// The fields of a line that both formats have: part numbers and needs, and the cluster that such a line begins.
ghost use Rattle.std.specs.Prelude.{◌≡◌, drop};
ghost use Rattle.clusters.specs.Cluster.{cluster};
ghost use Rattle.clusters.specs.Struct.{struct_cluster};
ghost use Rattle.cluster_list.specs.Cells.{part_field, need_of, need_fields, needs_filled};

use clusters::cluster::{Cluster, Need, new_cluster, with_need};
use rows::columns::ClusterColumns;
use rows::reader::cell_at;
use text::cursor::Cursor;
use text::number::whole_number;
use text::version::{Version, whole_version};

// Reads a field that is a part number, which is at least 1. The cursor is the one behind the number.
#[tactic(auto, unfolding(crate::specs::Cells::part_field))]
pub fn part_field(field: &[u8]) -> Option<(u32, Cursor)>
    ensures { result ≡ part_field field.now }
{
    let (part, next) = whole_number(field, 4294967295)?;
    (1 <= part).then_some((part, next))
}

// Reads what the fields needs and least say: a need, or none where both are empty. The cursor is the one behind what was read of least.
#[tactic(auto, unfolding(crate::specs::Cells::need_of))]
pub fn need_of(needs: &[u8], least: &[u8]) -> Option<(Option<Need>, Cursor)>
    ensures { result ≡ need_of needs.now least.now }
{
    if needs.is_empty() {
        return least.is_empty().then_some((None, Cursor { at: 0 }));
    }
    let (part, _) = part_field(needs)?;
    let (version, next) = whole_version(least)?;
    let need = Need {
        part,
        least: version,
    };
    Some((Some(need), next))
}

// Reads the fields needs and least of the line at a cursor.
pub fn need_fields(
    s: &[u8],
    line: Cursor,
    columns: ClusterColumns,
) -> Option<(Option<Need>, Cursor)>
    ensures { result ≡ need_fields columns (drop line.at s.now) }
{
    need_of(
        cell_at(s, line, columns.needs),
        cell_at(s, line, columns.least),
    )
}

// Makes a cluster with the need that is on its line, or without one. Its unused places are cleared.
pub fn cluster_with(part: u32, version: Version, need: Option<Need>) -> Cluster
    ensures { result ≡ struct_cluster (cluster part version (needs_filled need)) }
{
    let alone = new_cluster(part, version);
    match need {
        Some(first) => with_need(alone, first),
        None => alone,
    }
}
