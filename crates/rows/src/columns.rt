// The names line: which field holds which name.
ghost use Rattle.std.specs.Prelude.{◌≡◌, drop};
ghost use Rattle.rows.specs.Columns.{column_from, cluster_columns, package_columns};

use crate::reader::cell_at;
use text::cursor::Cursor;
use text::word::is_word;

// The columns of the cluster list, which a package has too.
#[derive(Clone, Copy)]
pub struct ClusterColumns {
    pub cluster: usize,
    pub version: usize,
    pub needs: usize,
    pub least: usize,
}

// The columns of a package.
#[derive(Clone, Copy)]
pub struct PackageColumns {
    pub action: usize,
    pub payload: usize,
    pub sum: usize,
    pub cluster_columns: ClusterColumns,
}

// Finds the first of the given number of fields of a line that is the name: the number of the field.
pub fn column_of(s: &[u8], line: Cursor, fields: usize, name: &[u8]) -> Option<usize>
    ensures { result ≡ column_from fields 0 name.now (drop line.at s.now) }
{
    for k in 0..fields {
        if is_word(cell_at(s, line, k), name) {
            return Some(k);
        }
    }
    None
}

// Finds the four names of the cluster list among the given number of fields.
#[tactic(auto, unfolding(crate::specs::Columns::cluster_columns))]
pub fn cluster_columns(s: &[u8], line: Cursor, fields: usize) -> Option<ClusterColumns>
    ensures { result ≡ cluster_columns fields (drop line.at s.now) }
{
    let cluster = column_of(s, line, fields, b"cluster")?;
    let version = column_of(s, line, fields, b"version")?;
    let needs = column_of(s, line, fields, b"needs")?;
    let least = column_of(s, line, fields, b"least")?;
    Some(ClusterColumns {
        cluster,
        version,
        needs,
        least,
    })
}

// Finds the seven names of a package among the given number of fields.
#[tactic(auto, unfolding(crate::specs::Columns::package_columns))]
pub fn package_columns(s: &[u8], line: Cursor, fields: usize) -> Option<PackageColumns>
    ensures { result ≡ package_columns fields (drop line.at s.now) }
{
    let cluster_columns = cluster_columns(s, line, fields)?;
    let action = column_of(s, line, fields, b"action")?;
    let payload = column_of(s, line, fields, b"payload")?;
    let sum = column_of(s, line, fields, b"sum")?;
    Some(PackageColumns {
        action,
        payload,
        sum,
        cluster_columns,
    })
}
