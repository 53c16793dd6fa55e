// The names line of a cluster list: four names, or five with the name of the mark.
ghost use Rattle.std.specs.Prelude.{◌≡◌, None};
ghost use Rattle.rows.specs.ListColumns.{list_columns, five_columns};
ghost use Rattle.rows.specs.Line.{line_from};
ghost use Rattle.text.specs.Then.{and_then_some};

use crate::columns::{ClusterColumns, cluster_columns, column_of};
use crate::reader::line_at;
use text::cursor::Cursor;

// The columns of a list. In a list of four names there is no column of marks.
#[derive(Clone, Copy)]
pub struct ListColumns {
    pub cluster_columns: ClusterColumns,
    pub stays: Option<usize>,
}

// Reads a names line of five fields.
#[tactic(auto, unfolding(crate::specs::ListColumns::five_columns))]
fn five_columns(s: &[u8]) -> Option<(ListColumns, Cursor)>
    ensures { result ≡ and_then_some None (line_from 4 0 s.now) (λ next. five_columns next.at s.now) }
{
    let names = Cursor { at: 0 };
    let next = line_at(s, names, 4)?;
    let cluster_columns = cluster_columns(s, names, 5)?;
    let stays = Some(column_of(s, names, 5, b"stays")?);
    Some((
        ListColumns {
            cluster_columns,
            stays,
        },
        next,
    ))
}

// Reads the names line that a list begins with, the number of whose fields decides between four names and five: the columns, and the
// cursor behind its LF.
#[tactic(auto, unfolding(crate::specs::ListColumns::four_columns, crate::specs::ListColumns::list_columns))]
pub fn list_columns(s: &[u8]) -> Option<(ListColumns, Cursor)>
    ensures { result ≡ list_columns s.now }
{
    let names = Cursor { at: 0 };
    let Some(next) = line_at(s, names, 3) else {
        return five_columns(s);
    };
    let cluster_columns = cluster_columns(s, names, 4)?;
    Some((
        ListColumns {
            cluster_columns,
            stays: None,
        },
        next,
    ))
}
