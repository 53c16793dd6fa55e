// The first value line of a package.
ghost use Rattle.std.specs.Prelude.{◌≡◌, drop};
ghost use Rattle.actions.specs.declared.action.Change.TheVariants.{Remove};
ghost use Rattle.package_heading.specs.Heading.{only_part, remove_heading, cluster_heading, heading_of, payload_heading, first_line};
ghost use Rattle.package_heading.specs.Found.{heading_found, of_fields};

use crate::change::change_of;
use actions::action::Change;
use checksum::SUM_MOST;
use cluster_list::cells::{need_fields, part_field};
use clusters::cluster::Need;
use rows::columns::{ClusterColumns, PackageColumns};
use rows::reader::{cell_at, cell_is_empty};
use text::cursor::Cursor;
use text::number::whole_number;
use text::version::{NO_VERSION, Version, whole_version};

// The largest count of payload bytes: the one place in the code that has this limit.
const PAYLOAD_MOST: u32 = 16777216;

// What the fields action, cluster, payload and sum of the first value line say.
#[derive(Clone, Copy)]
pub struct Fields {
    pub change: Change,
    pub part: u32,
    pub count: u32,
    pub sum: u32,
}

// What the first value line says. Of a remove the version is 0.0.0.0 and there is no need.
#[derive(Clone, Copy)]
pub struct Heading {
    pub fields: Fields,
    pub version: Version,
    pub need: Option<Need>,
}

// Returns true if version, needs and least of the line at a cursor are empty.
fn only_part(s: &[u8], line: Cursor, columns: ClusterColumns) -> bool
    ensures { result ≡ only_part columns (drop line.at s.now) }
{
    cell_is_empty(s, line, columns.version)
        && cell_is_empty(s, line, columns.needs)
        && cell_is_empty(s, line, columns.least)
}

// Reads the first value line of a remove. Precondition: the change is Remove; `heading_of` has taken it apart.
#[tactic(auto, unfolding(crate::specs::Heading::remove_heading))]
fn remove_heading(
    s: &[u8],
    line: Cursor,
    columns: PackageColumns,
    fields: Fields,
) -> Option<Heading>
    requires { fields.change ≡ Remove }
    ensures { heading_found result ≡ of_fields fields (remove_heading columns (drop line.at s.now)) }
{
    if only_part(s, line, columns.cluster_columns) && fields.count == 0 {
        Some(Heading {
            fields,
            version: NO_VERSION,
            need: None,
        })
    } else {
        None
    }
}

// Reads the first value line of an install or update.
#[tactic(auto, unfolding(crate::specs::Heading::cluster_heading))]
fn cluster_heading(
    s: &[u8],
    line: Cursor,
    columns: PackageColumns,
    fields: Fields,
) -> Option<Heading>
    ensures { heading_found result ≡ of_fields fields (cluster_heading fields.change columns (drop line.at s.now)) }
{
    let shared = columns.cluster_columns;
    let (version, _) = whole_version(cell_at(s, line, shared.version))?;
    let (need, _) = need_fields(s, line, shared)?;
    Some(Heading {
        fields,
        version,
        need,
    })
}

// Reads the first value line by its action.
fn heading_of(s: &[u8], line: Cursor, columns: PackageColumns, fields: Fields) -> Option<Heading>
    ensures { heading_found result ≡ of_fields fields (heading_of fields.change columns (drop line.at s.now)) }
{
    match fields.change {
        Change::Install | Change::Update => cluster_heading(s, line, columns, fields),
        Change::Remove => remove_heading(s, line, columns, fields),
    }
}

// Reads the first value line from its payload and sum on.
fn payload_heading(
    s: &[u8],
    line: Cursor,
    columns: PackageColumns,
    change: Change,
    part: u32,
) -> Option<Heading>
    ensures { heading_found result ≡ payload_heading change columns (drop line.at s.now) part }
{
    let (count, _) = whole_number(cell_at(s, line, columns.payload), PAYLOAD_MOST)?;
    let (sum, _) = whole_number(cell_at(s, line, columns.sum), SUM_MOST)?;
    let fields = Fields {
        change,
        part,
        count,
        sum,
    };
    heading_of(s, line, columns, fields)
}

// Reads the first value line, at a cursor. Its caller has the cursor behind the line from `line_at`.
#[tactic(auto, unfolding(crate::specs::Heading::first_line))]
pub fn heading_at(s: &[u8], line: Cursor, columns: PackageColumns) -> Option<Heading>
    ensures { heading_found result ≡ first_line columns (drop line.at s.now) }
{
    let (change, _) = change_of(cell_at(s, line, columns.action))?;
    let (part, _) = part_field(cell_at(s, line, columns.cluster_columns.cluster))?;
    payload_heading(s, line, columns, change, part)
}
