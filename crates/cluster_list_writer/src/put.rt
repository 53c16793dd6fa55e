// Puts the parts of a list, each at a place of a lent buffer. Precondition of each function: the part fits into the buffer from the place
// on, and a cluster has at most 4 needs; `write_list` requires room for the whole list and a table within its limits.
ghost use Rattle.std.specs.Prelude.{◌≡◌, [], ◌∷◌, ◌+◌, ◌≤◌, length, drop};
ghost use Rattle.text.specs.Digits.{digits};
ghost use Rattle.text.specs.Put.{Put};
ghost use Rattle.text.specs.Version.{version_text};
ghost use Rattle.clusters.specs.View.{view_cluster};
ghost use Rattle.cluster_list.specs.Write.{five_names, mark_text, need_cells, need_line_text, need_lines_text, cluster_lines};
ghost use Rattle.cluster_list_writer.specs.Fields.{fields_text, first_line};

use clusters::cluster::{Cluster, Need};
use text::version::Version;
use text::write::{put_number, put_version};

// Puts two bytes.
fn put_two(buf: &mut [u8], at: usize, first: u8, second: u8) -> usize
    requires { at + 2 ≤ length buf.old }
    ensures { Put buf.old at (first ∷ second ∷ []) result buf.new }
{
    buf[at] = first;
    buf[at + 1] = second;
    at + 2
}

// Puts a part number and a version, a comma behind each.
fn put_pair(buf: &mut [u8], at: usize, part: u32, version: Version) -> usize
    requires { at + length (fields_text (digits part ∷ version_text version ∷ [])) ≤ length buf.old }
    ensures { Put buf.old at (fields_text (digits part ∷ version_text version ∷ [])) result buf.new }
{
    let behind_part = put_number(buf, at, part);
    buf[behind_part] = b',';
    let behind_version = put_version(buf, behind_part + 1, version);
    buf[behind_version] = b',';
    behind_version + 1
}

// Puts the fields needs and least of a cluster's line, a comma behind each: those of its first need, or two empty ones.
fn put_first_need(buf: &mut [u8], at: usize, c: Cluster) -> usize
    requires { (c.need_count ≤ 4) × (at + length (fields_text (need_cells (view_cluster c).needs)) ≤ length buf.old) }
    ensures { Put buf.old at (fields_text (need_cells (view_cluster c).needs)) result buf.new }
{
    if c.need_count < 1 {
        return put_two(buf, at, b',', b',');
    }
    let n = c.needs[0];
    put_pair(buf, at, n.part, n.least)
}

// Gives the byte of a mark.
fn mark_byte(stays: bool) -> u8
    ensures { result ∷ [] ≡ mark_text stays }
{
    if stays { b'1' } else { b'0' }
}

// Puts the line that a cluster begins with. Its mark is the last field.
fn put_first_line(buf: &mut [u8], at: usize, c: Cluster) -> usize
    requires { (c.need_count ≤ 4) × (at + length (first_line (view_cluster c)) ≤ length buf.old) }
    ensures { Put buf.old at (first_line (view_cluster c)) result buf.new }
{
    let mark = mark_byte(c.stays);
    let behind_version = put_pair(buf, at, c.part, c.version);
    let behind_need = put_first_need(buf, behind_version, c);
    put_two(buf, behind_need, mark, b'\n')
}

// Puts the line of a need behind the first. Its last field, the mark, is empty.
fn put_need_line(buf: &mut [u8], at: usize, n: Need) -> usize
    requires { at + length (need_line_text five_names n) ≤ length buf.old }
    ensures { Put buf.old at (need_line_text five_names n) result buf.new }
{
    let behind_empty = put_two(buf, at, b',', b',');
    let behind_need = put_pair(buf, behind_empty, n.part, n.least);
    buf[behind_need] = b'\n';
    behind_need + 1
}

// Puts the lines of the needs behind the first.
fn put_need_lines(buf: &mut [u8], from: usize, c: Cluster) -> usize
    requires { (c.need_count ≤ 4) × (from + length (need_lines_text five_names (drop 1 (view_cluster c).needs)) ≤ length buf.old) }
    ensures { Put buf.old from (need_lines_text five_names (drop 1 (view_cluster c).needs)) result buf.new }
{
    let mut at = from;
    for i in 1..c.need_count {
        at = put_need_line(buf, at, c.needs[i]);
    }
    at
}

// Puts the lines of a cluster.
pub fn put_cluster(buf: &mut [u8], at: usize, c: Cluster) -> usize
    requires { (c.need_count ≤ 4) × (at + length (cluster_lines five_names (view_cluster c)) ≤ length buf.old) }
    ensures { Put buf.old at (cluster_lines five_names (view_cluster c)) result buf.new }
{
    let behind_line = put_first_line(buf, at, c);
    put_need_lines(buf, behind_line, c)
}
