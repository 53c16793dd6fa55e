// Versions: four numbers joined by dots.
ghost use Rattle.std.specs.Prelude.{◌≡◌};
ghost use Rattle.text.specs.Version.{dotted_at, version_at, whole_version};

use crate::cursor::Cursor;
use crate::number::number_at;

// The four parts, in the order in which they are written and compared.
#[derive(Clone, Copy, PartialEq, Eq, PartialOrd, Ord)]
pub struct Version {
    pub first: u32,
    pub second: u32,
    pub third: u32,
    pub fourth: u32,
}

// The version of an unused place: every part 0.
pub const NO_VERSION: Version = Version {
    first: 0,
    second: 0,
    third: 0,
    fourth: 0,
};

// The largest value of the first three parts: the one place in the code that has this limit.
pub const VERSION_PART_MOST: u32 = 65535;

// The largest value of the fourth part, the largest of 32 bits: the one place in the code that has this limit.
const VERSION_LAST_MOST: u32 = 4294967295;

// Reads a dot and the part of a version behind it, at most as large as most.
#[tactic(auto, unfolding(crate::specs::Version::dotted_at))]
fn dotted_at(s: &[u8], cursor: Cursor, most: u32) -> Option<(u32, Cursor)>
    ensures { result ≡ dotted_at s.now cursor.at most }
{
    if *s.get(cursor.at)? == b'.' {
        number_at(s, Cursor { at: cursor.at + 1 }, most)
    } else {
        None
    }
}

// Reads the version at a cursor: the version, and the cursor behind it.
#[tactic(auto, unfolding(crate::specs::Version::version_at))]
pub fn version_at(s: &[u8], cursor: Cursor) -> Option<(Version, Cursor)>
    ensures { result ≡ version_at s.now cursor.at }
{
    let (first, behind_first) = number_at(s, cursor, VERSION_PART_MOST)?;
    let (second, behind_second) = dotted_at(s, behind_first, VERSION_PART_MOST)?;
    let (third, behind_third) = dotted_at(s, behind_second, VERSION_PART_MOST)?;
    let (fourth, next) = dotted_at(s, behind_third, VERSION_LAST_MOST)?;
    let version = Version {
        first,
        second,
        third,
        fourth,
    };
    Some((version, next))
}

// Reads a text that is one version and nothing else.
#[tactic(auto, unfolding(crate::specs::Version::whole_version))]
pub fn whole_version(s: &[u8]) -> Option<(Version, Cursor)>
    ensures { result ≡ whole_version s.now }
{
    let (version, next) = version_at(s, Cursor { at: 0 })?;
    if next.at < s.len() {
        return None;
    }
    Some((version, next))
}
