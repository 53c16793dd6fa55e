// How versions compare, and which of them meet a need.
ghost use Rattle.std.specs.Prelude.{◌≡◌};
ghost use Rattle.clusters.specs.Version.{above, at_or_above, fulfils};

use text::version::Version;

// Says whether v is above w: the first part from the left that differs decides.
pub fn above(v: Version, w: Version) -> bool
    ensures { result ≡ above v w }
{
    v > w
}

// Says whether v is the least version or above.
pub fn at_or_above(v: Version, least: Version) -> bool
    ensures { result ≡ at_or_above v least }
{
    v >= least
}

// Says whether v meets a need with this least version: it has the same first part and is the least version or above.
pub fn fulfils(v: Version, least: Version) -> bool
    ensures { result ≡ fulfils v least }
{
    v.first == least.first && v >= least
}
