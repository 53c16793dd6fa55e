// Values that fields of a case say.
use text::number::whole_number;
use text::version::{NO_VERSION, Version, whole_version};

// Gives the number that a text is, or 0.
pub fn number_of(s: &[u8]) -> u32 {
    whole_number(s, u32::MAX).map_or(0, |(value, _)| value)
}

// Gives the version that a text is, or 0.0.0.0.
pub fn version_of(s: &[u8]) -> Version {
    whole_version(s).map_or(NO_VERSION, |(version, _)| version)
}
