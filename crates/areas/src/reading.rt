// How the text in a package's area is read or refused.
ghost use Rattle.std.specs.Prelude.{◌≡◌, IfOk};
ghost use Rattle.base.specs.Refusals.{first_refusal};
ghost use Rattle.refusal.specs.Number.{number_of, refused_with};
ghost use Rattle.manifest.specs.Package.{read_package};
ghost use Rattle.manifest.specs.Refused.{package_refusals};
ghost use Rattle.manifest.specs.Answer.{error_number, package_read};

use manifest::package::{PackageError, PackageRead, read_package};
use refusal::Refusal;

// Returns the refusal for an error of the reader: 9 (InvalidManifest) or 10 (PackageInconsistent).
fn error_refusal(error: PackageError) -> Refusal
    ensures { number_of result ≡ error_number error }
{
    match error {
        PackageError::IllFormed => Refusal::InvalidManifest,
        PackageError::Inconsistent => Refusal::PackageInconsistent,
    }
}

// Reads the package in an area, or refuses it by 9 (InvalidManifest) or 10 (PackageInconsistent). The text is read once.
pub fn read_area(area: &[u8]) -> Result<PackageRead, Refusal>
    ensures refused { refused_with result ≡ first_refusal (package_refusals (read_package area.now)) }
    ensures read { IfOk result (λ r. r ≡ package_read (read_package area.now)) }
{
    match read_package(area) {
        Ok(read) => Ok(read),
        Err(error) => Err(error_refusal(error)),
    }
}
