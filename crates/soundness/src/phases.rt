// What the manager's state says of the packages and the session's list.
ghost use Rattle.soundness.specs.Parts.{PhaseFits};

use state::phase::{IDLE, PROCESSING, Phase, phase_number};

// Says whether the manager's state goes with a number of packages that are Processing and a number of listed entries.
pub fn phase_fits(phase: Phase, processing: usize, count: usize) -> bool
    ensures { PhaseFits phase processing count result }
{
    let number = phase_number(phase);
    if number == PROCESSING {
        return processing == 1;
    }
    if number == IDLE {
        return (processing == 0) & (count == 0);
    }
    (processing == 0) & (1 <= count)
}
