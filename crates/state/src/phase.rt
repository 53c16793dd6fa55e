// The manager's state.
ghost use Rattle.std.specs.Prelude.{◌≡◌};
ghost use Rattle.model.specs.State.{phase_number};
ghost use Rattle.state.specs.View.{view_phase};

// Where RollingBack came from.
#[derive(Clone, Copy, PartialEq, Eq)]
pub enum RollbackOrigin {
    Verifying,
    Activated,
}

// Where CleaningUp came from.
#[derive(Clone, Copy, PartialEq, Eq)]
pub enum CleanUpOrigin {
    Ready,
    Activated,
    RolledBack,
}

#[derive(Clone, Copy, PartialEq, Eq)]
pub enum Phase {
    Idle,
    Ready,
    Processing,
    Activating,
    Verifying,
    Activated,
    RollingBack(RollbackOrigin),
    RolledBack,
    CleaningUp(CleanUpOrigin),
}

// Document 01's numbers of the manager's states.
pub const IDLE: usize = 0;

pub const READY: usize = 1;

pub const PROCESSING: usize = 2;

pub const ACTIVATING: usize = 3;

pub const VERIFYING: usize = 4;

pub const ACTIVATED: usize = 5;

pub const ROLLING_BACK: usize = 6;

pub const ROLLED_BACK: usize = 7;

pub const CLEANING_UP: usize = 8;

// Gives document 01's number of the manager's state.
pub fn phase_number(phase: Phase) -> usize
    ensures { result ≡ phase_number (view_phase phase) }
{
    match phase {
        Phase::Idle => IDLE,
        Phase::Ready => READY,
        Phase::Processing => PROCESSING,
        Phase::Activating => ACTIVATING,
        Phase::Verifying => VERIFYING,
        Phase::Activated => ACTIVATED,
        Phase::RollingBack(_) => ROLLING_BACK,
        Phase::RolledBack => ROLLED_BACK,
        Phase::CleaningUp(_) => CLEANING_UP,
    }
}
