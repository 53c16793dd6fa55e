// Who may call what.
ghost use Rattle.std.specs.Prelude.{◌≡◌};
ghost use Rattle.state.specs.View.{view_phase};
ghost use Rattle.state.specs.Permissions.{allowed_number};

use crate::phase::{Phase, phase_number};

// The numbers of the twelve calls, in the order in which document 01 lists them.
pub const TRANSFER_START: usize = 0;

pub const TRANSFER_DATA: usize = 1;

pub const TRANSFER_EXIT: usize = 2;

pub const DELETE_TRANSFER: usize = 3;

pub const PROCESS: usize = 4;

pub const WORK: usize = 5;

pub const CANCEL: usize = 6;

pub const REVERT: usize = 7;

pub const ACTIVATE: usize = 8;

pub const ROLLBACK: usize = 9;

pub const FINISH: usize = 10;

pub const REPORT: usize = 11;

const CALLS: usize = 12;

// A row for each manager's state, by its number; in it a place for each call, by its number.
const PERMISSIONS: [[bool; CALLS]; 9] = [
    // Idle
    [
        true, // TransferStart in Idle
        true, // TransferData in Idle
        true, // TransferExit in Idle
        true, // DeleteTransfer in Idle
        true, // Process in Idle
        false, // Work in Idle
        false, // Cancel in Idle
        false, // Revert in Idle
        false, // Activate in Idle
        false, // Rollback in Idle
        false, // Finish in Idle
        false, // Report in Idle
    ],
    // Ready
    [
        true, // TransferStart in Ready
        true, // TransferData in Ready
        true, // TransferExit in Ready
        true, // DeleteTransfer in Ready
        true, // Process in Ready
        false, // Work in Ready
        false, // Cancel in Ready
        true, // Revert in Ready
        true, // Activate in Ready
        false, // Rollback in Ready
        false, // Finish in Ready
        false, // Report in Ready
    ],
    // Processing
    [
        true, // TransferStart in Processing
        true, // TransferData in Processing
        true, // TransferExit in Processing
        true, // DeleteTransfer in Processing
        false, // Process in Processing
        true, // Work in Processing
        true, // Cancel in Processing
        false, // Revert in Processing
        false, // Activate in Processing
        false, // Rollback in Processing
        false, // Finish in Processing
        false, // Report in Processing
    ],
    // Activating
    [
        true, // TransferStart in Activating
        true, // TransferData in Activating
        true, // TransferExit in Activating
        true, // DeleteTransfer in Activating
        false, // Process in Activating
        false, // Work in Activating
        false, // Cancel in Activating
        false, // Revert in Activating
        false, // Activate in Activating
        false, // Rollback in Activating
        false, // Finish in Activating
        true, // Report in Activating
    ],
    // Verifying
    [
        true, // TransferStart in Verifying
        true, // TransferData in Verifying
        true, // TransferExit in Verifying
        true, // DeleteTransfer in Verifying
        false, // Process in Verifying
        false, // Work in Verifying
        false, // Cancel in Verifying
        false, // Revert in Verifying
        false, // Activate in Verifying
        true, // Rollback in Verifying
        false, // Finish in Verifying
        true, // Report in Verifying
    ],
    // Activated
    [
        true, // TransferStart in Activated
        true, // TransferData in Activated
        true, // TransferExit in Activated
        true, // DeleteTransfer in Activated
        false, // Process in Activated
        false, // Work in Activated
        false, // Cancel in Activated
        false, // Revert in Activated
        false, // Activate in Activated
        true, // Rollback in Activated
        true, // Finish in Activated
        false, // Report in Activated
    ],
    // RollingBack
    [
        true, // TransferStart in RollingBack
        true, // TransferData in RollingBack
        true, // TransferExit in RollingBack
        true, // DeleteTransfer in RollingBack
        false, // Process in RollingBack
        false, // Work in RollingBack
        false, // Cancel in RollingBack
        false, // Revert in RollingBack
        false, // Activate in RollingBack
        false, // Rollback in RollingBack
        false, // Finish in RollingBack
        true, // Report in RollingBack
    ],
    // RolledBack
    [
        true, // TransferStart in RolledBack
        true, // TransferData in RolledBack
        true, // TransferExit in RolledBack
        true, // DeleteTransfer in RolledBack
        false, // Process in RolledBack
        false, // Work in RolledBack
        false, // Cancel in RolledBack
        false, // Revert in RolledBack
        false, // Activate in RolledBack
        false, // Rollback in RolledBack
        true, // Finish in RolledBack
        false, // Report in RolledBack
    ],
    // CleaningUp
    [
        true, // TransferStart in CleaningUp
        true, // TransferData in CleaningUp
        true, // TransferExit in CleaningUp
        true, // DeleteTransfer in CleaningUp
        false, // Process in CleaningUp
        false, // Work in CleaningUp
        false, // Cancel in CleaningUp
        false, // Revert in CleaningUp
        false, // Activate in CleaningUp
        false, // Rollback in CleaningUp
        false, // Finish in CleaningUp
        true, // Report in CleaningUp
    ],
];

// Says whether the manager's state allows a call. A number that no call has is allowed in none.
pub fn allowed(phase: Phase, call: usize) -> bool
    ensures { result ≡ allowed_number (view_phase phase) call }
{
    if call >= CALLS {
        return false;
    }
    let state = phase_number(phase);
    let permissions = PERMISSIONS;
    permissions[state][call]
}
