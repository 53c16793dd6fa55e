// A call of the twelve by value. The block of TransferData is lent beside it, because an enum holds no reference.
#![tactic(auto)]

#[derive(Clone, Copy)]
pub enum Request {
    TransferStart(u32),
    TransferData(u32, u32),
    TransferExit(u32),
    DeleteTransfer(u32),
    Process(u32),
    Work(u32),
    Cancel(u32),
    Revert,
    Activate,
    Rollback,
    Finish,
    Report(bool),
}
