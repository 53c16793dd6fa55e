// The refusals of the calls and their numbers.
#![tactic(auto)]

ghost use Rattle.std.specs.Prelude.{◌≡◌};
ghost use Rattle.refusal.specs.Number.{number_of};

// Why a call is refused, in the order in which the refusals are checked. 19 (ShortBuffer) adds a length and is therefore a case of the
// reading calls' reply.
#[derive(Clone, Copy, PartialEq, Eq)]
pub enum Refusal {
    BadState = 1,
    ServiceBusy = 2,
    OperationNotPermitted = 3,
    InvalidTransferId = 4,
    WrongPackageState = 5,
    IncorrectBlock = 6,
    IncorrectSize = 7,
    InsufficientData = 8,
    InvalidManifest = 9,
    PackageInconsistent = 10,
    ClusterTouched = 11,
    ClusterPresent = 12,
    ClusterAbsent = 13,
    Stays = 21, // checked directly after 13
    OldVersion = 14,
    TableFull = 15,
    TransfersFull = 16,
    InsufficientMemory = 17,
    IdsSpent = 18,
    BadLoad = 20,
}

impl Refusal {
    // Returns the refusal's number: "a refusal is the number alone".
    pub fn number(self) -> u32
        ensures { result ≡ number_of self }
    {
        self as u32
    }
}

// The numbers of the refusals that are answered where no State is given back: by the reading calls, by a list of calls and by Load.
pub const BAD_STATE: u32 = Refusal::BadState as u32;

pub const BAD_LOAD: u32 = Refusal::BadLoad as u32;
