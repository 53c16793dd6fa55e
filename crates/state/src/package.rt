// A package: its transfer id, declared size, bytes received, accepted blocks and state.
ghost use Rattle.std.specs.Prelude.{◌≡◌, ◌+◌, ◌<◌};
ghost use Rattle.state.specs.Exact.{new_package, in_state, with_block};

#[derive(Clone, Copy, PartialEq, Eq)]
pub enum PackageState {
    Transferring,
    Transferred,
    Processing,
    Processed,
}

#[derive(Clone, Copy)]
pub struct Package {
    pub id: u32,
    pub size: u32,
    pub received: u32,
    pub blocks: u32,
    pub state: PackageState,
}

// Gives a package of a size with an id, of which nothing is received.
pub fn new_package(id: u32, size: u32) -> Package
    ensures { result ≡ new_package id size }
{
    Package {
        id,
        size,
        received: 0,
        blocks: 0,
        state: PackageState::Transferring,
    }
}

// Gives the package in another state.
pub fn in_state(p: Package, state: PackageState) -> Package
    ensures { result ≡ in_state state p }
{
    Package { state, ..p }
}

// Gives the package after an accepted block of a length. Precondition: the bytes received and the blocks stay numbers of 32 bits;
// TransferData accepts only a block that fits the declared size, which is of 32 bits, and the blocks are at most the bytes received.
pub fn with_block(p: Package, block_length: u32) -> Package
    requires { (p.received + block_length < 4294967296) × (p.blocks + 1 < 4294967296) }
    ensures { result ≡ with_block block_length p }
{
    Package {
        received: p.received + block_length,
        blocks: p.blocks + 1,
        ..p
    }
}
