// The limits of the manager's state: the one place in the code that has them.

// The most packages.
pub const PACKAGES_MOST: usize = 16;

// The room of the session's list.
pub const ENTRIES_MOST: usize = 16;

// The longest store, in bytes.
pub const STORE_MOST: usize = 16777216;

// The last transfer id. The next id above it says that all are spent.
pub const ID_MOST: u64 = 4294967295;
