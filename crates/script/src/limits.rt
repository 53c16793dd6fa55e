// The rooms of the program, each in this one place of the code.

// `SIZE`, `ID`, `COUNTER`, `N`, `AT` and `FIRST`.
pub const NUMBER_MOST: u32 = 4294967295;

// Bytes of the store.
pub const STORE_MOST: u32 = 1048576;

// Records of Packages.
pub const RECORDS_MOST: u32 = 64;

// Entries of the start waves.
pub const WAVES_MOST: u32 = 64;

// Bytes of ClusterInfo and ChangeInfo.
pub const REPORT_MOST: u32 = 65536;

// Bytes of a line with its LF.
pub const LINE_MOST: usize = 262144;
