// The sum that a package declares of its payload: two running sums by 255, and the pair as one number.
#![tactic(auto)]

ghost use Rattle.std.specs.Prelude.{true, ◌≡◌, ◌+◌, ◌≤◌, ◌%◌};
ghost use Rattle.checksum.specs.RemainderTable.{is_remainder_table};
ghost use Rattle.checksum.specs.Sum.{start_sums, step, continued, sum_number, sums_within};

// The running sums, each at most 254. They are 32 bits wide, as the number of the pair is.
#[derive(Clone, Copy)]
pub struct Sums {
    pub c0: u32,
    pub c1: u32,
}

// "sum 0 to 65,535": the largest sum that a package may declare, the one place in the code that has this limit.
pub const SUM_MOST: u32 = 65535;

// Gives the pair that a sum starts with.
pub fn start() -> Sums
    ensures { result ≡ start_sums }
{
    Sums { c0: 0, c1: 0 }
}

// "a table of 510 numbers, one for each sum from 0 to 509": the remainders by 255. They are bytes, so that a copy is short.
#[rattlefmt::skip]
const REMAINDERS: [u8; 510] = [
    0, 1, 2, 3, 4, 5, 6, 7, 8, 9, 10, 11, 12, 13, 14, // 0 to 14
    15, 16, 17, 18, 19, 20, 21, 22, 23, 24, 25, 26, 27, 28, 29, // 15 to 29
    30, 31, 32, 33, 34, 35, 36, 37, 38, 39, 40, 41, 42, 43, 44, // 30 to 44
    45, 46, 47, 48, 49, 50, 51, 52, 53, 54, 55, 56, 57, 58, 59, // 45 to 59
    60, 61, 62, 63, 64, 65, 66, 67, 68, 69, 70, 71, 72, 73, 74, // 60 to 74
    75, 76, 77, 78, 79, 80, 81, 82, 83, 84, 85, 86, 87, 88, 89, // 75 to 89
    90, 91, 92, 93, 94, 95, 96, 97, 98, 99, 100, 101, 102, 103, 104, // 90 to 104
    105, 106, 107, 108, 109, 110, 111, 112, 113, 114, 115, 116, 117, 118, 119, // 105 to 119
    120, 121, 122, 123, 124, 125, 126, 127, 128, 129, 130, 131, 132, 133, 134, // 120 to 134
    135, 136, 137, 138, 139, 140, 141, 142, 143, 144, 145, 146, 147, 148, 149, // 135 to 149
    150, 151, 152, 153, 154, 155, 156, 157, 158, 159, 160, 161, 162, 163, 164, // 150 to 164
    165, 166, 167, 168, 169, 170, 171, 172, 173, 174, 175, 176, 177, 178, 179, // 165 to 179
    180, 181, 182, 183, 184, 185, 186, 187, 188, 189, 190, 191, 192, 193, 194, // 180 to 194
    195, 196, 197, 198, 199, 200, 201, 202, 203, 204, 205, 206, 207, 208, 209, // 195 to 209
    210, 211, 212, 213, 214, 215, 216, 217, 218, 219, 220, 221, 222, 223, 224, // 210 to 224
    225, 226, 227, 228, 229, 230, 231, 232, 233, 234, 235, 236, 237, 238, 239, // 225 to 239
    240, 241, 242, 243, 244, 245, 246, 247, 248, 249, 250, 251, 252, 253, 254, // 240 to 254
    0, 1, 2, 3, 4, 5, 6, 7, 8, 9, 10, 11, 12, 13, 14, // 255 to 269
    15, 16, 17, 18, 19, 20, 21, 22, 23, 24, 25, 26, 27, 28, 29, // 270 to 284
    30, 31, 32, 33, 34, 35, 36, 37, 38, 39, 40, 41, 42, 43, 44, // 285 to 299
    45, 46, 47, 48, 49, 50, 51, 52, 53, 54, 55, 56, 57, 58, 59, // 300 to 314
    60, 61, 62, 63, 64, 65, 66, 67, 68, 69, 70, 71, 72, 73, 74, // 315 to 329
    75, 76, 77, 78, 79, 80, 81, 82, 83, 84, 85, 86, 87, 88, 89, // 330 to 344
    90, 91, 92, 93, 94, 95, 96, 97, 98, 99, 100, 101, 102, 103, 104, // 345 to 359
    105, 106, 107, 108, 109, 110, 111, 112, 113, 114, 115, 116, 117, 118, 119, // 360 to 374
    120, 121, 122, 123, 124, 125, 126, 127, 128, 129, 130, 131, 132, 133, 134, // 375 to 389
    135, 136, 137, 138, 139, 140, 141, 142, 143, 144, 145, 146, 147, 148, 149, // 390 to 404
    150, 151, 152, 153, 154, 155, 156, 157, 158, 159, 160, 161, 162, 163, 164, // 405 to 419
    165, 166, 167, 168, 169, 170, 171, 172, 173, 174, 175, 176, 177, 178, 179, // 420 to 434
    180, 181, 182, 183, 184, 185, 186, 187, 188, 189, 190, 191, 192, 193, 194, // 435 to 449
    195, 196, 197, 198, 199, 200, 201, 202, 203, 204, 205, 206, 207, 208, 209, // 450 to 464
    210, 211, 212, 213, 214, 215, 216, 217, 218, 219, 220, 221, 222, 223, 224, // 465 to 479
    225, 226, 227, 228, 229, 230, 231, 232, 233, 234, 235, 236, 237, 238, 239, // 480 to 494
    240, 241, 242, 243, 244, 245, 246, 247, 248, 249, 250, 251, 252, 253, 254, // 495 to 509
];

// Reads the remainder by 255 of a running sum plus what is added to it: entry `sum` of the part of the table that starts at entry `added`.
// What is added is known before the running sum is, so the next running sum waits for one read and no addition. Precondition: the table is
// that of the remainders, and the two add up to at most 509; `add_byte` hands on the table that it is lent, and adds a byte or a running
// sum to a running sum.
fn remainder_255(table: &[u8], sum: u32, added: u32) -> u32
    requires { (is_remainder_table table.now ≡ true) × (sum + added ≤ 509) }
    ensures { result ≡ (sum + added) % 255 }
{
    let part = &table[added as usize..];
    part[sum as usize] as u32
}

// Gives the pair after one more byte. Precondition: the table is that of the remainders, and both running sums are at most 254; `add_bytes`
// lends its copy of the constant, and each byte leaves the pair within the limit.
fn add_byte(table: &[u8], sums: Sums, byte: u8) -> Sums
    requires { (is_remainder_table table.now ≡ true) × (sums_within sums ≡ true) }
    ensures { result ≡ step sums byte }
{
    let c0 = remainder_255(table, sums.c0, byte as u32);
    let c1 = remainder_255(table, sums.c1, c0);
    Sums { c0, c1 }
}

// Gives the pair after the bytes of a part. The table is copied before the first byte: read from the constant, it would be built anew at
// each. No bytes need no table; a part of one byte has an empty half. Precondition: both running sums are at most 254; `continue_sum`
// requires the same, and the first half leaves the pair within the limit.
fn add_bytes(sums: Sums, part: &[u8]) -> Sums
    requires { sums_within sums ≡ true }
    ensures { result ≡ continued sums part.now }
{
    if part.len() == 0 {
        return sums;
    }
    let table = REMAINDERS;
    let mut so_far = sums;
    for b in part {
        so_far = add_byte(&table, so_far, *b);
    }
    so_far
}

// Continues the pair over a part of the payload. A call for each half keeps the table in `add_bytes`: a function that is called once is
// compiled into its caller, and the table amid a Work makes the compiler copy parts of the State there. Precondition: both running sums are
// at most 254; `start` gives such a pair, this function keeps it so, and a sound state has no other.
pub fn continue_sum(sums: Sums, part: &[u8]) -> Sums
    requires { sums_within sums ≡ true }
    ensures { result ≡ continued sums part.now }
{
    let half = part.len() / 2;
    let so_far = add_bytes(sums, &part[0..half]);
    add_bytes(so_far, &part[half..])
}

// Gives the pair as one number. Precondition: both running sums are at most 254, as for `continue_sum`.
pub fn number(sums: Sums) -> u32
    requires { sums_within sums ≡ true }
    ensures { result ≡ sum_number sums }
{
    256 * sums.c1 + sums.c0
}
