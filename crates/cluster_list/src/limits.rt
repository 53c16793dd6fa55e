// The lengths of the longest lists. The constants are for buffers; the functions say that they are the numbers of the definitions.
ghost use Rattle.std.specs.Prelude.{◌≡◌};
ghost use Rattle.cluster_list.specs.Read.{read_list_most};
ghost use Rattle.cluster_list.specs.Write.{written_list_most};

// The bytes of the longest list that is written: the one place in the code that has this number.
pub const WRITTEN_LIST_MOST: usize = 13538;

// The bytes of the longest list that can be read: the one place in the code that has this number.
pub const READ_LIST_MOST: usize = 13858;

// Gives the length of the longest list that is written.
pub fn longest_written() -> usize
    ensures { result ≡ written_list_most }
{
    WRITTEN_LIST_MOST
}

// Gives the length of the longest list that can be read.
pub fn longest_read() -> usize
    ensures { result ≡ read_list_most }
{
    READ_LIST_MOST
}
