// A place in a list, and the search of a column of numbers.
#![tactic(auto)]

ghost use Rattle.std.specs.Prelude.{◌≡◌, ◌≤◌, eqb, length, take};
ghost use Rattle.std.specs.List.{position_from};

// Finds where a number stands first among the first count of a column. Precondition: the column has at least count places; callers search
// the columns of a table and of a session's list, whose counts they require to fit.
pub fn place_of(numbers: &[u32], count: usize, number: u32) -> Option<usize>
    requires { count ≤ length numbers.now }
    ensures { result ≡ position_from (eqb number) 0 (take count numbers.now) }
{
    numbers[..count].iter().position(|n| number == *n)
}
