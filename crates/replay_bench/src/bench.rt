// What the program holds from line to line, beside the bytes of its store and of the line that is being gathered.
ghost use Rattle.std.specs.Prelude.{◌≡◌, false};
ghost use Rattle.replay_bench.specs.Bench.{NothingRead, new_line, gathering_of, bench_with};

use script::gathered::{Gathered, nothing_gathered};
use script_calls::kept::{Kept, nothing_loaded};

// The line that is being gathered, and whether the program goes on: no read or write has failed and the input has not ended.
#[derive(Clone, Copy)]
pub struct Gathering {
    pub gathered: Gathered,
    pub goes_on: bool,
}

// What is kept from line to line, and what is gathered of the next.
#[derive(Clone, Copy)]
pub struct Bench {
    pub kept: Kept,
    pub gathering: Gathering,
}

// Begins a line behind one that was answered; the program goes on where all was written.
pub fn new_line(is_written: bool) -> Gathering
    ensures { result ≡ new_line is_written }
{
    Gathering {
        gathered: nothing_gathered(),
        goes_on: is_written,
    }
}

// Returns the bench before the first read.
pub fn first_bench() -> Bench
    ensures { NothingRead result }
{
    bench_with(nothing_loaded(), new_line(true))
}

// Returns the bench with what is kept and gathered.
pub fn bench_with(kept: Kept, gathering: Gathering) -> Bench
    ensures { result ≡ bench_with kept gathering }
{
    Bench { kept, gathering }
}

// Returns the bench after a read that failed, or at the end of the input.
pub fn stopped(bench: Bench) -> Bench
    ensures { result ≡ bench_with bench.kept (gathering_of bench.gathering.gathered false) }
{
    let gathering = Gathering {
        goes_on: false,
        ..bench.gathering
    };
    Bench { gathering, ..bench }
}
