// What the state keeps of the package that is processing: all of it is cleared outside Processing.
ghost use Rattle.std.specs.Prelude.{◌≡◌};
ghost use Rattle.state.specs.View.{is_no_version, is_cleared_work};
ghost use Rattle.state.specs.Exact.{cleared_work};

use actions::action::{Action, Change, cleared_action};
use checksum::Sums;
use text::version::{NO_VERSION, Version};

#[derive(Clone, Copy)]
pub struct Work {
    pub action: Action,
    pub start: u32,
    pub count: u32,
    pub sum: u32,
    pub running_sums: Sums,
    pub done: u32,
    pub cancel_noted: bool,
}

// Gives the kept values and the cancel note cleared.
pub fn cleared_work() -> Work
    ensures { result ≡ cleared_work }
{
    Work {
        action: cleared_action(),
        start: 0,
        count: 0,
        sum: 0,
        running_sums: checksum::start(),
        done: 0,
        cancel_noted: false,
    }
}

fn is_no_version(v: Version) -> bool
    ensures { result ≡ is_no_version v }
{
    v == NO_VERSION
}

// Says whether the kept values and the cancel note are cleared. Unused places play no part.
pub fn is_cleared_work(w: Work) -> bool
    ensures { result ≡ is_cleared_work w }
{
    let cluster = w.action.cluster;
    let sums = w.running_sums;
    let no_action = (w.action.change == Change::Install)
        & ((cluster.part == 0) & (is_no_version(cluster.version) & (cluster.need_count == 0)));
    let no_payload = (w.start == 0) & ((w.count == 0) & (w.sum == 0));
    let nothing_done = (sums.c0 == 0) & ((sums.c1 == 0) & ((w.done == 0) & !w.cancel_noted));
    no_action & (no_payload & nothing_done)
}
