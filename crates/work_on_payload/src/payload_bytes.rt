// The payload bytes that Work takes into the sum.
ghost use Rattle.std.specs.Prelude.{◌≡◌, ◌≤◌, length, drop};
ghost use Rattle.model.specs.Step.{taken};
ghost use Rattle.state.specs.View.{kept_work};
ghost use Rattle.work_on_payload.specs.Payload.{work_on, PayloadInside};

use state::work::Work;

// Counts the bytes that a Work of n takes: n, or what is left. Precondition: the bytes done are at most the payload; `take_payload`
// requires it too.
fn count_taken(w: Work, n: u32) -> u32
    requires { w.done ≤ w.count }
    ensures { result ≡ taken (kept_work w) n }
{
    let left = w.count - w.done;
    if n < left { n } else { left }
}

// Takes n bytes more of the payload, or what is left of it, into the sum. The package's area starts at the byte `area` of the store.
// Precondition: the payload lies in the store, the bytes done are at most the payload and the running sums at most 254; a sound state in
// Processing meets it.
pub fn take_payload(w: Work, store: &[u8], area: usize, n: u32) -> Work
    requires { PayloadInside w area (length store.now) }
    ensures { result ≡ work_on w n (drop area store.now) }
{
    let taken = count_taken(w, n);
    let from = area + w.start as usize + w.done as usize;
    let bytes = &store[from..from + taken as usize];
    Work {
        running_sums: checksum::continue_sum(w.running_sums, bytes),
        done: w.done + taken,
        ..w
    }
}
