// The waves of a table, in rounds: each round lists the clusters that can start after the waves so far.
ghost use Rattle.std.specs.Prelude.{◌≡◌, [], ◌∷◌, ◌+◌, ◌*◌, ◌≤◌, ◌<◌, length};
ghost use Rattle.std.proofs.lemmas.List.Edits.{sets};
ghost use Rattle.clusters.specs.Table.{clusters_most};
ghost use Rattle.start_waves.specs.StartOrder.{all};
ghost use Rattle.start_waves.specs.Waits.{waits_most};
ghost use Rattle.start_waves.specs.Listed.{ArraysFit, started_before, passes, waits_from, joins_at, reached, AddsWave, ListsWaves};

use crate::waits::WAITS_MOST;
use clusters::cluster::NEEDS_MOST;
use clusters::table::CLUSTERS_MOST;

// The wave of each place, 0 for none, and how many clusters are listed.
#[derive(Clone, Copy)]
pub struct Started {
    pub waves: [u32; CLUSTERS_MOST],
    pub count: usize,
}

// Says whether what stands at a place has a wave before this number. Behind every place nothing stands. Precondition: the array has 64
// places; `can_start` requires the same.
fn started_before(waves: &[u32; CLUSTERS_MOST], place: usize, number: u32) -> bool
    requires { length waves.now ≡ clusters_most }
    ensures { result ≡ started_before waves.now place number }
{
    if place >= CLUSTERS_MOST {
        return false;
    }
    let wave = waves[place];
    (0 < wave) & (wave < number)
}

// Says whether the cluster at the place own waits for nothing: all the others that it needs have a wave before this number. Precondition:
// the place is one of the 64, and the arrays have a place for each cluster and each need; `joins_at` requires the same.
fn can_start(
    waits: &[usize; WAITS_MOST],
    waves: &[u32; CLUSTERS_MOST],
    own: usize,
    number: u32,
) -> bool
    requires { (own < clusters_most) × (length waits.now ≡ waits_most) × (length waves.now ≡ clusters_most) }
    ensures { result ≡ all (passes waves.now own number) (waits_from waits.now own) }
{
    waits[own * NEEDS_MOST..(own + 1) * NEEDS_MOST].iter().all(|place| (*place == own)
        | started_before(waves, *place, number))
}

// Says whether the cluster at the place own joins the wave of this number: without a wave so far, it can start, or it closes. Precondition:
// as of `can_start`; `add_wave` has such arrays and goes along the places of a table.
fn joins_at(
    closing: bool,
    waits: &[usize; WAITS_MOST],
    waves: &[u32; CLUSTERS_MOST],
    own: usize,
    number: u32,
) -> bool
    requires { (own < clusters_most) × (length waits.now ≡ waits_most) × (length waves.now ≡ clusters_most) }
    ensures { result ≡ joins_at closing waits.now waves.now own number }
{
    if waves[own] != 0 {
        return false;
    }
    if closing {
        return true;
    }
    can_start(waits, waves, own, number)
}

// Puts an entry, a part number and its wave, at its place in the lent buffer. Precondition: the buffer has room for the two numbers;
// `add_wave` requires room for every cluster that it may list.
fn put_entry(buffer: &mut [u32], place: usize, part: u32, wave: u32)
    requires { 2 * place + 2 ≤ length buffer.old }
    ensures { buffer.new ≡ sets buffer.old (2 * place) (part ∷ wave ∷ []) }
{
    let at = 2 * place;
    buffer[at] = part;
    buffer[at + 1] = wave;
}

// Adds a wave, in the order of the table. Precondition: the arrays have their length and the table at most 64 clusters, the number is at
// least 1, and the buffer has room for the clusters that are listed or have no wave; `list_waves` requires the room for every cluster and
// counts from 1.
fn add_wave(
    closing: bool,
    parts: &[u32; CLUSTERS_MOST],
    waits: &[usize; WAITS_MOST],
    size: usize,
    number: u32,
    started: Started,
    buffer: &mut [u32],
) -> Started
    requires { ArraysFit parts.now waits.now size × (1 ≤ number) × (2 * reached started size ≤ length buffer.old) }
    ensures room { (reached result size ≡ reached started size) × (started.count ≤ result.count) }
    ensures listed { AddsWave closing parts.now waits.now size number started result
        buffer.old buffer.new }
{
    let mut waves = started.waves;
    let mut count = started.count;
    for i in 0..size {
        if joins_at(closing, waits, &waves, i, number) {
            waves[i] = number;
            put_entry(buffer, count, parts[i], number);
            count += 1;
        }
    }
    Started { waves, count }
}

// Lists the waves of the table that the arrays are of. Each round but the last lists a cluster; where one lists none the rest close.
// Precondition: the arrays have their length, the table has at most 64 clusters, and the buffer has room for all; `write_waves` has the
// arrays of a table within its limits and requires the room.
pub fn list_waves(
    parts: &[u32; CLUSTERS_MOST],
    waits: &[usize; WAITS_MOST],
    size: usize,
    buffer: &mut [u32],
)
    requires { ArraysFit parts.now waits.now size × (2 * size ≤ length buffer.old) }
    ensures { ListsWaves parts.now waits.now size buffer.old buffer.new }
{
    let mut started = Started {
        waves: [0; CLUSTERS_MOST],
        count: 0,
    };
    let mut number: u32 = 1;
    while started.count < size {
        let next = add_wave(false, parts, waits, size, number, started, buffer);
        if next.count == started.count {
            add_wave(true, parts, waits, size, number, next, buffer);
            return;
        }
        started = next;
        number += 1;
    }
}
