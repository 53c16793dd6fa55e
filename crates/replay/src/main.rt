// Plays a script of calls from standard input against one manager and writes every answer to standard output. The file stdin beside
// src/ is a first update.
#![tactic(auto)]

fn main(rt: HostRuntime) {
    replay_bench::play_standard_input(&rt);
}
