// Exercises the lines of `replay`: the file stdin beside src/ goes through every line of the table, the refusals and their neighbours,
// every state with the old calls, whole sessions, damaged packages and the start waves. The file stdout is what an independent reading of
// document 01 and of the changes to it answers.
#![tactic(auto)]

fn main(rt: HostRuntime) {
    replay_bench::play_standard_input(&rt);
}
