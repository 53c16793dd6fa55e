// What a program in C links: each function exports the one of `c_interface` of its name, and include/wozkindu.h declares it.
#![tactic(auto)]

ghost use Rattle.std.specs.Prelude.{◌≡◌};
ghost use Rattle.call_rows.specs.Rows.{decoded};
ghost use Rattle.c_interface.specs.LoadAndRun.{numbered_outcome, load_and_run_numbered, LoadRepliedBy, DemandMetBy0};

// Loads, and then makes every call of the list.
#[unsafe(no_mangle)]
pub extern "C" fn wozkindu_load_and_run(
    list: &[u8],
    first: u32,
    store: &mut [u8],
    words: &[u32],
    bytes: &[u8],
    answers: &mut [u32],
) -> u32
    ensures exact { numbered_outcome result store.new answers.new
        ≡ load_and_run_numbered list.now first store.old answers.old
        (decoded words.now bytes.now) }
    ensures load_reply { LoadRepliedBy list.now first store.old result }
    ensures demand3 { DemandMetBy0 list.now first store.old answers.old
        (decoded words.now bytes.now) result store.new answers.new }
{
    c_interface::wozkindu_load_and_run(list, first, store, words, bytes, answers)
}
