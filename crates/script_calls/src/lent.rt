// The part of the program's bytes that is lent as the store.
ghost use Rattle.std.specs.Prelude.{◌≡◌};
ghost use Rattle.script_calls.specs.Line.{lent_count};

// Returns how many bytes are lent: as many as are asked for, and at most all.
#[tactic(auto, using(std::proofs::lemmas::Bool::Decides::nat_tests), unfolding(crate::specs::Line::lent_count))]
pub fn lent(asked: usize, all: usize) -> usize
    ensures { result ≡ lent_count asked all }
{
    asked.min(all)
}
