// The kinds of cases.
use crate::{comparisons, lists, numbers, packages, sums, table_actions, versions};
use cases::case::field;
use cases::show;
use std::io;

// Prints a case, by its sentence.
pub fn show_case(rt: &HostRuntime, case: &[u8]) -> io::Result<()> {
    let sentence = field(case, 0);
    show::with_fields(rt, sentence, case)?;
    match sentence {
        b"number `%` up to %:" => numbers::read(rt, case),
        b"number written in" => numbers::write(rt, case),
        b"version `%`:" => versions::read(rt, case),
        b"sum of `%` and `%`:" => sums::sum(rt, case),
        b"% above %:" => comparisons::compare(rt, case),
        b"need of % at %, 20 at %:" => comparisons::need(rt, case),
        b"% needs %:" => comparisons::needs(rt, case),
        b"% %:" => table_actions::action(rt, case),
        b"list, %:" => lists::list(rt, case),
        b"package, %:" => packages::package(rt, case),
        b"longest lists:" => lists::longest(rt),
        b"sum of all bytes in order from % on, then those before:" => sums::sum_in_order(rt, case),
        _ => show::bytes(rt, b" no such kind of case\n"),
    }
}
