// Questions over the units of a project, case by case. Standard input has a line a step. `unit PATH READ..` begins a unit that reads
// these texts too; then `occ ROLE ANCHOR TOKEN`, `entity KIND ANCHOR NAME TYPE` and `symbol KIND NAME TOKEN` say what it means, `tag LETTER
// KIND NAME`, `member NAME TYPE` (of the tag before) and `export NAME TYPE TOKEN`, with the token that defines it behind, what it shows; a
// token is `FILE:NUMBER`, an anchor `external:NAME`, `local:TOKEN` or `made:TOKEN:NAME`, a type as in `notation.rt`, and an enumerator's
// type its value. `project` begins another project. `definition TOKEN`, `references TOKEN`, `uses TOKEN` (references without
// declarations), `hover TOKEN`, `symbols PATH`, `across` (the warnings across units), `matches PATH TYPE PATH TYPE` and `under OFFSET RANGE..`
// ask, where a range is `iSTART-END` of an identifier, or with another letter of another token: they are printed with their answers, as is
// every other line.
#![tactic(auto)]

mod draft;
mod notation;
mod play;
mod tags;
mod words;

use play::Play;
use std::io;
use std::io::Read;

fn play_lines(rt: &HostRuntime, play: &mut Play) -> io::Result<()> {
    let mut text = String::new(rt.alloc());
    rt.stdin().read_to_string(&mut text)?;
    for line in text.lines() {
        play.take(rt, line)?;
    }
    Ok(())
}

fn main(rt: HostRuntime) -> io::Result<()> {
    let mut play = Play::new(rt.alloc());
    play_lines(&rt, &mut play)
}
