// Trials: netlists and lists of calls, made by a fixed generator, are held to the evaluator that goes pattern by pattern
// and knows no tables.
#![tactic(auto)]

mod audit;
mod book;
mod calls;
mod choosing;
mod dice;
mod lines;
mod lists;
mod making;
mod netlists;
mod numbers;
mod parts;
mod printing;
mod score;
mod signals;
mod trial;

use algebra::{Algebra, FiveValued, TwoValued};
use diagram::{NoMemo, RowMemo};
use dice::Dice;
use score::Score;
use trial::Trial;

const SEED: u64 = 20_240_229;

// How many pairs of netlists and lists of calls are tried under each algebra, half of them with a memo.
const NETLISTS: u32 = 1200;

const LISTS: u32 = 200;

// Memos of 1 to 256 rows, by turns.
fn memo_bits(turn: u32) -> u8 {
    (turn % 9) as u8
}

// Tries the netlists and the lists of one algebra, by turns with a memo of some rows and one that keeps none.
fn try_algebra<G: Algebra>(
    rt: &HostRuntime,
    score: &mut Score,
    dice: &mut Dice,
    algebra: &G,
) -> anyhow::Result<()> {
    for turn in 0..NETLISTS {
        let mut memo = RowMemo::new(rt.alloc(), memo_bits(turn))?;
        Trial::new(rt, score, dice, algebra, &mut memo).try_netlists()?;
        Trial::new(rt, score, dice, algebra, &mut NoMemo).try_netlists()?;
    }
    for turn in 0..LISTS {
        let mut memo = RowMemo::new(rt.alloc(), memo_bits(turn))?;
        Trial::new(rt, score, dice, algebra, &mut memo).try_list()?;
        Trial::new(rt, score, dice, algebra, &mut NoMemo).try_list()?;
    }
    Ok(())
}

fn main(rt: HostRuntime) -> anyhow::Result<()> {
    let mut score = Score::new(rt.alloc());
    let mut dice = Dice::new(SEED);
    try_algebra(&rt, &mut score, &mut dice, &FiveValued)?;
    try_algebra(&rt, &mut score, &mut dice, &TwoValued)?;
    println!(rt; "{score}")?;
    Ok(())
}
