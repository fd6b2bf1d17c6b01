// Runs the twelve cases through the public calls, and prints a line of each: its number, and the numbers of its rows in the table.
#![tactic(auto)]

use case_calls::row::Row;
use case_calls::run::{
    blocks_7, blocks_8, case_1, case_7, case_8, case_9, case_12, codes_9, cut, masked, patch_level,
};
use rollback::frame::Rollbacks;
use std::io;

fn show_row(rt: &impl Print, r: Row) -> io::Result<()> {
    for n in r.numbers.iter().take(r.len) {
        print!(rt; " {n}")?;
    }
    Ok(())
}

fn show(rt: &impl Print, case: usize, r: Row) -> io::Result<()> {
    print!(rt; "{case}")?;
    show_row(rt, r)?;
    println!(rt)
}

fn show_both(rt: &impl Print, case: usize, r: Row, q: Row) -> io::Result<()> {
    print!(rt; "{case}")?;
    show_row(rt, r)?;
    show_row(rt, q)?;
    println!(rt)
}

fn cuts(rt: &impl Print) -> io::Result<()> {
    show(rt, 2, cut(28))?;
    show(rt, 3, cut(29))?;
    show(rt, 4, cut(349))?;
    show(rt, 5, cut(350))
}

fn codes(rt: &impl Print) -> io::Result<()> {
    show_both(rt, 7, case_7(), blocks_7())?;
    show_both(rt, 8, case_8(), blocks_8())?;
    show_both(rt, 9, case_9(), codes_9())
}

fn main(rt: HostRuntime) -> io::Result<()> {
    show(&rt, 1, case_1())?;
    cuts(&rt)?;
    show(&rt, 6, patch_level(0))?;
    codes(&rt)?;
    show_both(
        &rt,
        10,
        masked(Rollbacks::ExceptFirst),
        masked(Rollbacks::ExceptLast),
    )?;
    show_both(&rt, 11, patch_level(0), patch_level(1))?;
    show(&rt, 12, case_12())
}
