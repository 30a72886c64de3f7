// The tables that a person reads.
use crate::fraction::Fraction;
use crate::proportion::{difference, exact_proportion};
use crate::question::Question;
use number_lines::{Outcome, sum_of};
use passing::{Pass, work_out_pass};
use sharing::{GreatestRemainder, Running, SharingRule};
use std::io;

// Shows the pass by both rules. The line is answered if at least one of them worked it out.
pub fn show_question(rt: &HostRuntime, question: &Question) -> io::Result<Outcome> {
    let amount = question.amount;
    let permille = question.permille;
    let takers = question.kws.len();
    println!(rt; "{amount} euros, permille {permille}, {takers} takers")?;
    let running = show_rule(rt, "running rule", &Running, question)?;
    let greatest = show_rule(rt, "greatest remainder", &GreatestRemainder, question)?;
    println!(rt)?;
    Ok(running.or(greatest))
}

// Shows the pass by one rule, or why it is refused. Each program does this in words of its own; only the outcome is the same.
fn show_rule<R: SharingRule>(
    rt: &HostRuntime,
    name: &str,
    rule: &R,
    question: &Question,
) -> io::Result<Outcome> {
    match work_out_pass(rule, &question.figures()) {
        Ok(pass) => {
            let by_kw = pass.kw.part;
            let by_mwh = pass.mwh.part;
            println!(rt; "  {name}: {by_kw} by kW, {by_mwh} by MWh")?;
            show_takers(rt, question, &pass)?;
            Ok(Outcome::Answered)
        }
        Err(refusal) => {
            println!(rt; "  {name}: {refusal}")?;
            Ok(Outcome::Refused)
        }
    }
}

// One line a taker, and the sums below.
fn show_takers(rt: &HostRuntime, question: &Question, pass: &Pass) -> io::Result<()> {
    println!(rt;
        "    taker              kW         MWh    kW euros   MWh euros    received      exact proportion            difference"
    )?;
    let flows = question.kws.iter().zip(&question.mwhs);
    let euros = pass.kw.shares.iter().zip(&pass.mwh.shares);
    for (taker, ((kw, mwh), ((kw_euros, mwh_euros), received))) in flows
        .zip(euros.zip(&pass.received))
        .enumerate()
    {
        show_name(rt, taker)?;
        print!(rt; "{kw:>10}  {mwh:>10}  {kw_euros:>10}  {mwh_euros:>10}  {received:>10}")?;
        show_distance(rt, question, taker, *received)?;
    }
    show_sums(rt, pass)
}

fn show_name(rt: &HostRuntime, taker: usize) -> io::Result<()> {
    if taker == 0 {
        print!(rt; "    consumers  ")
    } else {
        print!(rt; "    coupling {taker:<2}")
    }
}

// The exact proportion, and what was received less that.
fn show_distance(
    rt: &HostRuntime,
    question: &Question,
    taker: usize,
    received: u64,
) -> io::Result<()> {
    let Some((above, below)) = exact_proportion(&question.figures(), taker) else {
        return println!(rt);
    };
    show_fraction(rt, Fraction::new(false, above, below))?;
    show_fraction(rt, difference(received, above, below))?;
    println!(rt)
}

fn show_fraction(rt: &HostRuntime, fraction: Option<Fraction>) -> io::Result<()> {
    let Some(fraction) = fraction else {
        return Ok(());
    };
    let text = format!(in rt.alloc(); "{fraction}")?;
    print!(rt; "  {text:>20}")
}

fn show_sums(rt: &HostRuntime, pass: &Pass) -> io::Result<()> {
    let kw_euros = sum_of(&pass.kw.shares);
    let mwh_euros = sum_of(&pass.mwh.shares);
    let received = sum_of(&pass.received);
    println!(rt;
        "    sum                                {kw_euros:>10}  {mwh_euros:>10}  {received:>10}"
    )
}
