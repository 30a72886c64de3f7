// The lines of a program's input, each answered in turn.
ghost use Rattle.std.specs.Prelude.{◌≡◌, ℕ, ◌+◌, ◌-◌, ◌^◌, ◌<◌, List, length, IfSome, IfOk};
ghost use Rattle.number_lines.specs.InputLines.{AnsweredInTurn, AnswersBy, lines_of, tallied_from};
ghost use Rattle.number_lines.specs.Tallies.{no_line};
ghost use Rattle.number_lines.specs.declared.tally.Outcome.{Outcome};

use crate::tally::{Outcome, Tally};
use std::io;
use std::io::BufRead;

// Answers each line by its number, from 1 on, and tells at the end what became of the lines, or the hint where none
// counted. A line has its line feed where it had one. The closure is lent, so that the calls can be told from it.
pub fn answer_lines<
    H: Print + AllocGlobal,
    B: BufRead + Drop,
    F: FnMut(u64, &[u8]) -> io::Result<Outcome>,
>(rt: &H, mut input: B, hint: &str, answer: &mut F) -> io::Result<Tally>
    requires { F.IsAlwaysCallable answer.old }
    ensures in_turn { IfSome (B.remaining input) (λ bytes. length bytes + 2 < 2 ^ 64 → IfOk result (λ tally. AnsweredInTurn F.FnMut answer.old 1 (lines_of bytes) no_line answer.new tally)) }
    ensures counted { IfSome (B.remaining input) (λ bytes. length bytes + 2 < 2 ^ 64 → (outcome : ℕ → List ℕ → Outcome) → AnswersBy F.FnMut outcome answer.old → IfOk result (λ tally. tally ≡ tallied_from outcome 1 (lines_of bytes) no_line)) }
{
    let mut tally = Tally::default();
    for number in 1..u64::MAX {
        let mut line = Vec::new(rt.alloc());
        // `split` would take the line feed away, and the column of a fault may be the line feed's.
        if input.read_until(b'\n', &mut line)? == 0 {
            break;
        }
        tally = tally.with(answer(number, &line)?);
    }
    if tally.is_empty() {
        println!(rt; "{hint}")?;
    } else {
        println!(rt; "{tally}")?;
    }
    Ok(tally)
}
