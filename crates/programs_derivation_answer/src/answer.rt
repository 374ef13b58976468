// The line of the derivation check's answer to two files, written into a lent area.
ghost use Rattle.derivation_rules.specs.Check.{derivation_answer};
ghost use Rattle.programs_lines.specs.Lines.{line, EndsIn};

use derivation_check::check;
use programs_lines::lines;
use reader::Answer;

// Writes the line of the answer to two files at the end of the area; where it begins. No plainer: one function over both checks, whose clause would say `F.post`
// where these name a definition, and which each program would wrap in such a one.
pub fn put_answer(obligation: &[u8], derivation: &[u8], out: &mut [u8; 84]) -> usize
    ensures { EndsIn 84 (line (derivation_answer obligation.now derivation.now)) out.old out.new result }
{
    let checked = check::check_derivation(obligation, derivation);
    lines::put_line(out, Answer::of(checked))
}
