// The line of the proof check's answer to two files, written into a lent area.
ghost use Rattle.proof_rules.specs.Check.{proof_answer};
ghost use Rattle.programs_lines.specs.Lines.{line, EndsIn};

use programs_lines::lines;
use proof_check::check;
use reader::Answer;

// Writes the line of the answer to two files at the end of the area; where it begins. No plainer: one function over both checks, whose clause would say `F.post`
// where these name a definition, and which each program would wrap in such a one.
pub fn put_answer(obligation: &[u8], proof: &[u8], out: &mut [u8; 84]) -> usize
    ensures { EndsIn 84 (line (proof_answer obligation.now proof.now)) out.old out.new result }
{
    let checked = check::check_proof(obligation, proof);
    lines::put_line(out, Answer::of(checked))
}
