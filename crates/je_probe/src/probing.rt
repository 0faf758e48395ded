//! A probe of a method.

ghost use Rattle.std.specs.Prelude.{IfOk};
ghost use Rattle.je_probe.specs.Probed.{IsProbe};

use crate::answer::{ProbeAnswer, answers_given};
use crate::heap::{ProbeHeap, heap_given};
use crate::method::method_given;
use crate::outcome::{ProbeEnd, end_shown};
use crate::run::kept_run;
use crate::value::{ProbeValue, values_given};
use je_base::Memory;
use je_consts::Consts;
use je_instr::Program;
use std::alloc::Global;

/// Runs code with these arguments, on this heap, for at most `limit` instructions.
///
/// Its parameters are of the kinds of the arguments. Each call and each float instruction takes the
/// next answer, which leaves the heap as it is; where none is left the run goes no further. Nothing
/// is known of other classes: a class is one of itself and of java/lang/Object alone. No
/// instruction goes by the version, `major`. Code that has an instruction whose operands are not
/// allowed does nothing.
///
/// # Errors
///
/// `Memory` where memory runs out.
pub fn probe(
    alloc: Global,
    p: &Program,
    consts: &Consts,
    major: u16,
    args: &[ProbeValue],
    heap: &ProbeHeap,
    answers: &[ProbeAnswer],
    limit: u32,
) -> Result<ProbeEnd, Memory>
    // It shows what the run of the code's program comes to.
    ensures { IfOk result (IsProbe consts.now p.now args.now heap.now answers.now limit) }
{
    let _ = major;
    let program = method_given(alloc, consts, p, args)?;
    let arguments = values_given(alloc, consts, args)?;
    let start = heap_given(alloc, consts, heap)?;
    let replies = answers_given(alloc, consts, answers)?;
    let bound = u64::from(limit);
    let outcome = kept_run(alloc, &program, arguments.as_slice(), start, replies, bound)?;
    let given = heap.statics.as_slice();
    let end = end_shown(alloc, consts, given, &program, &outcome)?;
    Ok(end)
}
