// Reading the lines of a plan, with which the text of either program begins.
ghost use Rattle.lines.specs.Readers.{left, standing};
ghost use Rattle.programs.specs.Answers.{Tells};
ghost use Rattle.programs.specs.Planning.{PlanLines, Unplanned};

use crate::plan_line::PlanLine;
use crate::reading::{read_block, read_plan};
use crate::stop::Stop;
use lines::{Reader, Wanted};
use std::alloc::Global;

// A plan that was read, the numbers of its rows, and the reader behind them.
#[derive(Drop)]
pub(crate) struct PlanText<'a> {
    pub(crate) plan: PlanLine,
    pub(crate) rows: Vec<u8>,
    pub(crate) reader: Reader<'a>,
}

// Reads the lines of a plan at the head of a text.
pub(crate) fn read_plan_lines<'a>(heap: Global, text: &'a [u8]) -> Result<PlanText<'a>, Stop>
    ensures { Tells result (λ x. PlanLines x.plan.known x.plan.t x.plan.n x.rows.items text.now (left (standing x.reader))) (λ a. Unplanned text.now a) }
{
    let mut reader = Reader::new(text).map_err(|_| Stop::excess())?;
    let plan = read_plan(&mut reader)?;
    let mut rows = Vec::new(heap);
    read_block(
        &mut reader,
        Wanted::a_row(plan.t),
        1,
        plan.n - plan.t,
        &mut rows,
    )?;
    Ok(PlanText { plan, rows, reader })
}
