ghost use Rattle.std.specs.Prelude.{◌≡◌, ◌≤◌, IfOk};
ghost use Rattle.mz_base.specs.Answers.{Gives};
ghost use Rattle.mz_base.specs.FileLines.{lines_left};
ghost use Rattle.conn_matrix.specs.Costs.{size_on, cost_on, is_size, costs_in};

use mz_base::{
    FaultKind, FileLines, MOST_DIGITS, MOST_IDS, ReadError, is_cost, number, signed, text_of_line,
};
use std::alloc::Global;

/// The line on which the first cost stands.
pub const FIRST_COST_LINE: u64 = 2;

pub fn read_size(line: &[u8]) -> Result<u32, ReadError>
    ensures size { Gives (λ size. size) result (size_on line.now) }
    ensures small { IfOk result (λ size. size ≤ MOST_IDS) }
{
    let Some(text) = text_of_line(line) else {
        return Err(FaultKind::NotUtf8(1).into());
    };
    match number(text) {
        Some(size) if is_size(size) => Ok(size as u32),
        _ => Err(FaultKind::Size.into()),
    }
}

fn is_size(size: u64) -> bool
    ensures { result ≡ is_size size }
{
    1 <= size && size <= MOST_IDS as u64
}

/// The costs of the lines after the first.
pub fn read_costs(alloc: Global, lines: FileLines<'_>) -> Result<Vec<i32>, ReadError>
    ensures { Gives (λ costs. costs.items) result (costs_in (lines_left lines.entry)) }
{
    let mut costs = Vec::new(alloc);
    let mut ended = false;
    for line in lines {
        let number = costs.len() as u64 + FIRST_COST_LINE;
        if line.is_empty() {
            ended = true;
        } else if ended {
            // The empty line before it was not at the end.
            return Err(FaultKind::Number(number).into());
        } else {
            costs.push(read_cost(number, line)?)?;
        }
    }
    Ok(costs)
}

fn read_cost(number: u64, line: &[u8]) -> Result<i32, ReadError>
    ensures { Gives (λ cost. cost) result (cost_on number line.now) }
{
    let Some(text) = text_of_line(line) else {
        return Err(FaultKind::NotUtf8(number).into());
    };
    match signed(text, MOST_DIGITS) {
        None => Err(FaultKind::Number(number).into()),
        Some(cost) if is_cost(cost) => Ok(cost as i32),
        Some(_) => Err(FaultKind::Range(number).into()),
    }
}
