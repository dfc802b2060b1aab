//! Lines: a node and what it does.
ghost use Rattle.std.specs.Prelude.{◌≡◌, ◌++◌, OnOk};
ghost use Rattle.app_plan_text.specs.Lines.{inputs_text, line_rest, line_start, line_text};
ghost use Rattle.app_plan_text.specs.Lines.{lines_text, rows_text, spaces};

use itoa::Buffer;
use std::alloc::AllocError;

/// A line of a bound query, a tree or a plan.
pub struct PlanLine {
    /// The node's number.
    pub number: usize,
    /// How deep it stands in its tree, from 0.
    pub depth: usize,
    /// The word for its kind.
    pub kind: Vec<u8>,
    /// The numbers of the nodes that it reads.
    pub inputs: Vec<usize>,
    /// What it does: its table, condition, list or columns.
    pub detail: Vec<u8>,
    /// The names of its columns.
    pub columns: Vec<Vec<u8>>,
    /// How many rows it has, where they were counted.
    pub rows: Option<usize>,
}

// By hand, so that each place that drops one makes one call.
impl Drop for PlanLine {
    #[inline]
    fn drop(self) {
        let PlanLine {
            number: _,
            depth: _,
            kind,
            inputs,
            detail,
            columns,
            rows: _,
        } = self;
        drop(kind);
        drop(inputs);
        drop(detail);
        drop(columns);
    }
}

/// As many spaces as the deepest line has before it.
const BLANKS: &[u8; 64] = b"                                                                ";

/// Appends two spaces for each step of depth, up to 31 of them, and two more.
fn push_spaces(text: &mut Vec<u8>, depth: usize) -> Result<(), AllocError>
    ensures { OnOk result (text.new.items ≡ text.old.items ++ spaces depth) }
{
    text.extend_from_slice(&BLANKS[..depth.min(31) * 2 + 2])
}

/// Appends how many rows a node has.
fn push_rows(text: &mut Vec<u8>, rows: Option<usize>) -> Result<(), AllocError>
    ensures { OnOk result (text.new.items ≡ text.old.items ++ rows_text rows) }
{
    match rows {
        Some(count) => {
            let mut buffer = Buffer::new();
            text.extend_from_slice(b"  [")?;
            text.extend_from_slice(buffer.format(count).as_bytes())?;
            text.extend_from_slice(b" rows]\n")
        }
        None => text.extend_from_slice(b"\n"),
    }
}

/// Appends the numbers of the nodes that a node reads, a space before each.
fn push_inputs(text: &mut Vec<u8>, inputs: &[usize]) -> Result<(), AllocError>
    ensures { OnOk result (text.new.items ≡ text.old.items ++ inputs_text inputs.now) }
{
    for input in inputs {
        let mut buffer = Buffer::new();
        text.push(b' ')?;
        text.extend_from_slice(buffer.format(*input).as_bytes())?;
    }
    Ok(())
}

/// Appends the start of a line.
fn push_start(text: &mut Vec<u8>, line: &PlanLine) -> Result<(), AllocError>
    ensures { OnOk result (text.new.items ≡ text.old.items ++ line_start line.now) }
{
    let mut buffer = Buffer::new();
    push_spaces(text, line.depth)?;
    text.extend_from_slice(buffer.format(line.number).as_bytes())?;
    text.push(b' ')?;
    text.extend_from_slice(line.kind.as_slice())
}

/// Appends the rest of a line.
fn push_rest(text: &mut Vec<u8>, line: &PlanLine) -> Result<(), AllocError>
    ensures { OnOk result (text.new.items ≡ text.old.items ++ line_rest line.now) }
{
    push_inputs(text, line.inputs.as_slice())?;
    text.push(b' ')?;
    text.extend_from_slice(line.detail.as_slice())?;
    push_rows(text, line.rows)
}

/// Appends a line.
fn push_line(text: &mut Vec<u8>, line: &PlanLine) -> Result<(), AllocError>
    ensures { OnOk result (text.new.items ≡ text.old.items ++ line_text line.now) }
{
    push_start(text, line)?;
    push_rest(text, line)
}

/// Appends lines: of each its number, its kind, what it reads, what it does, and its rows where
/// they were counted.
pub fn push_lines(text: &mut Vec<u8>, lines: &[PlanLine]) -> Result<(), AllocError>
    ensures { OnOk result (text.new.items ≡ text.old.items ++ lines_text lines.now) }
{
    for line in lines {
        push_line(text, line)?;
    }
    Ok(())
}
