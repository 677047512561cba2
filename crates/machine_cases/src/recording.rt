// Runs of the policy in force, over the cells of a machine.
ghost use Rattle.std.specs.Prelude.{◌≡◌, IfOk, IfSome, IsTrue, true};
ghost use Rattle.maple_base.specs.Kinds.{of_kind};
ghost use Rattle.policy_eval.specs.Answers.{IsBudget};
ghost use Rattle.machine_steps.specs.Admitting.{IsOfHistory};
ghost use Rattle.machine_steps.specs.Machine.{policy_number};
ghost use Rattle.machine_cases.specs.Driving.{IsRunOf};

use case_text::CaseStop;
use core_machine::{Core, Entry, JobItem, Reply};
use maple_base::{Cell, EnvView, Value, is_port};
use policy_lang::Policy;
use std::alloc::Global;
use std::sync::Arc;
use trace_record::{RecordError, Run, record};

// More cells than any run of the rows reads.
const MANY: u32 = 100;

// What the machine told of cells so far. At another cell the view notes which was asked, and refuses.
#[derive(Drop)]
struct KnownCells {
    cells: Vec<(Cell, Value)>,
    asked: Option<Cell>,
    refusals: u64,
}

impl EnvView for KnownCells {
    ghost gave = { λ view cell value. Unit {0} };

    ghost refused = { λ view. view.refusals };

    fn read(&mut self, cell: Cell) -> Option<Value> {
        if let Some(value) = told(&self.cells, &cell) {
            return Some(value);
        }
        self.asked = Some(cell);
        self.refusals = self.refusals.saturating_add(1);
        None
    }

    fn refusals(&self) -> u64 {
        self.refusals
    }
}

// What was told of a cell.
fn told(cells: &[(Cell, Value)], cell: &Cell) -> Option<Value>
    ensures { IfSome result (λ value. IsTrue (of_kind cell.now value)) }
{
    for (other, value) in cells {
        if other == cell && is_of_kind(cell, *value) {
            return Some(*value);
        }
    }
    None
}

fn is_of_kind(cell: &Cell, value: Value) -> bool
    ensures { result ≡ of_kind cell.now value }
{
    match (cell, value) {
        (Cell::Host(_) | Cell::Hop { .. } | Cell::Num { .. }, Value::Nothing) => true,
        (Cell::Host(_), Value::At(_)) => true,
        (Cell::Hop { .. }, Value::At(place)) => is_port(place.port),
        (Cell::Num { .. }, Value::Number(_)) => true,
        (Cell::Up { .. }, Value::Flag(_)) => true,
        _ => false,
    }
}

/// Runs the policy in force on the packet of a job, and records what it asks. Each cell is read by an entry of its own.
#[tactic(auto, using(crate::proofs::Kept::lent_run))]
pub fn recorded(
    alloc: Global,
    core: &mut Core,
    budget: u32,
    item: &JobItem,
) -> Result<Run, CaseStop>
    requires steps { core.old.settings.budget ≡ budget }
    requires budget { IsBudget budget }
    ensures kept { core.new ≡ core.old }
    ensures run { IfOk result (λ run. IsOfHistory run core.old) }
{
    let (number, policy) = lent(core)?;
    let mut view = KnownCells {
        cells: Vec::new(alloc),
        asked: None,
        refusals: 0,
    };
    for _ in 0..MANY {
        if let Some(run) = run_of(alloc, &policy, number, budget, item, &mut view)? {
            return Ok(run);
        }
        let cell = view.asked.ok_or(CaseStop::Unread)?;
        view.cells.push((cell, read(core, cell)?))?;
    }
    Err(CaseStop::Unread)
}

// The policy in force, with its number.
#[tactic(auto, using(crate::proofs::Kept::lending_keeps))]
fn lent(core: &mut Core) -> Result<(u64, Arc<Policy>), CaseStop>
    ensures kept { core.new ≡ core.old }
    ensures number { IfOk result (λ lent. lent.0 ≡ policy_number core.new) }
    ensures policy { IfOk result (λ lent. lent.1.value ≡ core.new.policy) }
{
    match core.step(Entry::ReadPolicy) {
        Reply::Policy(number, policy) => Ok((number, policy)),
        _ => Err(CaseStop::NoMemory),
    }
}

// A run, unless it asks of a cell that the view doesn't know.
fn run_of(
    alloc: Global,
    policy: &Policy,
    number: u64,
    budget: u32,
    item: &JobItem,
    view: &mut KnownCells,
) -> Result<Option<Run>, CaseStop>
    requires { IsBudget budget }
    ensures { IfOk result (λ found. IfSome found (λ run. IsRunOf policy.now number budget run)) }
{
    match record(
        alloc,
        policy,
        number,
        budget,
        item.switch(),
        item.key(),
        view,
    ) {
        Ok(run) => {
            run.law();
            Ok(Some(run))
        }
        Err(RecordError::Unread) => Ok(None),
        Err(RecordError::NoMemory) => Err(CaseStop::NoMemory),
    }
}

fn read(core: &mut Core, cell: Cell) -> Result<Value, CaseStop>
    ensures { core.new ≡ core.old }
{
    match core.step(Entry::ReadCell(cell)) {
        Reply::Value(value) => Ok(value),
        _ => Err(CaseStop::NoMemory),
    }
}
