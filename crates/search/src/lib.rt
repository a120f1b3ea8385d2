// A plan from the sheet itself: a search with a budget.
#![tactic(auto)]

mod choose;
mod clause;
mod count;
mod fill;
mod level;
mod propagate;
mod tables;

ghost use Rattle.std.specs.Prelude.{◌≡◌, ◌+◌, ◌/◌, ◌≤◌};
ghost use Rattle.search.specs.Answer.{search_finding, answered, found};
ghost use Rattle.search.specs.Promises.{RefusedWhen, Promised};

use judgement::{Finding, NONE, Reason, Refusal};

// Refusal 26's limit on n: what fits a word.
const MOST_SEARCHED: u32 = 64;

// A node: the variables settled as true and as false. A set of variables is a number: variable v is bit v - 1.
#[derive(Clone, Copy)]
pub struct Node {
    pub trues: u64,
    pub falses: u64,
}

// How far the search has come. `cost` is the best plan's and `plan` its true variables, "none" and 0 before there is one;
// `floor` is the least cost of a node with a branch that stays untried since the budget was spent, "none" where there is none;
// `left` is what is left of the budget; `stopped`: there is such a branch. "none" is a number, and no `Option`, as it is for `begin` and
// `searched` and for C: what a node costs is below it, so that leaving is one comparison.
// `stopped` stands beside the floor, as it does in `stop` and as `ended` does for C.
#[derive(Clone, Copy)]
pub struct Progress {
    pub cost: u64,
    pub plan: u64,
    pub floor: u64,
    pub left: u64,
    pub stopped: bool,
}

// The answer to a sheet and a budget: the C interface's seven numbers, which `RefusedWhen` and `Promised` name.
#[derive(Clone, Copy)]
pub struct Found {
    pub number: u32,
    pub place: u32,
    pub found: bool,
    pub plan: u64,
    pub choices: u64,
    pub ended: bool,
    pub floor: u64,
}

// n, m and the loss.
#[derive(Clone, Copy)]
pub struct Size {
    pub variables: u32,
    pub clauses: u32,
    pub loss: u32,
}

impl Size {
    // How many numbers have a bit for each clause, 64 to a number.
    pub(crate) fn words(self) -> usize
        ensures { result ≡ (self.clauses + 63) / 64 }
    {
        (self.clauses as usize).div_ceil(64)
    }
}

// Forcing under way: the node, and the variables that are settled and whose clauses are still to be looked at.
#[derive(Clone, Copy)]
pub struct Work {
    pub trues: u64,
    pub falses: u64,
    pub todo: u64,
}

// What forcing came to: a node and its cost.
#[derive(Clone, Copy)]
pub struct Settled {
    pub node: Node,
    pub price: u64,
}

// Refusals 1 to 4 of the sheet alone, then 26.
#[tactic(auto, unfolding(crate::specs::Answer::search_finding, crate::specs::Answer::too_many))]
fn search_finding(sheet: &[u8]) -> Finding
    ensures { result ≡ search_finding sheet.now }
{
    sheet::alone_finding(sheet)?;
    if MOST_SEARCHED < sheet::variable_count(sheet) {
        return Err(Reason::ManyPaddles.at(0));
    }
    Ok(())
}

// The answer to a sheet that is refused: no plan, not ended, zeros.
impl From<Refusal> for Found {
    ghost use Rattle.std.specs.Prelude.{◌≡◌};
    ghost use Rattle.search.specs.Answer.{refused};

    ghost from_gives = { λ x a. a ≡ refused x.number x.place };

    fn from(refusal: Refusal) -> Found {
        Found {
            number: refusal.number,
            place: refusal.place,
            found: false,
            plan: 0,
            choices: 0,
            ended: false,
            floor: 0,
        }
    }
}

// The answer where the search came to s.
#[tactic(auto, unfolding(judgement::specs::Meaning::none))]
fn answer(budget: u64, s: Progress) -> Found
    requires { s.left ≤ budget }
    ensures { result ≡ answered budget s }
{
    Found {
        number: 0,
        place: 0,
        found: s.cost != NONE,
        plan: s.plan,
        choices: budget - s.left,
        ended: !s.stopped,
        floor: s.floor.min(s.cost),
    }
}

// The best plan that a search of so many choices finds, and no plan costs less than the floor. Refusals 1 to 4 of the sheet, and
// 26 where it has more than 64 variables. `when` and `promised` speak of the answer, and so, by `answer`, of the
// definition.
pub fn search(sheet: &[u8], budget: u64) -> Found
    ensures answer { result ≡ found sheet.now budget }
    ensures when { RefusedWhen sheet.now result }
    ensures promised { Promised sheet.now budget result }
{
    match search_finding(sheet) {
        Ok(()) => answer(budget, fill::search_valid(sheet, budget)),
        Err(refusal) => Found::from(refusal),
    }
}
