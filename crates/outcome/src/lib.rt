#![tactic(auto)]

ghost use Rattle.std.specs.Prelude.{◌≡◌};
ghost use Rattle.outcome.specs.Table.{number_and_place};

// How a call ends: document 01, Outcomes, with the numbers that document 02 adds: 10 in A2, 19 and 20 in A6, 11 and 12 in A7. number_and_place, in specs/, gives the numbers.
// The count of sweeps stands beside an outcome, not in it.
pub type Outcome = Result<Ending, Refusal>;

// How a call ends that is not refused.
#[derive(Clone, Copy, Debug, PartialEq, Eq)]
pub enum Ending {
    // done, or settled
    Done,
    Spent,
}

// Why a call is refused, with the place that its row of the table names: a number, as document 01 counts it, and 0 where a call has no such place.
#[derive(Clone, Copy, Debug, PartialEq, Eq)]
pub enum Refusal {
    // n is 0 or above 32
    Size,
    // a slice has the wrong length: 1 matrix, 2 right side, 3 box or sheet
    Length(usize),
    // the sweeps allowed are 0 or above 10,000
    Allowed,
    // ends out of sequence or out of the range, at this position
    Ends(usize),
    // the pivot contains 0
    ContainsZero(usize),
    // a result out of the range, in this row
    OutOfRange(usize),
    // an empty intersection
    Empty(usize),
    // the text is not as described, in this line
    Text(usize),
    // neither every row sum nor every column sum of the magnitudes is below one
    Sums,
    // nothing is loaded, or the half pass is out of turn
    NotDue,
    // a narrowed component outside 1 to n
    NoComponent,
    // a row or column outside 1 to n, in this record
    OutOfMatrix(usize),
    // this record does not come after the one before it
    OutOfOrder(usize),
}

// The number that document 01 gives an outcome.
pub fn number(outcome: Outcome) -> u64
    ensures { result ≡ (number_and_place outcome).number }
{
    match outcome {
        Ok(Ending::Done) => 0,
        Ok(Ending::Spent) => 9,
        Err(Refusal::Size) => 1,
        Err(Refusal::Length(_)) => 2,
        Err(Refusal::Allowed) => 4,
        Err(Refusal::Ends(_)) => 3,
        Err(Refusal::ContainsZero(_)) => 5,
        Err(Refusal::OutOfRange(_)) => 6,
        Err(Refusal::Empty(_)) => 7,
        Err(Refusal::Text(_)) => 8,
        Err(Refusal::Sums) => 10,
        Err(Refusal::NotDue) => 19,
        Err(Refusal::NoComponent) => 20,
        Err(Refusal::OutOfMatrix(_)) => 11,
        Err(Refusal::OutOfOrder(_)) => 12,
    }
}

// The place returned with it: a table of its own, so that either reads as document 01's column.
pub fn place(outcome: Outcome) -> usize
    ensures { result ≡ (number_and_place outcome).place }
{
    match outcome {
        Ok(Ending::Done) => 0,
        Ok(Ending::Spent) => 0,
        Err(Refusal::Size) => 0,
        Err(Refusal::Length(slice)) => slice,
        Err(Refusal::Allowed) => 0,
        Err(Refusal::Ends(position)) => position,
        Err(Refusal::ContainsZero(pivot)) => pivot,
        Err(Refusal::OutOfRange(row)) => row,
        Err(Refusal::Empty(component)) => component,
        Err(Refusal::Text(line)) => line,
        Err(Refusal::Sums) => 0,
        Err(Refusal::NotDue) => 0,
        Err(Refusal::NoComponent) => 0,
        Err(Refusal::OutOfMatrix(record)) => record,
        Err(Refusal::OutOfOrder(record)) => record,
    }
}
