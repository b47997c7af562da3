// What the planner's numbers mean, and that they are sound: exact values, passes, draws, histories, and the theorems about them.
#![tactic(auto)]

ghost use Rattle.planning.specs.Histories.{ValuesLieWithin, RangesStayNarrow, AdviceIsCertified};
ghost use Rattle.planning.specs.Lock.{Worked, SomeHistory};
ghost use Rattle.planning.specs.Values.{SumsAreNested};

// The sum over all states after a move, weighted, is its conditions averaged one by one.
pub fn sums_are_nested()
    ensures { SumsAreNested }
{}

// In every history the exact value, with as many stages to go as passes were closed, lies within each state's range.
pub fn values_lie_within()
    ensures { ValuesLieWithin }
{}

// In every history no range is wider than the greatest strength of a pruning, or than (2 + d·n) ÷ (1 - d).
pub fn ranges_stay_narrow()
    ensures { RangesStayNarrow }
{}

// In every history, and for each draw in it, no plan beats the moves drawn by more than loss + tail·d^N over N stages.
pub fn advice_is_certified()
    ensures { AdviceIsCertified }
{}

// The figures of the one-condition lock.
pub fn lock_is_worked()
    ensures { Worked }
{}

// The theorems speak of something: a sound model has a history with a start, a whole pass, a pruning and a draw.
pub fn histories_exist()
    ensures { SomeHistory }
{}
