// The survey: each combination of leaves that some state has is met, and what is known to hold nothing above the best is passed over.
ghost use Rattle.std.specs.Prelude.{◌≡◌, ◌≤◌, max};
ghost use Rattle.sources.specs.Carried.{Carried};
ghost use Rattle.sources.specs.Spots.{roots, top, AllNamed, Allowed, values};
ghost use Rattle.survey.specs.Greatest.{GreatestIsGreatest};
ghost use Rattle.survey.specs.OverStates.{SurveysCoverStates};
ghost use Rattle.survey.specs.Surveyed.{greatest_from, Surveyed};

use sources::combining::{Combining, combined_at};
use sources::memo::Memo;
use sources::reading::Reading;
use sources::spot::Spot;

fn better_of(best: u64, figure: u64) -> u64
    ensures { result ≡ max best figure }
{
    best.max(figure)
}

// The best so far, or what is read from three references if it is more. `from` and `at` say where the walk stands.
fn visit<F: Combining<Out = u64>>(
    figure: F,
    reading: Reading<F::First, F::Second, F::Third>,
    memo: &mut Memo,
    best: u64,
    from: u16,
    at: Spot,
) -> u64
    requires allowed { Allowed (F.Combining.can figure) F.First.Interned.blank F.Second.Interned.blank F.Third.Interned.blank reading.sources }
    requires named { AllNamed reading.sources at }
    requires above { from ≤ top reading.sources at }
    requires surveyed { Surveyed reading.sources (values (F.Combining.meaning figure) F.First.Interned.blank F.Second.Interned.blank F.Third.Interned.blank reading.sources) memo.old.entries.now memo.old.stamp best }
    ensures greatest { result ≡ max best (greatest_from reading.entry.sources from (values (F.Combining.meaning figure) F.First.Interned.blank F.Second.Interned.blank F.Third.Interned.blank reading.entry.sources from at)) }
    ensures surveyed { Surveyed reading.entry.sources (values (F.Combining.meaning figure) F.First.Interned.blank F.Second.Interned.blank F.Third.Interned.blank reading.entry.sources) memo.new.entries.now memo.new.stamp result }
    ensures carried { Carried memo.old memo.new }
{
    memo.count_visit();
    let level = reading.sources.top_of(at);
    if level == reading.sources.levels() {
        return better_of(best, combined_at(figure, reading, at));
    }
    if memo.is_remembered(at) {
        return best;
    }
    let next = level + 1;
    let ahead = reading.sources.branches_from(level, at);
    let better = visit(figure, reading, memo, best, next, ahead.one);
    let most = visit(figure, reading, memo, better, next, ahead.zero);
    // That the triple was met is all that is looked up, so the result is no matter.
    memo.remember(at, 0);
    most
}

// The greatest of a figure over all that three diagrams say together.
pub fn survey<F: Combining<Out = u64>>(
    figure: F,
    reading: Reading<F::First, F::Second, F::Third>,
    memo: &mut Memo,
) -> u64
    requires { Allowed (F.Combining.can figure) F.First.Interned.blank F.Second.Interned.blank F.Third.Interned.blank reading.sources }
    ensures { result ≡ greatest_from reading.entry.sources 0 (values (F.Combining.meaning figure) F.First.Interned.blank F.Second.Interned.blank F.Third.Interned.blank reading.entry.sources 0 (roots reading.entry.sources)) }
{
    memo.renew();
    visit(figure, reading, memo, 0, 0, reading.sources.roots())
}

// The greatest value is no less than any, and is met.
pub fn greatest_is_greatest()
    ensures { GreatestIsGreatest }
{}

// Over tables of states it is the greatest over all states.
pub fn surveys_cover_states()
    ensures { SurveysCoverStates }
{}
