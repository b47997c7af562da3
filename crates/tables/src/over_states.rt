// Tables over states, among the tables over a move.
ghost use Rattle.tables.specs.OverStates.{StatesTestNoAfter};

// A list of nodes is lawful over states exactly when it is lawful over a move and tests no after-condition.
pub fn states_test_no_after()
    ensures { StatesTestNoAfter }
{}
