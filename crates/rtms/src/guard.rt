// What stands before every call of a host.
ghost use Rattle.std.specs.Prelude.{◌≡◌};
ghost use Rattle.calls.specs.Effects.{Effect, outcome_of};
ghost use Rattle.rtms.specs.Calls.{guarded_of};

use table::answers::Answer;
use table::{Outcome, Table, soundness};

// A call on a table that shows no break; else 35, and the table as it was. Whatever effect the call has on the table, guarded it has that. Not by
// `calls::obeyed`, which hands a call the table to change in place: what stands behind here is whole calls, each of which takes a table by value and has
// made its own checks and outcome, so within `obeyed` each outcome would be taken apart and put together again.
pub(crate) fn guarded<F: FnOnce(Table) -> Outcome>(table: Table, call: F) -> Outcome
    requires { F.pre call table }
    ensures { (effect : Effect) → ((r : Outcome) → F.post call table r → r ≡ outcome_of effect) → result ≡ outcome_of (guarded_of table effect) }
{
    if soundness::sound(table) {
        call(table)
    } else {
        table.refused(Answer::BadConfig)
    }
}
