// The table of unaccepted memory: what its calls do, and what every history of calls keeps.
#![tactic(auto)]

ghost use Rattle.unaccepted_memory.specs.CallLaws.{AcceptNone, BuiltLaw, ClaimLaw, ClearedOnly, FoundLaw, RefusalsLaw, RegisterEmpty, RegisterLaw, StuckLaw, WrongLaw};
ghost use Rattle.unaccepted_memory.specs.Promises.{ClaimsSingle, HistoryGoesOn, HistoryKeeps};
ghost use Rattle.unaccepted_memory.specs.Runs.{RunsLaw};

// Every history of calls on a table keeps all promises, over every host: custody of each owed address, only pages that were
// marked or handed over become accepted, counts add up to the requests, no walk asks twice or outside its span. What is
// claimed is neither marked nor claimed a second time. And a history can always go on.
pub fn history_keeps()
    ensures kept { HistoryKeeps }
    ensures single { ClaimsSingle }
    ensures onward { HistoryGoesOn }
{}

// What each call does, in the words of units, windows and walks.
pub fn call_laws()
    ensures cleared { ClearedOnly }
    ensures stuck { StuckLaw }
    ensures refusals { RefusalsLaw }
    ensures wrong { WrongLaw }
    ensures nothing { AcceptNone }
    ensures claim { ClaimLaw }
    ensures empty { RegisterEmpty }
    ensures register { RegisterLaw }
{}

// What runs of marks are, and what tables that are built or found bring to a history's start.
pub fn table_laws()
    ensures runs { RunsLaw }
    ensures built { BuiltLaw }
    ensures found { FoundLaw }
{}
