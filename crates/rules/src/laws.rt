//! The theorems, each on the contract of a function that does nothing else: without their proofs
//! this crate would not be proved.
ghost use Rattle.rules.specs.Laws.{LawsHold};
ghost use Rattle.rules.specs.Play.{EveryListOfCallsHolds};
ghost use Rattle.rules.specs.Ledger.{LedgerGivesOneAnswer, SearchFindsTheLedgersAnswer};
ghost use Rattle.rules.specs.Choosers.{LowestSays, StayingSays, EveningSays};
ghost use Rattle.rules.specs.Cases.{CasesComeOut};
ghost use Rattle.rules.specs.Wrongs.{WrongRulesBreakTheLaws};

/// Every history that calls on a new rack can have holds of the rack that it leads to, whatever
/// vacant row is taken at each mark; so does the history of every list of calls, with another
/// chooser at each.
pub fn laws_hold()
    ensures every_history { LawsHold }
    ensures every_list_of_calls { EveryListOfCallsHolds }
{}

/// The ledger gives a request one answer, and the search computes it.
pub fn ledger_answers()
    ensures one { LedgerGivesOneAnswer }
    ensures found { SearchFindsTheLedgersAnswer }
{}

/// The three choosers pick as their names say.
pub fn choosers_say()
    ensures lowest { LowestSays (Unit {0}) }
    ensures staying { StayingSays (Unit {0}) }
    ensures evening { EveningSays }
{}

/// The worked cases come out as they are written, by computing; and under rules that are wrong in
/// one point the laws are false.
pub fn cases_come_out()
    ensures right { CasesComeOut }
    ensures wrong { WrongRulesBreakTheLaws }
{}
