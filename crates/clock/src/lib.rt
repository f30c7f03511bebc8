// The group's time as the gateway keeps it.
#![tactic(auto)]

pub mod group;

ghost use Rattle.clock.specs.Laws.{
  HeardIsTheRule,
  NewIsTheRule,
  NotifiedIsTheRule,
  PassedIsTheRule,
  SentIsTheRule,
};

// For every gateway, what the definitions here make of its clock is what the rules make of it, and nothing else of the gateway changes.
pub fn clock_laws_hold()
    ensures started { NewIsTheRule }
    ensures heard { HeardIsTheRule }
    ensures passed { PassedIsTheRule }
    ensures sent { SentIsTheRule }
    ensures notified { NotifiedIsTheRule }
{}
