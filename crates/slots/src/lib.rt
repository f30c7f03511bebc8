// The session table: eight rows, each free or with one session.
#![tactic(auto)]

pub mod place;
pub mod slot;
pub mod table;

ghost use Rattle.slots.specs.Laws.{
  DistinctIsApart,
  EmptyIsTheRule,
  LapsedIsTheRule,
  PutsIsTheRule,
  WaitsIsTheRule,
};

// For every gateway whose sessions are those of the rows, what the table's calls do is what the rules do to its sessions.
pub fn table_laws_hold()
    ensures empty { EmptyIsTheRule }
    ensures puts { PutsIsTheRule }
    ensures waits { WaitsIsTheRule }
    ensures lapsed { LapsedIsTheRule }
    ensures apart { DistinctIsApart }
{}
