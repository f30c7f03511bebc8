// The rules of the gateway: settings, answers and refusals as types; in specs/ the rule of each call, whole runs, and the
// law over runs; in proofs/ that every run keeps it. The functions here have nothing to compute: their contracts are theorems.
#![tactic(auto)]

pub mod answers;
pub mod limits;
pub mod settings;
pub mod tolerances;

ghost use Rattle.rules.specs.Law.{RunsKeepTheLaw};
ghost use Rattle.rules.specs.Meaning.{meant};
ghost use Rattle.rules.specs.MoreSamples.{MoreSamples};
ghost use Rattle.rules.specs.Samples.{AllSamples};
ghost use Rattle.rules.specs.Theorems.{ChangesOneSession, NothingDueAfterNine, RefusalsChangeNothing};

use sealer::Sealer;

// After any list of calls, refused ones included, from all settings that making accepts, over any sealer.
pub fn every_run_keeps_the_law<S: Sealer>()
    ensures { RunsKeepTheLaw (meant S.Sealer.ciphertext S.Sealer.mac S.Sealer.opened S.Sealer.apart S.Sealer.long S.Sealer.sound S.Sealer.complete S.Sealer.wide) }
{}

// Short runs worked by hand.
pub fn samples_hold()
    ensures { AllSamples }
{}

// And more of them.
pub fn more_samples_hold()
    ensures { MoreSamples }
{}

pub fn nothing_is_due_after_nine_calls()
    ensures { NothingDueAfterNine }
{}

pub fn a_call_changes_one_session()
    ensures { ChangesOneSession }
{}

pub fn a_refusal_changes_nothing()
    ensures { RefusalsChangeNothing }
{}
