// The fields of a gateway. That they are `Ready` is a clause of each step: a step breaks it and mends it again by itself, and no ghost field
// can be a record. `Gateway` holds it for all calls. That a session is `Standing` at a place is a clause too, since it is true of both together.
ghost use Rattle.rules.specs.Making.{acceptable};
ghost use Rattle.rules.specs.Model.{new};
ghost use Rattle.steps.specs.Cores.{Ready, model};
ghost use Rattle.std.specs.Prelude.{◌≡◌, true};

use clock::group::Group;
use rules::settings::Settings;
use slots::table::Table;

#[derive(Drop)]
pub struct Core {
    pub settings: Settings,
    pub group: Group,
    pub table: Table,
}

impl Core {
    pub fn new(settings: Settings) -> Core
        requires { acceptable settings ≡ true }
        ensures new { model result ≡ new settings }
        ensures kept { result.settings ≡ settings }
        ensures ready { Ready result }
    {
        settings.are_proper();
        Core {
            settings,
            group: Group::new(settings.tolerances(), settings.start),
            table: Table::new(),
        }
    }
}
