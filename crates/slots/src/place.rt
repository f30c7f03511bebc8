// The place of a row in the table.
ghost use Rattle.std.specs.Prelude.{◌<◌};
ghost use Rattle.rules.specs.Limits.{slots};

#[derive(Clone, Copy)]
pub struct Place {
    pub index: usize,
    // it lies in the table
    pub ghost within: { index < slots },
}
