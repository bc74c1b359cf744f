use std::marker::Model;
use taf_messages::Record;

/// The records of wagons, in order.
#[derive(Drop)]
pub struct View {
    records: Vec<Record>,
}

impl Model for View {
    ghost use Rattle.std.specs.Prelude.{List};
    ghost use Rattle.taf_messages.specs.declared.record.Record.{Record};

    ghost Value = { List Record };

    ghost view = { λ v. v.records.items };
}

ghost use Rattle.std.specs.Prelude.{◌≡◌};

impl View {
    /// The view of these records.
    pub fn from_vec(records: Vec<Record>) -> View
        ensures { result ≡ records.items }
    {
        View { records }
    }

    /// The records.
    pub fn records(&self) -> &[Record]
        ensures { result.now ≡ self.now }
    {
        &self.records
    }
}
