//! Names of consignments and of trains.
ghost use Rattle.std.specs.Prelude.{◌≡◌, ℕ, List, Some, true};
ghost use Rattle.std.specs.Fmt.{styled_text};
ghost use Rattle.taf_codes.specs.Codes.{consignment_of, is_name, train_of};

use crate::fault::BadCode;
use crate::name_text::NameText;
use std::fmt;
use std::marker::Model;

/// The name of a consignment: 1 to 20 characters of A to Z, 0 to 9 and hyphen.
#[derive(Clone, Copy, Debug, PartialEq, Eq, PartialOrd, Ord, Hash)]
pub struct ConsignmentId {
    name: NameText,
}

impl Model for ConsignmentId {
    ghost Value = { List ℕ };

    ghost view = { λ consignment. consignment.name };

    ghost inverse = { λ text. record { name = text } };
}

impl ConsignmentId {
    /// The consignment whose name this text is.
    pub fn read(text: &str) -> Result<ConsignmentId, BadCode>
        ensures { result ≡ consignment_of text.now }
    {
        let name = NameText::read(text)?;
        Ok(ConsignmentId { name })
    }

    /// The name.
    pub fn as_str(&self) -> &str
        ensures text { result.now ≡ self.now }
        ensures name { is_name self.now ≡ true }
    {
        self.name.as_str()
    }
}

impl fmt::Display for ConsignmentId {
    ghost output = { λ consignment. Some consignment };

    ghost styled_output = { λ consignment spec. Some (styled_text spec consignment) };

    fn fmt<W: fmt::Write>(&self, f: &mut fmt::Formatter<W>) -> fmt::Result {
        f.pad(self.as_str())
    }
}

/// The name of a train: 1 to 20 characters of A to Z, 0 to 9 and hyphen.
#[derive(Clone, Copy, Debug, PartialEq, Eq, PartialOrd, Ord, Hash)]
pub struct TrainId {
    name: NameText,
}

impl Model for TrainId {
    ghost Value = { List ℕ };

    ghost view = { λ train. train.name };

    ghost inverse = { λ text. record { name = text } };
}

impl TrainId {
    /// The train whose name this text is.
    pub fn read(text: &str) -> Result<TrainId, BadCode>
        ensures { result ≡ train_of text.now }
    {
        let name = NameText::read(text)?;
        Ok(TrainId { name })
    }

    /// The name.
    pub fn as_str(&self) -> &str
        ensures text { result.now ≡ self.now }
        ensures name { is_name self.now ≡ true }
    {
        self.name.as_str()
    }
}

impl fmt::Display for TrainId {
    ghost output = { λ train. Some train };

    ghost styled_output = { λ train spec. Some (styled_text spec train) };

    fn fmt<W: fmt::Write>(&self, f: &mut fmt::Formatter<W>) -> fmt::Result {
        f.pad(self.as_str())
    }
}
