//! Legs that are lent, or owned.
ghost use Rattle.std.specs.Prelude.{◌≡◌};
ghost use Rattle.eti_chain.specs.HeldLegs.{legs_in};

use journey::Legs;

/// The legs of a wagon: those of a state that a journey came to, or their own.
#[derive(Drop)]
pub(crate) enum HeldLegs<'a> {
    Lent(&'a Legs),
    Own(Legs),
}

impl<'a> HeldLegs<'a> {
    /// The legs.
    pub(crate) fn legs(&self) -> &Legs
        ensures { result.now ≡ legs_in self.now }
    {
        match self {
            HeldLegs::Lent(legs) => legs,
            HeldLegs::Own(legs) => legs,
        }
    }
}
