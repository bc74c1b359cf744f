//! The laws of what a railway is shown.
ghost use Rattle.hub_answers.specs.Shown.{ShownIsAsked, ShownIsForTheTrip};

use hub_model::railways_see_what_concerns_them;

/// A railway is shown the record of a wagon exactly where its question for the wagon would be answered with it. It does nothing.
pub fn shown_is_asked()
    ensures { ShownIsAsked }
{}

/// Whatever is known, each wagon that a railway is shown is one of whose trip it is. It does nothing.
pub fn shown_is_for_the_trip()
    ensures { ShownIsForTheTrip }
{
    railways_see_what_concerns_them();
    shown_is_asked();
}
