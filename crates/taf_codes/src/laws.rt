//! A law of the codes' definitions. The function does nothing: what it promises is proved.
ghost use Rattle.taf_codes.specs.Codes.{ReadsBack, consignment_of, is_name, is_place, is_railway, is_unit_code, place_code_of, railway_of, train_of, unit_of};

/// Each text that is a code reads as itself.
pub fn codes_read_back()
    ensures railway { ReadsBack is_railway railway_of }
    ensures place { ReadsBack is_place place_code_of }
    ensures consignment { ReadsBack is_name consignment_of }
    ensures train { ReadsBack is_name train_of }
    ensures unit { ReadsBack is_unit_code unit_of }
{}
