//! Values as JSON, appended to a writer.
ghost use Rattle.std.specs.Prelude.{◌≡◌, OnOk, map, true};
ghost use Rattle.serde_json.specs.Data.{Data, boolean};
ghost use Rattle.json_tokens.specs.Texts.{Fields, item_tokens, fields, Adds, AddsData, AddsField, AddsFields, AddsFieldIf, list_of, unless_empty, or_null, text, whole};
ghost use Rattle.json_tokens.specs.Writing.{is_plain};
ghost use Rattle.reply_writer.specs.Shapes.{at_text, load_text, leg_fields, leg_data, unit_fields, unit_data, wagon_text};

use json_tokens::Writer;
use std::alloc::AllocError;
use taf_codes::{ConsignmentId, Place, Railway, TrainId, UnitCode};
use taf_messages::{Listed, OfferedWagons, Wagons, Within, Within32};
use taf_moment::Moment;
use trip_plan::{Leg, Load, UnitLoad};
use wagon_number::WagonNumber;

/// What a value is in JSON.
pub(crate) trait Json {
    ghost shape: { Self → Data };

    /// Appends the value.
    fn put(&self, out: &mut Writer) -> Result<(), AllocError>
        ensures ok { OnOk result (AddsData out.old out.new (shape self.now)) }
        ensures before { out.new.before ≡ out.old.before };
}

impl Json for u8 {
    ghost shape = { whole };

    #[inline]
    fn put(&self, out: &mut Writer) -> Result<(), AllocError> {
        out.u64(u64::from(*self))
    }
}

impl Json for u32 {
    ghost shape = { whole };

    #[inline]
    fn put(&self, out: &mut Writer) -> Result<(), AllocError> {
        out.u64(u64::from(*self))
    }
}

impl Json for u64 {
    ghost shape = { whole };

    #[inline]
    fn put(&self, out: &mut Writer) -> Result<(), AllocError> {
        out.u64(*self)
    }
}

impl<const LOW: u64, const HIGH: u64> Json for Within<LOW, HIGH> {
    ghost shape = { whole };

    #[inline]
    fn put(&self, out: &mut Writer) -> Result<(), AllocError> {
        out.u64(self.get())
    }
}

impl<const LOW: u32, const HIGH: u32> Json for Within32<LOW, HIGH> {
    ghost shape = { whole };

    #[inline]
    fn put(&self, out: &mut Writer) -> Result<(), AllocError> {
        out.u64(u64::from(self.get()))
    }
}

impl Json for bool {
    ghost shape = { boolean };

    #[inline]
    fn put(&self, out: &mut Writer) -> Result<(), AllocError> {
        out.boolean(*self)
    }
}

impl Json for Railway {
    ghost shape = { text };

    #[inline]
    #[tactic(auto, using(crate::proofs::PlainTextLemmas::railway_is_plain))]
    fn put(&self, out: &mut Writer) -> Result<(), AllocError> {
        out.string(self.as_str())
    }
}

impl Json for Place {
    ghost shape = { text };

    #[inline]
    #[tactic(auto, using(crate::proofs::PlainTextLemmas::place_is_plain))]
    fn put(&self, out: &mut Writer) -> Result<(), AllocError> {
        out.string(self.as_str())
    }
}

impl Json for ConsignmentId {
    ghost shape = { text };

    #[inline]
    #[tactic(auto, using(crate::proofs::PlainTextLemmas::name_is_plain))]
    fn put(&self, out: &mut Writer) -> Result<(), AllocError> {
        out.string(self.as_str())
    }
}

impl Json for TrainId {
    ghost shape = { text };

    #[inline]
    #[tactic(auto, using(crate::proofs::PlainTextLemmas::name_is_plain))]
    fn put(&self, out: &mut Writer) -> Result<(), AllocError> {
        out.string(self.as_str())
    }
}

impl Json for UnitCode {
    ghost shape = { text };

    #[inline]
    #[tactic(auto, using(crate::proofs::PlainTextLemmas::unit_is_plain))]
    fn put(&self, out: &mut Writer) -> Result<(), AllocError> {
        out.string(self.as_str())
    }
}

impl Json for WagonNumber {
    ghost shape = { wagon_text };

    #[inline]
    #[tactic(auto, using(crate::proofs::PlainTextLemmas::number_is_plain))]
    fn put(&self, out: &mut Writer) -> Result<(), AllocError> {
        out.string(self.text().as_str())
    }
}

impl Json for Moment {
    ghost shape = { at_text };

    #[inline]
    #[tactic(auto, using(crate::proofs::PlainTextLemmas::moment_is_plain))]
    fn put(&self, out: &mut Writer) -> Result<(), AllocError> {
        out.string(self.text().as_str())
    }
}

impl Json for Load {
    ghost shape = { load_text };

    #[inline]
    fn put(&self, out: &mut Writer) -> Result<(), AllocError> {
        match self {
            Load::Loaded => out.string("loaded"),
            Load::Empty => out.string("empty"),
        }
    }
}

impl<T: Json> Json for Option<T> {
    ghost shape = { or_null T.shape };

    fn put(&self, out: &mut Writer) -> Result<(), AllocError> {
        match self {
            Some(value) => value.put(out),
            None => out.null(),
        }
    }
}

impl<T: Json> Json for &[T] {
    ghost shape = { λ items. list_of T.shape items.now };

    fn put(&self, out: &mut Writer) -> Result<(), AllocError> {
        out.begin_array()?;
        put_items(out, self)?;
        out.end_array()
    }
}

impl<T: Json> Json for Listed<T> {
    ghost shape = { list_of T.shape };

    fn put(&self, out: &mut Writer) -> Result<(), AllocError> {
        self.as_slice().put(out)
    }
}

impl Json for Wagons {
    ghost shape = { list_of wagon_text };

    fn put(&self, out: &mut Writer) -> Result<(), AllocError> {
        self.as_slice().put(out)
    }
}

impl Json for OfferedWagons {
    ghost shape = { list_of wagon_text };

    fn put(&self, out: &mut Writer) -> Result<(), AllocError> {
        self.as_slice().put(out)
    }
}

/// What an object has in JSON.
pub(crate) trait Object {
    ghost members: { Self → Fields };

    /// Appends the members, in byte order of their keys.
    fn put_members(&self, out: &mut Writer) -> Result<(), AllocError>
        ensures ok { OnOk result (AddsFields out.old out.new (members self.now)) }
        ensures before { out.new.before ≡ out.old.before };
}

/// Appends an object.
pub(crate) fn put_object<T: Object>(out: &mut Writer, object: &T) -> Result<(), AllocError>
    ensures ok { OnOk result (AddsData out.old out.new (fields (T.members object.now))) }
    ensures before { out.new.before ≡ out.old.before }
{
    out.begin_object()?;
    object.put_members(out)?;
    out.end_object()
}

impl Object for Leg {
    ghost members = { leg_fields };

    #[tactic(auto, unfolding(crate::specs::Shapes::leg_fields))]
    fn put_members(&self, out: &mut Writer) -> Result<(), AllocError> {
        put_field(out, "minutes", &self.minutes)?;
        put_field(out, "origin", &self.origin)?;
        put_field(out, "ru", &self.ru)?;
        put_field(out, "target", &self.target)?;
        Ok(())
    }
}

impl Json for Leg {
    ghost shape = { leg_data };

    fn put(&self, out: &mut Writer) -> Result<(), AllocError> {
        put_object(out, self)
    }
}

impl Object for UnitLoad {
    ghost members = { unit_fields };

    #[tactic(auto, unfolding(crate::specs::Shapes::unit_fields))]
    fn put_members(&self, out: &mut Writer) -> Result<(), AllocError> {
        put_field(out, "unit", &self.unit)?;
        put_field(out, "wagon", &self.wagon)?;
        Ok(())
    }
}

impl Json for UnitLoad {
    ghost shape = { unit_data };

    fn put(&self, out: &mut Writer) -> Result<(), AllocError> {
        put_object(out, self)
    }
}

/// Appends a member of an object.
#[inline(always)]
pub(crate) fn put_field<T: Json>(out: &mut Writer, name: &str, value: &T) -> Result<(), AllocError>
    requires { is_plain name.now ≡ true }
    ensures ok { OnOk result (AddsField out.old out.new name.now (T.shape value.now)) }
    ensures before { out.new.before ≡ out.old.before }
{
    out.key(name)?;
    value.put(out)
}

/// Appends a member of an object that is a plain text.
#[inline(always)]
pub(crate) fn put_text(out: &mut Writer, name: &str, value: &str) -> Result<(), AllocError>
    requires name { is_plain name.now ≡ true }
    requires text { is_plain value.now ≡ true }
    ensures ok { OnOk result (AddsField out.old out.new name.now (text value.now)) }
    ensures before { out.new.before ≡ out.old.before }
{
    out.key(name)?;
    out.string(value)
}

/// Appends a member of an object, where there is one.
#[inline(always)]
pub(crate) fn put_field_if<T: Json>(
    out: &mut Writer,
    name: &str,
    value: &Option<T>,
) -> Result<(), AllocError>
    requires { is_plain name.now ≡ true }
    ensures ok { OnOk result (AddsFieldIf T.shape out.old out.new name.now value.now) }
    ensures before { out.new.before ≡ out.old.before }
{
    match value {
        Some(value) => put_field(out, name, value),
        None => Ok(()),
    }
}

/// Appends a member of an object that is a list, unless the list is empty.
pub(crate) fn put_list_if<T: Json>(
    out: &mut Writer,
    name: &str,
    items: &[T],
) -> Result<(), AllocError>
    requires { is_plain name.now ≡ true }
    ensures ok { OnOk result
        (AddsFieldIf (list_of T.shape) out.old out.new name.now (unless_empty items.now)) }
    ensures before { out.new.before ≡ out.old.before }
{
    if items.is_empty() {
        Ok(())
    } else {
        put_field(out, name, &items)
    }
}

// Appends items without their brackets.
fn put_items<T: Json>(out: &mut Writer, items: &[T]) -> Result<(), AllocError>
    ensures ok { OnOk result (Adds out.old out.new (item_tokens (map T.shape items.now))) }
    ensures before { out.new.before ≡ out.old.before }
{
    for item in items {
        item.put(out)?;
    }
    Ok(())
}
