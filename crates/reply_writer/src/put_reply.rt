//! Replies, items and faults of records as JSON.
ghost use Rattle.std.specs.Prelude.{◌≡◌, OnOk};
ghost use Rattle.taf_messages.specs.Names.{field_name};
ghost use Rattle.json_tokens.specs.Texts.{AddsFields, text};
ghost use Rattle.reply_writer.specs.ReplyShapes as shape;
ghost use Rattle.taf_messages.specs.Details.{why_name};

use crate::put::{Json, Object, put_field, put_field_if, put_object, put_text};
use json_tokens::Writer;
use std::alloc::AllocError;
use taf_messages::{Field, Item, ItemBody, LegIndex, RecordFault, Reply, SubNotice, Why};
use taf_moment::Moment;
use wagon_number::WagonNumber;

impl Json for Why {
    ghost shape = { λ why. text (why_name why) };

    #[tactic(auto, using(crate::proofs::PlainTextLemmas::why_is_plain))]
    fn put(&self, out: &mut Writer) -> Result<(), AllocError> {
        out.string(self.name())
    }
}

impl Json for Field {
    ghost shape = { λ field. text (field_name field) };

    #[tactic(auto, using(crate::proofs::PlainTextLemmas::field_is_plain))]
    fn put(&self, out: &mut Writer) -> Result<(), AllocError> {
        out.string(self.name())
    }
}

impl Json for Item {
    ghost shape = { shape.item_data };

    fn put(&self, out: &mut Writer) -> Result<(), AllocError> {
        put_object(out, self)
    }
}

impl Object for Item {
    ghost members = { λ i. shape.item_fields i.number i.body };

    #[tactic(auto, unfolding(crate::specs::ReplyShapes::item_fields))]
    fn put_members(&self, out: &mut Writer) -> Result<(), AllocError> {
        match &self.body {
            ItemBody::Notice(message) => {
                put_field(out, "item", &self.number)?;
                put_field(out, "message", message.get())?;
                put_text(out, "type", "notice")?;
                Ok(())
            }
            ItemBody::Sub(sub) => put_sub(out, self.number, sub.get()),
            ItemBody::Eti { wagon, leg, at } => put_eti(out, self.number, *wagon, *leg, *at),
            ItemBody::Eta { wagon, at } => {
                put_field(out, "at", at)?;
                put_field(out, "item", &self.number)?;
                put_text(out, "type", "eta")?;
                put_field(out, "wagon", wagon)?;
                Ok(())
            }
            ItemBody::AlertBegins { wagon, late_by } => {
                put_field(out, "item", &self.number)?;
                put_field(out, "late_by", late_by)?;
                put_text(out, "type", "alert_begins")?;
                put_field(out, "wagon", wagon)?;
                Ok(())
            }
            ItemBody::AlertEnds { wagon } => {
                put_field(out, "item", &self.number)?;
                put_text(out, "type", "alert_ends")?;
                put_field(out, "wagon", wagon)?;
                Ok(())
            }
        }
    }
}

#[tactic(auto, unfolding(crate::specs::ReplyShapes::sub_fields))]
fn put_sub(out: &mut Writer, number: u64, sub: &SubNotice) -> Result<(), AllocError>
    ensures ok { OnOk result (AddsFields out.old out.new (shape.sub_fields number sub.now)) }
    ensures before { out.new.before ≡ out.old.before }
{
    put_field(out, "at", &sub.at)?;
    put_field(out, "from", &sub.from)?;
    put_field(out, "item", &number)?;
    put_field(out, "offer", &sub.offer)?;
    put_field(out, "offerer", &sub.offerer)?;
    put_text(out, "type", "sub")?;
    put_field(out, "wagons", &sub.wagons)?;
    Ok(())
}

#[tactic(auto, unfolding(crate::specs::ReplyShapes::eti_fields))]
fn put_eti(
    out: &mut Writer,
    number: u64,
    wagon: WagonNumber,
    leg: LegIndex,
    at: Moment,
) -> Result<(), AllocError>
    ensures ok { OnOk result (AddsFields out.old out.new (shape.eti_fields number wagon leg at)) }
    ensures before { out.new.before ≡ out.old.before }
{
    put_field(out, "at", &at)?;
    put_field(out, "item", &number)?;
    put_field(out, "leg", &leg)?;
    put_text(out, "type", "eti")?;
    put_field(out, "wagon", &wagon)?;
    Ok(())
}

impl Json for Reply {
    ghost shape = { shape.reply_data };

    fn put(&self, out: &mut Writer) -> Result<(), AllocError> {
        put_object(out, self)
    }
}

impl Object for Reply {
    ghost members = { shape.reply_fields };

    #[tactic(auto, using(json_tokens::proofs::TextLemmas::adds_more), unfolding(crate::specs::ReplyShapes::reply_fields))]
    fn put_members(&self, out: &mut Writer) -> Result<(), AllocError> {
        match self {
            Reply::Accepted { no } => {
                put_field(out, "no", no)?;
                put_text(out, "reply", "accepted")?;
                Ok(())
            }
            Reply::Refused(refusal) => {
                let refusal = refusal.get();
                put_field_if(out, "last", &refusal.last)?;
                put_field_if(out, "no", &refusal.no)?;
                put_text(out, "reply", "refused")?;
                put_field_if(out, "wagon", &refusal.wagon)?;
                put_field(out, "why", &refusal.why)?;
                Ok(())
            }
            Reply::One(shown) => {
                put_field(out, "record", shown.get())?;
                put_text(out, "reply", "record")?;
                Ok(())
            }
            Reply::Many(shown) => {
                put_field(out, "records", shown.get())?;
                put_text(out, "reply", "records")?;
                Ok(())
            }
            Reply::Items(items) => {
                put_field(out, "items", items.get())?;
                put_text(out, "reply", "items")?;
                Ok(())
            }
            Reply::Acknowledged(item) => {
                put_field(out, "acknowledged", item)?;
                put_text(out, "reply", "acknowledged")?;
                Ok(())
            }
        }
    }
}

impl Json for RecordFault {
    ghost shape = { shape.fault_data };

    fn put(&self, out: &mut Writer) -> Result<(), AllocError> {
        put_object(out, self)
    }
}

impl Object for RecordFault {
    ghost members = { shape.fault_fields };

    #[tactic(auto, unfolding(crate::specs::ReplyShapes::fault_fields))]
    fn put_members(&self, out: &mut Writer) -> Result<(), AllocError> {
        match self {
            RecordFault::BadJson => put_text(out, "fault", "bad_json"),
            RecordFault::BadKind => put_text(out, "fault", "bad_kind"),
            RecordFault::MissingField(field) => {
                put_text(out, "fault", "missing_field")?;
                put_field(out, "field", field)?;
                Ok(())
            }
            RecordFault::BadField(field) => {
                put_text(out, "fault", "bad_field")?;
                put_field(out, "field", field)?;
                Ok(())
            }
            RecordFault::BadPlan(code) => {
                put_field(out, "code", code)?;
                put_text(out, "fault", "bad_plan")?;
                Ok(())
            }
            RecordFault::Memory => Ok(()),
        }
    }
}
