//! Records of wagons as JSON (4.2.11).
ghost use Rattle.std.specs.Prelude.{◌≡◌, OnOk};
ghost use Rattle.json_tokens.specs.Texts.{AddsFields, text};
ghost use Rattle.reply_writer.specs.RecordShapes as shape;
ghost use Rattle.taf_messages.specs.Details.{stage_name, status_name};

use crate::put::{Json, Object, put_field, put_field_if, put_list_if, put_object};
use json_tokens::Writer;
use std::alloc::AllocError;
use taf_codes::Place;
use taf_messages::{
    BodyName, Delay, EstimateAt, LegIndex, LegMinutes, Record, RecordEvent, RecordEventKind, Stage,
    Status,
};

impl Json for Stage {
    ghost shape = { λ stage. text (stage_name stage) };

    #[tactic(auto, using(crate::proofs::PlainTextLemmas::stage_is_plain))]
    fn put(&self, out: &mut Writer) -> Result<(), AllocError> {
        out.string(self.name())
    }
}

impl Json for Status {
    ghost shape = { λ status. text (status_name status) };

    #[tactic(auto, using(crate::proofs::PlainTextLemmas::status_is_plain))]
    fn put(&self, out: &mut Writer) -> Result<(), AllocError> {
        out.string(self.name())
    }
}

impl Json for RecordEvent {
    ghost shape = { shape.event_data };

    fn put(&self, out: &mut Writer) -> Result<(), AllocError> {
        put_object(out, self)
    }
}

impl Object for RecordEvent {
    ghost members = { shape.event_fields };

    #[tactic(auto, using(json_tokens::proofs::TextLemmas::adds_more), unfolding(crate::specs::RecordShapes::event_fields))]
    fn put_members(&self, out: &mut Writer) -> Result<(), AllocError> {
        put_field_if(out, "at", &self.at)?;
        put_field(out, "by", &self.by)?;
        put_field_if(out, "delay", &self.what.delay())?;
        put_field(out, "kind", &self.what.kind())?;
        put_field_if(out, "leg", &self.what.leg())?;
        put_field_if(out, "minutes", &self.what.minutes())?;
        put_field(out, "no", &self.no)?;
        put_field_if(out, "place", &self.what.place())?;
        put_field_if(out, "received", &self.what.received())?;
        Ok(())
    }
}

impl Json for EstimateAt {
    ghost shape = { shape.estimate_data };

    fn put(&self, out: &mut Writer) -> Result<(), AllocError> {
        put_object(out, self)
    }
}

impl Object for EstimateAt {
    ghost members = { shape.estimate_fields };

    #[tactic(auto, unfolding(crate::specs::RecordShapes::estimate_fields))]
    fn put_members(&self, out: &mut Writer) -> Result<(), AllocError> {
        put_field(out, "at", &self.at)?;
        put_field(out, "leg", &self.leg)?;
        Ok(())
    }
}

impl Json for Record {
    ghost shape = { shape.record_data };

    fn put(&self, out: &mut Writer) -> Result<(), AllocError> {
        put_object(out, self)
    }
}

impl Object for Record {
    ghost members = { shape.record_fields };

    fn put_members(&self, out: &mut Writer) -> Result<(), AllocError> {
        put_first_fields(out, self)?;
        put_middle_fields(out, self)?;
        put_last_fields(out, self)?;
        Ok(())
    }
}

#[tactic(auto, unfolding(crate::specs::RecordShapes::first_record_fields))]
fn put_first_fields(out: &mut Writer, shown: &Record) -> Result<(), AllocError>
    ensures ok { OnOk result (AddsFields out.old out.new (shape.first_record_fields shown.now)) }
    ensures before { out.new.before ≡ out.old.before }
{
    put_field(out, "commit", &shown.commit)?;
    put_field(out, "consignment", &shown.consignment)?;
    put_field(out, "estimates", &shown.estimates)?;
    put_field(out, "eta", &shown.eta)?;
    put_field(out, "events", &shown.events)?;
    put_field(out, "late", &shown.late)?;
    Ok(())
}

#[tactic(auto, unfolding(crate::specs::RecordShapes::middle_record_fields))]
fn put_middle_fields(out: &mut Writer, shown: &Record) -> Result<(), AllocError>
    ensures ok { OnOk result (AddsFields out.old out.new (shape.middle_record_fields shown.now)) }
    ensures before { out.new.before ≡ out.old.before }
{
    put_field(out, "lead", &shown.lead)?;
    put_field(out, "leg", &shown.leg)?;
    put_field(out, "load", &shown.load)?;
    put_field(out, "place", &shown.place)?;
    put_field(out, "responsible", &shown.responsible)?;
    Ok(())
}

#[tactic(auto, using(json_tokens::proofs::TextLemmas::adds_more), unfolding(crate::specs::RecordShapes::last_record_fields))]
fn put_last_fields(out: &mut Writer, shown: &Record) -> Result<(), AllocError>
    ensures ok { OnOk result (AddsFields out.old out.new (shape.last_record_fields shown.now)) }
    ensures before { out.new.before ≡ out.old.before }
{
    put_field(out, "stage", &shown.stage)?;
    put_field(out, "status", &shown.status)?;
    put_list_if(out, "units", shown.units.as_slice())?;
    put_field(out, "wagon", &shown.wagon)?;
    Ok(())
}
