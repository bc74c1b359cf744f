//! Messages as JSON: a message's own record.
ghost use Rattle.std.specs.Prelude.{◌≡◌, OnOk};
ghost use Rattle.taf_messages.specs.Names.{body_name, movement_name};
ghost use Rattle.json_tokens.specs.Texts.{AddsFields, text};
ghost use Rattle.reply_writer.specs.Shapes as shape;

use crate::put::{Json, Object, put_field, put_field_if, put_list_if, put_object};
use json_tokens::Writer;
use std::alloc::AllocError;
use taf_codes::{Place, Railway};
use taf_messages::{
    Body, BodyName, Delay, LegIndex, LegMinutes, Message, MessageNumber, Movement, MovementKind,
    MovementName, TrainAnswer, TrainOffer,
};
use trip_plan::Plan;
use wagon_number::WagonNumber;

impl Json for BodyName {
    ghost shape = { λ name. text (body_name name) };

    #[inline]
    #[tactic(auto, using(crate::proofs::PlainTextLemmas::body_is_plain))]
    fn put(&self, out: &mut Writer) -> Result<(), AllocError> {
        out.string(self.name())
    }
}

impl Json for MovementName {
    ghost shape = { λ name. text (movement_name name) };

    #[inline]
    #[tactic(auto, using(crate::proofs::PlainTextLemmas::movement_is_plain))]
    fn put(&self, out: &mut Writer) -> Result<(), AllocError> {
        out.string(self.name())
    }
}

impl Json for Message {
    ghost shape = { shape.message_data };

    fn put(&self, out: &mut Writer) -> Result<(), AllocError> {
        put_object(out, self)
    }
}

impl Object for Message {
    ghost members = { λ m. shape.body_fields m.by m.no m.body };

    #[tactic(auto, unfolding(crate::specs::Shapes::body_fields))]
    fn put_members(&self, out: &mut Writer) -> Result<(), AllocError> {
        match self.body() {
            Body::Plan(plan) => put_plan(out, self.by(), self.no(), plan),
            Body::Movement(movement) => put_movement(out, self.by(), self.no(), movement),
            Body::EtiAsk { wagon } => {
                put_field(out, "from", &self.by())?;
                put_field(out, "kind", &BodyName::EtiAsk)?;
                put_field(out, "no", &self.no())?;
                put_field(out, "wagon", wagon)?;
                Ok(())
            }
            Body::LegTime {
                wagon,
                leg,
                minutes,
            } => put_leg_time(out, self, *wagon, *leg, *minutes),
            Body::Offer(offer) => put_offer(out, self.by(), self.no(), offer.get()),
            Body::Answer(answer) => put_answer(out, self.by(), self.no(), answer.get()),
            Body::Withdraw { at, offer } => {
                put_field(out, "at", at)?;
                put_field(out, "from", &self.by())?;
                put_field(out, "kind", &BodyName::Withdraw)?;
                put_field(out, "no", &self.no())?;
                put_field(out, "offer", offer)?;
                Ok(())
            }
            Body::Reroute { wagon, route } => {
                put_field(out, "from", &self.by())?;
                put_field(out, "kind", &BodyName::Reroute)?;
                put_field(out, "legs", &route.legs())?;
                put_field(out, "no", &self.no())?;
                put_field(out, "wagon", wagon)?;
                Ok(())
            }
        }
    }
}

#[tactic(auto, using(json_tokens::proofs::TextLemmas::adds_more))]
fn put_plan(out: &mut Writer, by: Railway, no: MessageNumber, plan: &Plan) -> Result<(), AllocError>
    ensures ok { OnOk result (AddsFields out.old out.new (shape.plan_fields by «no» plan.now)) }
    ensures before { out.new.before ≡ out.old.before }
{
    put_first_plan_fields(out, by, plan)?;
    put_last_plan_fields(out, no, plan)?;
    Ok(())
}

#[tactic(auto, unfolding(crate::specs::Shapes::first_plan_fields))]
fn put_first_plan_fields(out: &mut Writer, by: Railway, plan: &Plan) -> Result<(), AllocError>
    ensures ok { OnOk result (AddsFields out.old out.new (shape.first_plan_fields by plan.now)) }
    ensures before { out.new.before ≡ out.old.before }
{
    put_field(out, "commit", &plan.commit())?;
    put_field(out, "consignment", &plan.consignment())?;
    put_field(out, "from", &by)?;
    put_field(out, "kind", &BodyName::Plan)?;
    put_field(out, "legs", &plan.legs())?;
    Ok(())
}

#[tactic(auto, using(json_tokens::proofs::TextLemmas::adds_more), unfolding(crate::specs::Shapes::last_plan_fields))]
fn put_last_plan_fields(out: &mut Writer, no: MessageNumber, plan: &Plan) -> Result<(), AllocError>
    ensures ok { OnOk result (AddsFields out.old out.new (shape.last_plan_fields «no» plan.now)) }
    ensures before { out.new.before ≡ out.old.before }
{
    put_field(out, "load", &plan.load())?;
    put_field(out, "no", &no)?;
    put_list_if(out, "units", plan.units())?;
    put_field(out, "wagons", &plan.wagons())?;
    Ok(())
}

#[tactic(auto, unfolding(crate::specs::Shapes::leg_time_fields))]
fn put_leg_time(
    out: &mut Writer,
    message: &Message,
    wagon: WagonNumber,
    leg: LegIndex,
    minutes: LegMinutes,
) -> Result<(), AllocError>
    ensures ok { OnOk result
        (AddsFields out.old out.new
        (shape.leg_time_fields message.now.by message.now.no wagon leg minutes)) }
    ensures before { out.new.before ≡ out.old.before }
{
    put_field(out, "from", &message.by())?;
    put_field(out, "kind", &BodyName::LegTime)?;
    put_field(out, "leg", &leg)?;
    put_field(out, "minutes", &minutes)?;
    put_field(out, "no", &message.no())?;
    put_field(out, "wagon", &wagon)?;
    Ok(())
}

#[tactic(auto, using(json_tokens::proofs::TextLemmas::adds_more), unfolding(crate::specs::Shapes::movement_fields))]
fn put_movement(
    out: &mut Writer,
    by: Railway,
    no: MessageNumber,
    movement: &Movement,
) -> Result<(), AllocError>
    ensures ok { OnOk result
        (AddsFields out.old out.new (shape.movement_fields by «no» movement.now)) }
    ensures before { out.new.before ≡ out.old.before }
{
    put_field(out, "at", &movement.at)?;
    put_field_if(out, "delay", &movement.what.delay())?;
    put_field(out, "from", &by)?;
    put_field(out, "kind", &movement.what.name())?;
    put_field(out, "no", &no)?;
    put_field_if(out, "place", &movement.what.place())?;
    put_field(out, "wagon", &movement.wagon)?;
    Ok(())
}

#[tactic(auto, unfolding(crate::specs::Shapes::offer_fields))]
fn put_offer(
    out: &mut Writer,
    by: Railway,
    no: MessageNumber,
    offer: &TrainOffer,
) -> Result<(), AllocError>
    ensures ok { OnOk result (AddsFields out.old out.new (shape.offer_fields by «no» offer.now)) }
    ensures before { out.new.before ≡ out.old.before }
{
    put_field(out, "at", &offer.at)?;
    put_field(out, "from", &by)?;
    put_field(out, "kind", &BodyName::Offer)?;
    put_field(out, "no", &no)?;
    put_field(out, "place", &offer.place)?;
    put_field(out, "to", &offer.to)?;
    put_field(out, "train", &offer.train)?;
    put_field(out, "wagons", &offer.wagons)?;
    Ok(())
}

#[tactic(auto, using(json_tokens::proofs::TextLemmas::adds_more), unfolding(crate::specs::Shapes::answer_fields))]
fn put_answer(
    out: &mut Writer,
    by: Railway,
    no: MessageNumber,
    answer: &TrainAnswer,
) -> Result<(), AllocError>
    ensures ok { OnOk result (AddsFields out.old out.new (shape.answer_fields by «no» answer.now)) }
    ensures before { out.new.before ≡ out.old.before }
{
    put_field(out, "at", &answer.at)?;
    put_field(out, "from", &by)?;
    put_field(out, "kind", &BodyName::Answer)?;
    put_field_if(out, "manager", &answer.manager)?;
    put_field(out, "no", &no)?;
    put_field(out, "offer", &answer.offer)?;
    put_field(out, "offerer", &answer.offerer)?;
    put_field(out, "received", &answer.received)?;
    put_field(out, "refused", &answer.refused)?;
    Ok(())
}
